//! Histories of calls, traces that fit them, and traces placed along their schedules: definitions, over any
//! relation of steps, and their laws. Nothing runs here.
#![tactic(auto)]

mod laws;

pub use laws::{
    Steps, front_fits, front_leads, front_placed, one_history, points_are_entries,
    points_spell_history,
};
