//! What the lines of a schedule of several machines come to, as events of a cluster, decided one at a time: whoever drives the cluster does each, prints
//! what it comes to, and asks again. In a run `due` says what comes next; `delivery_between` is the next packet between two machines; `Held` has what a run
//! passes over, and `lane_refusal` refuses to hold, free or drop what isn't there; `drop_pending` drops, and `drop_lost` drops what no machine is up to take; `machines_up` and `machines_down` are those
//! that crash, or start again, where all do.
#![tactic(auto)]

mod drops;
mod held;
mod lane;
mod laws;
mod machines;
mod nexts;
mod runs;

pub use drops::{drop_lost, drop_pending};
pub use held::Held;
pub use lane::{Lane, lane_refusal};
pub use laws::each_may_go;
pub use machines::{disk_of, machines_down, machines_up};
pub use nexts::delivery_between;
pub use runs::due;
