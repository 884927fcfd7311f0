//! One mirrored device over plain data: what holds of its members, rows and letters, and that each event keeps it; nothing here runs.
#![tactic(auto)]
