//! The lock service over plain data: what holds of all lock servers and clerks together, and that each event keeps it; nothing here runs.
#![tactic(auto)]
