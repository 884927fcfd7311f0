//! Lock servers and clerks over plain data, one at a time: what holds of each, and that each of its steps keeps that; nothing here runs.
#![tactic(auto)]
