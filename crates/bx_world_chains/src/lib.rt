//! Who may write a log slot, and what a chain of states leaves of sessions and slots; nothing here runs.
#![tactic(auto)]
