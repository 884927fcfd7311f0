//! How a cluster stands after a machine stopped, started again or met a fault; nothing here runs.
#![tactic(auto)]
