//! How a cluster stands once a node lets a block go, which its session gives up or wants otherwise; nothing here runs.
#![tactic(auto)]
