//! How the nodes of a cluster stand after each event at one of them; nothing here runs.
#![tactic(auto)]
