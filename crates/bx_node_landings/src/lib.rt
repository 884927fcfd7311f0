//! How a cluster stands once what a node wrote is acknowledged: a body, a gate, blocks that are home, gates that are closed; nothing here runs.
#![tactic(auto)]
