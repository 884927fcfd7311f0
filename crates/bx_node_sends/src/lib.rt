//! How a cluster stands once a node begins a record, and once it sends a write; nothing here runs.
#![tactic(auto)]
