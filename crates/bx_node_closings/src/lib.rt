//! How the logs of a volume stand after a write is sent, and as one of them is closed; nothing here runs.
#![tactic(auto)]
