//! What each node of a cluster has under way, and how that goes with the logs, the writes and the reads of its session; nothing here runs.
#![tactic(auto)]
