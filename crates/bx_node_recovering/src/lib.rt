//! Where a node's recovery of a dead session's log stands between two events, and how that goes with the log, the writes and the reads: it goes on with each of the
//! recovery's steps and with what other machines do. Nothing here runs.
#![tactic(auto)]
