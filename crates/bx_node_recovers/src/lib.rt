//! How a cluster stands while a node recovers the log of a dead session, which its own has claimed: a write is sent; the gates are settled, and the records told; the
//! blocks are home, gate 0 is closed, and the others are. Nothing here runs.
#![tactic(auto)]
