//! What the disks of a cluster show, and what a recovery settles; nothing here runs.
#![tactic(auto)]
