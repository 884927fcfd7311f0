//! Disks at rest of a volume that was just made, on which the nodes of a cluster begin; nothing here runs.
#![tactic(auto)]
