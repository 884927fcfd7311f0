//! How all machines of a cluster and their disks stand between two events: definitions, and that it goes on where the chain of states grows; nothing here runs.
#![tactic(auto)]
