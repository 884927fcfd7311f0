//! Disks at rest, on which the nodes of a cluster begin: those of a volume whose log was closed; and what the one-machine forms are made for; nothing here runs.
#![tactic(auto)]
