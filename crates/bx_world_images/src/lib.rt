//! What any content of the disks shows while works are under way in log slots: laws of the logs of a volume; nothing here runs.
#![tactic(auto)]
