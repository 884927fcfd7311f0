//! How a cluster stands after events that change no log: input of servers, members and replicas, writes that are over, a new volume; nothing here runs.
#![tactic(auto)]
