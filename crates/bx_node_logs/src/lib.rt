//! How the logs of a volume stand after a step of one of them: a record begins, its body and its gate are acknowledged; nothing here runs.
#![tactic(auto)]
