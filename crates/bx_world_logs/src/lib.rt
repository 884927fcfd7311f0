//! The logs of all sessions of a volume, and the homes of its blocks: definitions, and what each step leaves of them; nothing here runs.
#![tactic(auto)]
