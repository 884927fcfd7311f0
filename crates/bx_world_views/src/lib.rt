//! What nodes hold of a volume, and records in doubt: definitions, and what each step leaves of them; nothing here runs.
#![tactic(auto)]
