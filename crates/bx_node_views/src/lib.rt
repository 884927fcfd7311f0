//! What a node shows, knows and may write of the blocks that its session holds: how its steps leave that; nothing here runs.
#![tactic(auto)]
