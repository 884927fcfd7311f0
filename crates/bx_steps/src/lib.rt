//! What stands for a file tree, and one step of it, as engines and the machines that drive them name it. There is no code.
#![tactic(auto)]
