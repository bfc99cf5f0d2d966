// What a call means: definitions and their laws. This crate has no code.

#![tactic(auto)]
