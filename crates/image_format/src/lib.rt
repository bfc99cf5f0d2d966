// The form of an image of pending transfers: definitions and their laws. This crate has no code.

#![tactic(auto)]
