//! What sealing a list of shapes comes to: they are well formed, or some cause comes first.
#![tactic(auto)]

pub mod laws;
