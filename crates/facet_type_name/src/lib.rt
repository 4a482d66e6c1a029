//! The name of a shape: how many bytes of it are the shape's own, and whose names it has in it.
#![tactic(auto)]

mod children;
pub mod laws;
mod length;

pub use children::push_name_children;
pub use length::own_name_bytes;
