//! Whether a place holds a value of a shape. Nothing here allocates.
#![tactic(auto)]

mod alone;
mod ascending;
mod blocks;
mod reads;
mod whole;

pub use reads::reads_as;
