//! Proofs that the laws of `facet_values` suffice for callers in another crate: short functions that make values, take
//! them out, replace parts and move values to other blocks. Each says by readings what it leaves.
#![tactic(auto)]

mod lists;
mod moves;
mod options;
mod structs;

pub use lists::put_empty_list;
pub use moves::move_value;
pub use options::{put_absent, put_present, take_present};
pub use structs::replace_leaf;
