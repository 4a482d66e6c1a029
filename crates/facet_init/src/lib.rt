//! Containers that are made in an empty range: a box of a value, an empty list, map or set with room for elements, and the
//! variant of an enum, before its fields. Out of memory is the only refusal, and changes nothing.
#![tactic(auto)]

mod boxes;
mod collections;
mod definitions;
mod enums;
mod sequences;

pub use boxes::box_new_into;
pub use collections::init_in_place_with_capacity;
pub use enums::init_variant;
