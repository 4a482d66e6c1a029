//! Proofs that the contracts of `facet_block` suffice for callers in another crate, and examples of their use. Each
//! function says exactly what the blocks are that it leaves, and the proofs use the public contracts and lemmas alone.
#![tactic(auto)]

mod fields;
mod pointers;
mod tags;
#[cfg(test)]
mod tests;

pub use fields::{
    empty_sequence, fill_and_read, fill_and_take, fill_given, fill_nested, fill_sequence, fill_two,
    fill_two_assumed, fill_two_borrowed, fill_two_uninit, replace_field,
};
pub use pointers::{
    is_slot_empty, move_range, put_and_get, put_further, retag_by_borrows, size_behind,
    take_further,
};
pub use tags::{retag, retag_below, retag_deep, retag_each};
