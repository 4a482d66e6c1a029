//! Lists that are changed: elements are exchanged, added at the end and taken from it, spare blocks are added, and a list is
//! made of a sequence whose blocks hold elements. Out of memory is the only refusal, and leaves what the list holds.
#![tactic(auto)]

mod blocks;
mod lists;
mod sequences;

pub use lists::{from_raw_parts, list_pop, list_push, list_reserve, list_swap, set_len};
