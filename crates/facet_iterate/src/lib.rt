//! Iterators over the elements of lists and sets and over the pairs of maps, from both ends. Nothing here allocates, no
//! call is refused, and each takes constant time.
#![tactic(auto)]

mod elements;
/// What the calls of the iterators return, by the values that are still to come.
pub mod laws;
mod pairs;

pub use elements::{ListIter, list_iter, set_iter};
pub use pairs::{MapIter, map_iter};
