//! A walk over a value in a block: what it begins with, the places of its parts, and how deep and how large it is.
//! Nothing here allocates.
#![tactic(auto)]

mod items;
mod leaf_counts;
mod levels;
mod parts;
mod place;
mod sealed;
mod seeing;
mod sequences;
mod tags;
#[cfg(test)]
mod tests;

pub use leaf_counts::leaf_count;
pub use levels::{MAX_LEVELS, depth};
pub use parts::Parts;
pub use place::Place;
pub use sealed::{pointed_elements, sealed_shape};
pub use seeing::{Seen, see};
pub use sequences::element_in;
