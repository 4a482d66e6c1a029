//! What containers hold: the parts of options, results, enums, lists, boxed slices, boxes, maps and sets. Nothing here
//! allocates, and no call is refused.
#![tactic(auto)]

mod boxed_slices;
mod boxes;
mod definitions;
/// Writes to a place that stays a place to be filled.
pub mod destinations;
mod enums;
/// The shapes of the parts of containers.
pub mod laws;
mod lists;
mod maps;
mod options;
/// Where the parts of containers begin.
pub mod parts;
mod results;
mod sets;

pub use boxed_slices::{slice_get, slice_len};
pub use boxes::borrow;
pub use enums::variant_of;
pub use lists::{list_capacity, list_get, list_len};
pub use maps::map_len;
pub use options::{get_value, init_none, init_some, is_some};
pub use results::{get_err, get_ok, init_err, init_ok, is_ok};
pub use sets::set_len_of;
