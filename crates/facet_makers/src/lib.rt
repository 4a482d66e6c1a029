//! The makers: each drafts the shape of a generic type over shapes that are there.
#![tactic(auto)]

mod array;
mod boxes;
mod drafting;
mod generic;
pub mod laws;
mod list;
mod map;
mod offering;
mod operations;
mod option;
mod result;
mod set;
mod slice;
mod slices;
#[cfg(test)]
mod tests;
mod tuple;
mod tuple_parts;
mod types;

pub use array::array_of;
pub use boxes::{box_of, boxed_slice_of};
pub use drafting::draft;
pub use list::list_of;
pub use map::map_of;
pub use option::option_of;
pub use result::result_of;
pub use set::set_of;
pub use slice::slice_of;
pub use slices::is_slice;
pub use tuple::tuple_of;
