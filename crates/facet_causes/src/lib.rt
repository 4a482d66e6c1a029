//! Why shapes aren't sealed: the fifteen causes over a list of shapes, the first cause that some shape meets, and the
//! check of the shapes that are new in a list.
#![tactic(auto)]

mod buffers;
mod cause;
mod checking;
mod drafts;
mod edges;
mod groups;
mod keys;
mod large;
pub mod laws;
mod layouts;
mod local;
mod overlap;
mod reading;
mod refuse;
mod shape_list;
mod sizes;
mod tables;
#[cfg(test)]
mod tests;

pub use cause::{SealCause, SealError, SealFault};
pub use checking::check;
pub use reading::kind_in;
pub use shape_list::ShapeList;
pub use tables::Tables;
