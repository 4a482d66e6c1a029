//! The shape of one type: what is known of it, how it is built, and its accessors.
#![tactic(auto)]

mod attributes;
mod capabilities;
mod errors;
mod identity;
mod kind;
mod memory;
mod proxies;
mod scalar;
mod shape;
mod shape_builder;

pub use errors::{AllocateError, MissingDeclId, ShapeMismatch};
pub use scalar::try_from_shape;
pub use shape::{Shape, UNSIZED_LAYOUT};
pub use shape_builder::ShapeBuilder;
