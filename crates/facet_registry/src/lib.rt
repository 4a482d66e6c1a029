//! The registry: descriptions of types under ids, of which the first ones are sealed.
#![tactic(auto)]

mod capability;
/// The laws of what is read off sealed shapes.
pub mod laws;
mod offsets;
mod reading;
mod registry;
mod scalar_shape;

pub use capability::{
    all, all_default, all_hash, all_ord, all_partial_eq, all_partial_ord, any, none,
};
pub use facet_causes::{SealCause, SealError, SealFault};
pub use facet_outline::ValueKind;
pub use facet_shape::Shape;
pub use registry::Shapes;
