//! Shapes and their registry: all that `facet_registry` has, and the makers that draft shapes into it.
#![tactic(auto)]

pub use facet_makers::{
    array_of, box_of, boxed_slice_of, is_slice, list_of, map_of, option_of, result_of, set_of,
    slice_of, tuple_of,
};
pub use facet_registry::{
    SealCause, SealError, SealFault, Shape, Shapes, ValueKind, all, all_default, all_hash, all_ord,
    all_partial_eq, all_partial_ord, any, none,
};
