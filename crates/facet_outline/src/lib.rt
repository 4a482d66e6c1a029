//! The outline of a shape: to which shapes it refers, of which parts its values consist and where these lie, which
//! layouts it may have, and what may be asked of its values.
#![tactic(auto)]

mod bad_layout;
mod discriminants;
mod fields;
pub mod laws;
mod layout;
mod lookup;
mod mismatch;
mod offered;
mod parts;
mod placed_fields;
mod references;
mod refers;
mod value_kind;

pub use bad_layout::{
    has_bad_layout, has_unsized_part, is_leaf_without_bytes, is_too_large, layout_of_kind,
};
pub use discriminants::{
    has_discriminant_outside, is_of_repr, push_discriminants, push_discriminants_of_kind, tag_width,
};
pub use layout::{
    array_layout, next_offset, option_layout, option_offset, pair_layout, part_layout,
    result_layout, result_offset, rounded, scalar_layout, value_offset,
};
pub use lookup::LayoutLookup;
pub use mismatch::is_mismatched;
pub use offered::{has_unoffered_member, offered_capabilities, offered_operations};
pub use parts::{key_of_kind, push_inline_parts, push_parts, repetition};
pub use placed_fields::{
    PlacedField, body_count, has_field_misaligned, has_field_outside, is_packed_struct, push_body,
    push_placed_fields, push_spans, tag_bytes,
};
pub use references::{
    push_eager_references, push_height_references, push_references, push_tuple_fields,
};
pub use refers::{Refers, push_each};
pub use value_kind::{ValueKind, kind_of, pointee_of, slice_element};
