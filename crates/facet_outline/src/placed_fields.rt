ghost use Rattle.std.specs.Prelude.{◌≡◌, [], ◌∷◌, ◌++◌, length, map, slice_index_or, IfOk, OnOk};
ghost use Rattle.std.specs.List.{flat_map, list_any};
ghost use Rattle.facet_outline.specs.Field.{bodies, ends_behind, has_field_misaligned, has_field_outside, is_misaligned, is_packed_struct, placed, placed_fields, span_of, spans_of, tag_bytes};

use crate::discriminants::tag_width;
use crate::layout::part_layout;
use crate::lookup::LayoutLookup;
use crate::value_kind::ValueKind;
use facet_base::ShapeId;
use facet_desc::{Field, Ty, UserType, Variant};
use facet_graph::Span;
use std::alloc::AllocError;

/// A field: its shape, and its offset in bytes.
#[derive(Clone, Copy)]
pub struct PlacedField {
    pub shape: ShapeId,
    pub offset: usize,
}

/// Adds the fields of the values of a kind: those of a struct, or of all variants of an enum.
pub fn push_placed_fields(
    kind: ValueKind,
    ty: &Ty,
    to: &mut Vec<PlacedField>,
) -> Result<(), AllocError>
    ensures { OnOk result (to.new.items ≡ to.old.items ++ placed_fields kind ty.now) }
{
    match (kind, ty) {
        (ValueKind::Struct, Ty::User(UserType::Struct(struct_type))) => {
            push_placed(struct_type.fields.as_slice(), to)
        }
        (ValueKind::Enum, Ty::User(UserType::Enum(enum_type))) => {
            push_all_placed(enum_type.variants.as_slice(), to)
        }
        _ => Ok(()),
    }
}

// Adds fields with their offsets.
fn push_placed(fields: &[Field], to: &mut Vec<PlacedField>) -> Result<(), AllocError>
    ensures { OnOk result (to.new.items ≡ to.old.items ++ map (λ f. record { shape = f.shape; offset = f.offset }) fields.now) }
{
    for field in fields {
        to.push(PlacedField {
            shape: field.shape,
            offset: field.offset,
        })?;
    }
    Ok(())
}

// Adds the fields of all variants with their offsets.
fn push_all_placed(variants: &[Variant], to: &mut Vec<PlacedField>) -> Result<(), AllocError>
    ensures { OnOk result (to.new.items ≡ to.old.items ++ flat_map (λ v. placed v.body) variants.now) }
{
    for variant in variants {
        push_placed(variant.body.fields.as_slice(), to)?;
    }
    Ok(())
}

/// How many lists of fields there are that lie side by side in one value: one for a struct, and one for each variant
/// of an enum.
pub fn body_count(kind: ValueKind, ty: &Ty) -> usize
    ensures { result ≡ length (bodies kind ty.now) }
{
    match (kind, ty) {
        (ValueKind::Struct, Ty::User(UserType::Struct(_))) => 1,
        (ValueKind::Enum, Ty::User(UserType::Enum(enum_type))) => enum_type.variants.len(),
        _ => 0,
    }
}

/// How many bytes the tag takes, at offset 0: none where there is no tag.
pub fn tag_bytes(kind: ValueKind, ty: &Ty) -> usize
    ensures { result ≡ tag_bytes kind ty.now }
{
    match (kind, ty) {
        (ValueKind::Enum, Ty::User(UserType::Enum(enum_type))) => tag_width(enum_type.enum_repr),
        _ => 0,
    }
}

/// Adds the fields that lie side by side in the value at index `i`: those of a struct, or of a variant.
pub fn push_body(
    kind: ValueKind,
    ty: &Ty,
    i: usize,
    to: &mut Vec<PlacedField>,
) -> Result<(), AllocError>
    ensures { OnOk result (to.new.items ≡ to.old.items ++ slice_index_or (bodies kind ty.now) i []) }
{
    match (kind, ty) {
        (ValueKind::Struct, Ty::User(UserType::Struct(struct_type))) if i == 0 => {
            push_placed(struct_type.fields.as_slice(), to)
        }
        (ValueKind::Enum, Ty::User(UserType::Enum(enum_type))) => {
            push_variant(enum_type.variants.as_slice(), i, to)
        }
        _ => Ok(()),
    }
}

// Adds the fields of the variant at an index, if there is one.
fn push_variant(variants: &[Variant], i: usize, to: &mut Vec<PlacedField>) -> Result<(), AllocError>
    ensures { OnOk result (to.new.items ≡ to.old.items ++ slice_index_or (map (λ v. placed v.body) variants.now) i []) }
{
    match variants.get(i) {
        Some(variant) => push_placed(variant.body.fields.as_slice(), to),
        None => Ok(()),
    }
}

/// Adds the bytes of a tag and those of fields that lie side by side.
pub fn push_spans<S: LayoutLookup>(
    layouts: &S,
    tag_bytes: usize,
    body: &[PlacedField],
    to: &mut Vec<Span>,
) -> Result<(), AllocError>
    ensures { OnOk result (to.new.items ≡ to.old.items ++ spans_of (S.layout_at layouts.now) tag_bytes body.now) }
{
    to.push(Span {
        offset: 0,
        size: tag_bytes,
    })?;
    push_field_spans(layouts, body, to)
}

// Adds the bytes of fields.
fn push_field_spans<S: LayoutLookup>(
    layouts: &S,
    fields: &[PlacedField],
    to: &mut Vec<Span>,
) -> Result<(), AllocError>
    ensures { OnOk result (to.new.items ≡ to.old.items ++ map (span_of (S.layout_at layouts.now)) fields.now) }
{
    for field in fields {
        let part = part_layout(layouts.layout_of(field.shape));
        to.push(Span {
            offset: field.offset,
            size: part.size,
        })?;
    }
    Ok(())
}

/// Whether a field or the tag of the values of a kind ends behind the size. The buffer is written over.
pub fn has_field_outside<S: LayoutLookup>(
    layouts: &S,
    kind: ValueKind,
    ty: &Ty,
    size: usize,
    buffer: &mut Vec<PlacedField>,
) -> Result<bool, AllocError>
    ensures { IfOk result (λ found. found ≡ has_field_outside (S.layout_at layouts.now) kind ty.now size) }
{
    buffer.clear();
    push_placed_fields(kind, ty, buffer)?;
    Ok(one_ends_behind(layouts, size, buffer) || tag_bytes(kind, ty) > size)
}

// Whether one of the fields ends behind so many bytes.
fn one_ends_behind<S: LayoutLookup>(layouts: &S, size: usize, fields: &[PlacedField]) -> bool
    ensures { result ≡ list_any (ends_behind (S.layout_at layouts.now) size) fields.now }
{
    for field in fields {
        let part = part_layout(layouts.layout_of(field.shape));
        if field.offset as u128 + part.size as u128 > size as u128 {
            return true;
        }
    }
    false
}

/// Whether the offset of a field of the values of a kind is no multiple of its alignment, and they aren't packed. The
/// buffer is written over.
pub fn has_field_misaligned<S: LayoutLookup>(
    layouts: &S,
    kind: ValueKind,
    ty: &Ty,
    buffer: &mut Vec<PlacedField>,
) -> Result<bool, AllocError>
    ensures { IfOk result (λ found. found ≡ has_field_misaligned (S.layout_at layouts.now) kind ty.now) }
{
    buffer.clear();
    push_placed_fields(kind, ty, buffer)?;
    Ok(!is_packed_struct(kind, ty) && one_is_misaligned(layouts, buffer))
}

// Whether the offset of one of the fields is no multiple of its alignment.
fn one_is_misaligned<S: LayoutLookup>(layouts: &S, fields: &[PlacedField]) -> bool
    ensures { result ≡ list_any (is_misaligned (S.layout_at layouts.now)) fields.now }
{
    for field in fields {
        let part = part_layout(layouts.layout_of(field.shape));
        if field.offset % part.align != 0 {
            return true;
        }
    }
    false
}

/// Whether it is a packed struct.
pub fn is_packed_struct(kind: ValueKind, ty: &Ty) -> bool
    ensures { result ≡ is_packed_struct kind ty.now }
{
    match (kind, ty) {
        (ValueKind::Struct, Ty::User(UserType::Struct(struct_type))) => struct_type.repr.packed,
        _ => false,
    }
}
