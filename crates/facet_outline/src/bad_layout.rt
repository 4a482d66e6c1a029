ghost use Rattle.std.specs.Prelude.{◌≡◌, IfOk};
ghost use Rattle.std.specs.List.{list_any};
ghost use Rattle.facet_outline.specs.BadLayout.{
  aligns_fields,
  has_bad_layout,
  has_bytes,
  has_unsized_part,
  is_aligned_below_parts,
  is_below,
  is_leaf_without_bytes,
  is_no_layout_of_kind,
  is_too_large,
  is_no_scalar_layout,
  is_uneven,
  is_unsized,
  layout_of_kind,
  layout_of_parts,
  same_layout,
};

use crate::layout::{array_layout, option_layout, part_layout, result_layout, scalar_layout};
use crate::lookup::LayoutLookup;
use crate::parts::{push_inline_parts, push_parts};
use crate::placed_fields::{is_packed_struct, tag_bytes};
use crate::value_kind::{ValueKind, kind_of};
use facet_base::{Layout, ScalarType, ShapeId, ShapeLayout};
use facet_def::Def;
use facet_desc::Ty;
use facet_shape::Shape;
use std::alloc::AllocError;

/// Whether the values of a shape, or those of one of its parts, share no layout. Where it points to a slice,
/// `element` is the shape of that slice's elements, and else it is None. The buffer is written over.
#[tactic(auto, unfolding(crate::specs::BadLayout::has_unsized_part))]
pub fn has_unsized_part<S: LayoutLookup>(
    layouts: &S,
    element: Option<ShapeId>,
    shape: &Shape,
    buffer: &mut Vec<ShapeId>,
) -> Result<bool, AllocError>
    ensures { IfOk result (λ found. found ≡ has_unsized_part (S.layout_at layouts.now) element shape.now) }
{
    buffer.clear();
    push_parts(shape, element, buffer)?;
    let has_values = kind_of(shape, element) != ValueKind::NoValue;
    Ok(has_values && is_unsized(shape.layout) || one_is_unsized(layouts, buffer))
}

// Whether values share no layout.
fn is_unsized(layout: ShapeLayout) -> bool
    ensures { result ≡ is_unsized layout }
{
    matches!(layout, ShapeLayout::Unsized)
}

// Whether the values of one of the shapes share no layout.
fn one_is_unsized<S: LayoutLookup>(layouts: &S, ids: &[ShapeId]) -> bool
    ensures { result ≡ list_any (λ id. is_unsized (S.layout_at layouts.now id)) ids.now }
{
    for id in ids {
        if is_unsized(layouts.layout_of(*id)) {
            return true;
        }
    }
    false
}

/// Whether the layout of a shape is none that its values can have. Where it points to a slice, `element` is the shape
/// of that slice's elements, and else it is None. The buffer is written over.
#[tactic(auto, unfolding(crate::specs::BadLayout::has_bad_layout))]
pub fn has_bad_layout<S: LayoutLookup>(
    layouts: &S,
    element: Option<ShapeId>,
    shape: &Shape,
    buffer: &mut Vec<ShapeId>,
) -> Result<bool, AllocError>
    ensures { IfOk result (λ bad. bad ≡ has_bad_layout (S.layout_at layouts.now) element shape.now) }
{
    let kind = kind_of(shape, element);
    let below = is_aligned_below_parts(layouts, element, shape, buffer)?;
    Ok(
        is_uneven(shape.layout)
            || is_no_scalar_layout(kind, shape.layout)
            || is_no_layout_of_kind(layouts, kind, &shape.def, shape.layout)
            || below,
    )
}

// Whether the alignment is no power of two, or the size no multiple of it.
fn is_uneven(layout: ShapeLayout) -> bool
    ensures { result ≡ is_uneven layout }
{
    match layout {
        ShapeLayout::Sized(layout) => {
            layout.align == 0 || !layout.align.is_power_of_two() || layout.size % layout.align != 0
        }
        ShapeLayout::Unsized => false,
    }
}

// Whether the unit or a leaf takes bytes, and has another layout than its scalar.
fn is_no_scalar_layout(kind: ValueKind, layout: ShapeLayout) -> bool
    ensures { result ≡ is_no_scalar_layout kind layout }
{
    match kind {
        ValueKind::Unit => {
            has_bytes(layout) && !same_layout(layout, scalar_layout(ScalarType::Unit))
        }
        ValueKind::Leaf(kind) => has_bytes(layout) && !same_layout(layout, scalar_layout(kind)),
        _ => false,
    }
}

/// Whether a value takes more than 65,536 bytes.
pub fn is_too_large(layout: ShapeLayout) -> bool
    ensures { result ≡ is_too_large layout }
{
    match layout {
        ShapeLayout::Sized(layout) => layout.size > 65_536,
        ShapeLayout::Unsized => false,
    }
}

/// Whether a leaf takes no byte.
pub fn is_leaf_without_bytes(kind: ValueKind, layout: ShapeLayout) -> bool
    ensures { result ≡ is_leaf_without_bytes kind layout }
{
    match kind {
        ValueKind::Leaf(_) => !has_bytes(layout),
        _ => false,
    }
}

// Whether values take a byte or more.
fn has_bytes(layout: ShapeLayout) -> bool
    ensures { result ≡ has_bytes layout }
{
    match layout {
        ShapeLayout::Sized(layout) => layout.size > 0,
        ShapeLayout::Unsized => false,
    }
}

// Whether two sizes and two alignments are the same.
fn same_layout(one: ShapeLayout, other: ShapeLayout) -> bool
    ensures { result ≡ same_layout one other }
{
    match (one, other) {
        (ShapeLayout::Sized(one), ShapeLayout::Sized(other)) => {
            one.size == other.size && one.align == other.align
        }
        (ShapeLayout::Unsized, ShapeLayout::Unsized) => true,
        _ => false,
    }
}

// Whether the kind and the definition say which layout values have, and it is another one.
fn is_no_layout_of_kind<S: LayoutLookup>(
    layouts: &S,
    kind: ValueKind,
    def: &Def,
    layout: ShapeLayout,
) -> bool
    ensures { result ≡ is_no_layout_of_kind (S.layout_at layouts.now) kind def.now layout }
{
    match layout_of_kind(layouts, kind, def) {
        Some(expected) => !same_layout(layout, ShapeLayout::Sized(expected)),
        None => false,
    }
}

/// The layout that values of a kind have, where the kind and the definition say which.
pub fn layout_of_kind<S: LayoutLookup>(layouts: &S, kind: ValueKind, def: &Def) -> Option<Layout>
    ensures { result ≡ layout_of_kind (S.layout_at layouts.now) kind def.now }
{
    match kind {
        ValueKind::Option | ValueKind::Result | ValueKind::Array => layout_of_parts(layouts, def),
        ValueKind::List | ValueKind::Map | ValueKind::Set => Some(Layout { size: 24, align: 8 }),
        ValueKind::Box => Some(Layout { size: 8, align: 8 }),
        ValueKind::BoxedSlice => Some(Layout { size: 16, align: 8 }),
        ValueKind::Unit
        | ValueKind::Leaf(_)
        | ValueKind::Struct
        | ValueKind::Enum
        | ValueKind::NoValue => None,
    }
}

// The layout of an option, a result or an array, which follows from those of the parts.
fn layout_of_parts<S: LayoutLookup>(layouts: &S, def: &Def) -> Option<Layout>
    ensures { result ≡ layout_of_parts (S.layout_at layouts.now) def.now }
{
    match def {
        Def::Option(option) => Some(option_layout(part_layout(layouts.layout_of(option.t)))),
        Def::Result(result) => {
            let part = part_layout(layouts.layout_of(result.t));
            let error = part_layout(layouts.layout_of(result.e));
            Some(result_layout(part, error))
        }
        Def::Array(array) => {
            let element = part_layout(layouts.layout_of(array.t));
            Some(array_layout(array.n, element))
        }
        _ => None,
    }
}

// Whether a struct or an enum has an alignment below that of an inline part, or below the size of the tag.
fn is_aligned_below_parts<S: LayoutLookup>(
    layouts: &S,
    element: Option<ShapeId>,
    shape: &Shape,
    buffer: &mut Vec<ShapeId>,
) -> Result<bool, AllocError>
    ensures { IfOk result (λ below. below ≡ is_aligned_below_parts (S.layout_at layouts.now) element shape.now) }
{
    buffer.clear();
    push_inline_parts(shape, element, buffer)?;
    let kind = kind_of(shape, element);
    let align = part_layout(shape.layout).align;
    Ok(
        aligns_fields(kind, &shape.ty) && is_below_one(layouts, align, buffer)
            || align < tag_bytes(kind, &shape.ty),
    )
}

// Whether the alignment of fields counts: they are those of an enum, or of a struct that isn't packed.
fn aligns_fields(kind: ValueKind, ty: &Ty) -> bool
    ensures { result ≡ aligns_fields kind ty.now }
{
    match kind {
        ValueKind::Struct => !is_packed_struct(kind, ty),
        ValueKind::Enum => true,
        _ => false,
    }
}

// Whether an alignment is below that of one of the shapes.
fn is_below_one<S: LayoutLookup>(layouts: &S, align: usize, ids: &[ShapeId]) -> bool
    ensures { result ≡ list_any (is_below (S.layout_at layouts.now) align) ids.now }
{
    for id in ids {
        if align < part_layout(layouts.layout_of(*id)).align {
            return true;
        }
    }
    false
}
