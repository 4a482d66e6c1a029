ghost use Rattle.std.specs.Prelude.{◌≡◌, ◌++◌, OnOk};
ghost use Rattle.facet_outline.specs.Part.{fields_of_type, inline_parts, inline_parts_of_kind, key_of_kind, parts, parts_of_kind, repetition};

use crate::fields::{push_enum_fields, push_struct_fields};
use crate::references::push_parts_of_def;
use crate::refers::push_option;
use crate::value_kind::{ValueKind, kind_of};
use facet_base::ShapeId;
use facet_def::Def;
use facet_desc::{Ty, UserType};
use facet_shape::Shape;
use std::alloc::AllocError;

/// Adds the parts that lie inside the values of a shape. Where it points to a slice, `element` is the shape of that
/// slice's elements, and else it is None.
#[tactic(auto, unfolding(crate::specs::Part::inline_parts))]
pub fn push_inline_parts(
    shape: &Shape,
    element: Option<ShapeId>,
    to: &mut Vec<ShapeId>,
) -> Result<(), AllocError>
    ensures { OnOk result (to.new.items ≡ to.old.items ++ inline_parts element shape.now) }
{
    push_inline_parts_of_kind(kind_of(shape, element), &shape.def, &shape.ty, to)
}

/// Adds the parts of the values of a shape. Where it points to a slice, `element` is the shape of that slice's
/// elements, and else it is None.
#[tactic(auto, unfolding(crate::specs::Part::parts))]
pub fn push_parts(
    shape: &Shape,
    element: Option<ShapeId>,
    to: &mut Vec<ShapeId>,
) -> Result<(), AllocError>
    ensures { OnOk result (to.new.items ≡ to.old.items ++ parts element shape.now) }
{
    push_parts_of_kind(kind_of(shape, element), element, &shape.def, &shape.ty, to)
}

/// How often a value has each of its inline parts: an array has its element so many times, and all else once.
pub fn repetition(def: &Def) -> usize
    ensures { result ≡ repetition def.now }
{
    match def {
        Def::Array(array) => array.n,
        _ => 1,
    }
}

/// The key of a map, or the item of a set: what the values of the kind are ordered by.
pub fn key_of_kind(kind: ValueKind, def: &Def) -> Option<ShapeId>
    ensures { result ≡ key_of_kind kind def.now }
{
    match (kind, def) {
        (ValueKind::Map, Def::Map(map)) => Some(map.k),
        (ValueKind::Set, Def::Set(set)) => Some(set.t),
        _ => None,
    }
}

// Adds the parts that lie inside the values of a kind.
fn push_inline_parts_of_kind(
    kind: ValueKind,
    def: &Def,
    ty: &Ty,
    to: &mut Vec<ShapeId>,
) -> Result<(), AllocError>
    ensures { OnOk result (to.new.items ≡ to.old.items ++ inline_parts_of_kind kind def.now ty.now) }
{
    match kind {
        ValueKind::Struct | ValueKind::Enum => push_fields(ty, to),
        ValueKind::Option | ValueKind::Result | ValueKind::Array => push_parts_of_def(def, to),
        _ => Ok(()),
    }
}

// Adds the parts of the values of a kind.
fn push_parts_of_kind(
    kind: ValueKind,
    element: Option<ShapeId>,
    def: &Def,
    ty: &Ty,
    to: &mut Vec<ShapeId>,
) -> Result<(), AllocError>
    ensures { OnOk result (to.new.items ≡ to.old.items ++ parts_of_kind kind element def.now ty.now) }
{
    match kind {
        ValueKind::List | ValueKind::Map | ValueKind::Set | ValueKind::Box => {
            push_parts_of_def(def, to)
        }
        ValueKind::BoxedSlice => push_option(element, to),
        _ => push_inline_parts_of_kind(kind, def, ty, to),
    }
}

// Adds the fields of a struct, or of all variants of an enum.
fn push_fields(ty: &Ty, to: &mut Vec<ShapeId>) -> Result<(), AllocError>
    ensures { OnOk result (to.new.items ≡ to.old.items ++ fields_of_type ty.now) }
{
    match ty {
        Ty::User(UserType::Struct(struct_type)) => push_struct_fields(struct_type, to),
        Ty::User(UserType::Enum(enum_type)) => push_enum_fields(enum_type, to),
        _ => Ok(()),
    }
}
