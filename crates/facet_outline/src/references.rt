ghost use Rattle.std.specs.Prelude.{◌≡◌, [], ◌∷◌, ◌++◌, OnOk};
ghost use Rattle.std.specs.List.{flat_map};
ghost use Rattle.facet_outline.specs.References.{
  eager_references,
  fields_of_other,
  fields_of_tuple,
  height_references,
  other_references,
  part_references,
  parts_of_def,
  parts_of_type,
  proxies_of,
  references,
  shapes_in,
  strong_of_def,
  weak_of_def,
};

use crate::fields::{push_enum_fields, push_struct_fields};
use crate::refers::{push_each, push_option};
use facet_base::ShapeId;
use facet_def::Def;
use facet_desc::{Attr, AttrData, PointerType, SequenceType, StructKind, Ty, UserType};
use facet_shape::Shape;
use std::alloc::AllocError;

/// Adds the shapes that a shape refers to.
#[tactic(auto, unfolding(crate::specs::References::references))]
pub fn push_references(shape: &Shape, to: &mut Vec<ShapeId>) -> Result<(), AllocError>
    ensures { OnOk result (to.new.items ≡ to.old.items ++ references shape.now) }
{
    push_eager_references(shape, to)?;
    push_other_references(shape, to)
}

/// Adds the shapes that must stand before a shape.
#[tactic(auto, unfolding(crate::specs::References::eager_references))]
pub fn push_eager_references(shape: &Shape, to: &mut Vec<ShapeId>) -> Result<(), AllocError>
    ensures { OnOk result (to.new.items ≡ to.old.items ++ eager_references shape.now) }
{
    push_height_references(shape, to)?;
    push_each(shape.variance.deps.as_slice(), to)
}

/// Adds the shapes that must stand before a shape for another reason than its variance.
#[tactic(auto, unfolding(crate::specs::References::height_references))]
pub fn push_height_references(shape: &Shape, to: &mut Vec<ShapeId>) -> Result<(), AllocError>
    ensures { OnOk result (to.new.items ≡ to.old.items ++ height_references shape.now) }
{
    push_each(shape.type_params.as_slice(), to)?;
    push_part_references(shape, to)?;
    push_option(shape.inner, to)?;
    push_option(shape.builder_shape, to)?;
    push_proxies(shape, to)
}

// Adds what the definition and the type refer to, and that must stand before the shape.
#[tactic(auto, unfolding(crate::specs::References::part_references))]
fn push_part_references(shape: &Shape, to: &mut Vec<ShapeId>) -> Result<(), AllocError>
    ensures { OnOk result (to.new.items ≡ to.old.items ++ part_references shape.now) }
{
    push_parts_of_def(&shape.def, to)?;
    push_strong(&shape.def, to)?;
    push_parts_of_type(&shape.ty, to)?;
    push_tuple_fields(&shape.ty, to)
}

// Adds the references that may stand anywhere.
#[tactic(auto, unfolding(crate::specs::References::other_references))]
fn push_other_references(shape: &Shape, to: &mut Vec<ShapeId>) -> Result<(), AllocError>
    ensures { OnOk result (to.new.items ≡ to.old.items ++ other_references shape.now) }
{
    push_other_fields(&shape.ty, to)?;
    push_weak(&shape.def, to)?;
    push_held(shape.attributes.as_slice(), to)
}

/// Adds the parts of a definition.
pub fn push_parts_of_def(def: &Def, to: &mut Vec<ShapeId>) -> Result<(), AllocError>
    ensures { OnOk result (to.new.items ≡ to.old.items ++ parts_of_def def.now) }
{
    match def {
        Def::Map(map) => push_two(map.k, map.v, to),
        Def::Set(set) => push_one(set.t, to),
        Def::List(list) => push_one(list.t, to),
        Def::Array(array) => push_one(array.t, to),
        Def::NdArray(array) => push_one(array.t, to),
        Def::Slice(slice) => push_one(slice.t, to),
        Def::Option(option) => push_one(option.t, to),
        Def::Result(result) => push_two(result.t, result.e, to),
        Def::Pointer(pointer) => push_option(pointer.pointee, to),
        Def::Undefined | Def::Scalar | Def::DynamicValue(_) => Ok(()),
    }
}

// Adds one shape.
fn push_one(id: ShapeId, to: &mut Vec<ShapeId>) -> Result<(), AllocError>
    ensures { OnOk result (to.new.items ≡ to.old.items ++ id ∷ []) }
{
    to.push(id)?;
    Ok(())
}

// Adds two shapes.
fn push_two(first: ShapeId, second: ShapeId, to: &mut Vec<ShapeId>) -> Result<(), AllocError>
    ensures { OnOk result (to.new.items ≡ to.old.items ++ first ∷ second ∷ []) }
{
    push_one(first, to)?;
    push_one(second, to)
}

// Adds the strong pointer that belongs to a weak one.
fn push_strong(def: &Def, to: &mut Vec<ShapeId>) -> Result<(), AllocError>
    ensures { OnOk result (to.new.items ≡ to.old.items ++ strong_of_def def.now) }
{
    match def {
        Def::Pointer(pointer) => push_option(pointer.strong, to),
        _ => Ok(()),
    }
}

// Adds the weak pointer that belongs to a strong one.
fn push_weak(def: &Def, to: &mut Vec<ShapeId>) -> Result<(), AllocError>
    ensures { OnOk result (to.new.items ≡ to.old.items ++ weak_of_def def.now) }
{
    match def {
        Def::Pointer(pointer) => push_option(pointer.weak, to),
        _ => Ok(()),
    }
}

// Adds the parts of a sequence, a pointer or a function type.
fn push_parts_of_type(ty: &Ty, to: &mut Vec<ShapeId>) -> Result<(), AllocError>
    ensures { OnOk result (to.new.items ≡ to.old.items ++ parts_of_type ty.now) }
{
    match ty {
        Ty::Sequence(SequenceType::Array(array)) => push_one(array.t, to),
        Ty::Sequence(SequenceType::Slice(slice)) => push_one(slice.t, to),
        Ty::Pointer(PointerType::Reference(pointer)) => push_one(pointer.target, to),
        Ty::Pointer(PointerType::Raw(pointer)) => push_one(pointer.target, to),
        Ty::Pointer(PointerType::Function(function)) => {
            to.extend_from_slice(function.parameters.as_slice())?;
            push_one(function.return_type, to)
        }
        Ty::Undefined | Ty::Primitive(_) | Ty::User(_) => Ok(()),
    }
}

/// Adds the fields of a tuple.
pub fn push_tuple_fields(ty: &Ty, to: &mut Vec<ShapeId>) -> Result<(), AllocError>
    ensures { OnOk result (to.new.items ≡ to.old.items ++ fields_of_tuple ty.now) }
{
    match ty {
        Ty::User(UserType::Struct(tuple)) if tuple.kind == StructKind::Tuple => {
            push_struct_fields(tuple, to)
        }
        _ => Ok(()),
    }
}

// Adds the fields of an enum, or of a struct that is no tuple.
fn push_other_fields(ty: &Ty, to: &mut Vec<ShapeId>) -> Result<(), AllocError>
    ensures { OnOk result (to.new.items ≡ to.old.items ++ fields_of_other ty.now) }
{
    match ty {
        Ty::User(UserType::Struct(tuple)) if tuple.kind == StructKind::Tuple => Ok(()),
        Ty::User(UserType::Struct(struct_type)) => push_struct_fields(struct_type, to),
        Ty::User(UserType::Enum(enum_type)) => push_enum_fields(enum_type, to),
        _ => Ok(()),
    }
}

// Adds the shapes of a shape's own proxies.
fn push_proxies(shape: &Shape, to: &mut Vec<ShapeId>) -> Result<(), AllocError>
    ensures { OnOk result (to.new.items ≡ to.old.items ++ proxies_of shape.now) }
{
    if let Some(proxy) = shape.proxy {
        to.push(proxy.shape)?;
    }
    push_each(shape.format_proxies.as_slice(), to)
}

// Adds the shapes that attributes hold.
fn push_held(attributes: &[Attr], to: &mut Vec<ShapeId>) -> Result<(), AllocError>
    ensures { OnOk result (to.new.items ≡ to.old.items ++ flat_map (λ a. shapes_in a.payload) attributes.now) }
{
    for attribute in attributes {
        push_payload(&attribute.payload, to)?;
    }
    Ok(())
}

// Adds the shape that an attribute holds, if it holds one.
fn push_payload(payload: &AttrData, to: &mut Vec<ShapeId>) -> Result<(), AllocError>
    ensures { OnOk result (to.new.items ≡ to.old.items ++ shapes_in payload.now) }
{
    match payload {
        AttrData::Shape(id) => push_one(*id, to),
        _ => Ok(()),
    }
}
