ghost use Rattle.std.specs.Prelude.{◌≡◌, ◌==◌, ◌&&◌, ◌||◌, ℕ, Some, codes, bytes_eq};
ghost use Rattle.facet_caps.specs.VTableErased.{capabilities_of};
ghost use Rattle.facet_outline.specs.Mismatch.{
  are_option_variants,
  has_no_field,
  has_no_type,
  has_order_alone,
  has_other_parameters,
  is_box_without_content,
  is_defined_user_type,
  is_mismatched,
  is_only_field,
  is_option_type,
  is_other_option,
  is_other_scalar,
  is_other_sequence,
  is_packed_wrongly,
  is_parameter,
  is_sequence_of,
  is_struct_or_enum,
  lacks_content,
};

use crate::layout::{option_offset, part_layout};
use crate::lookup::LayoutLookup;
use facet_base::{KnownPointer, ScalarType, ShapeId};
use facet_caps::VTableErased;
use facet_def::Def;
use facet_desc::{BaseRepr, Field, SequenceType, Ty, TypeParam, UserType, Variant};
use facet_shape::Shape;

/// Whether the definition, the type, the parameters and the record of a shape don't fit together.
#[tactic(auto, unfolding(crate::specs::Mismatch::is_mismatched))]
pub fn is_mismatched<S: LayoutLookup>(layouts: &S, shape: &Shape) -> bool
    ensures { result ≡ is_mismatched (S.layout_at layouts.now) shape.now }
{
    let params = shape.type_params.as_slice();
    has_no_type(&shape.ty)
        || is_other_sequence(&shape.def, &shape.ty)
        || is_defined_user_type(&shape.def, &shape.ty)
        || is_other_option(layouts, &shape.def, &shape.ty)
        || has_other_parameters(&shape.def, params)
        || is_box_without_content(&shape.def, params)
        || is_other_scalar(shape.scalar, &shape.def)
        || is_packed_wrongly(&shape.ty)
        || has_order_alone(&shape.vtable)
}

// Whether the type is undefined.
fn has_no_type(ty: &Ty) -> bool
    ensures { result ≡ has_no_type ty.now }
{
    matches!(ty, Ty::Undefined)
}

// Whether the definition is an array or a slice, and the type a sequence of another element or length.
fn is_other_sequence(def: &Def, ty: &Ty) -> bool
    ensures { result ≡ is_other_sequence def.now ty.now }
{
    match (def, ty) {
        (Def::Array(array), Ty::Sequence(sequence)) => {
            !is_sequence_of(array.t, Some(array.n), sequence)
        }
        (Def::Slice(slice), Ty::Sequence(sequence)) => !is_sequence_of(slice.t, None, sequence),
        _ => false,
    }
}

// Whether a sequence type is that of so many of these elements, or of any number where none is given.
fn is_sequence_of(t: ShapeId, n: Option<usize>, sequence: &SequenceType) -> bool
    ensures { result ≡ is_sequence_of t n sequence.now }
{
    match (n, sequence) {
        (Some(n), SequenceType::Array(array)) => array.t == t && array.n == n,
        (None, SequenceType::Slice(slice)) => slice.t == t,
        _ => false,
    }
}

// Whether it is a struct or an enum, and has a definition other than Option.
fn is_defined_user_type(def: &Def, ty: &Ty) -> bool
    ensures { result ≡ is_defined_user_type def.now ty.now }
{
    match def {
        Def::Undefined | Def::Option(_) => false,
        _ => is_struct_or_enum(ty),
    }
}

// Whether the type is a struct or an enum.
fn is_struct_or_enum(ty: &Ty) -> bool
    ensures { result ≡ is_struct_or_enum ty.now }
{
    matches!(ty, Ty::User(UserType::Struct(_) | UserType::Enum(_)))
}

// Whether the definition is an option, and the type not one that it has.
fn is_other_option<S: LayoutLookup>(layouts: &S, def: &Def, ty: &Ty) -> bool
    ensures { result ≡ is_other_option (S.layout_at layouts.now) def.now ty.now }
{
    match def {
        Def::Option(option) => {
            let offset = option_offset(part_layout(layouts.layout_of(option.t)));
            !is_option_type(option.t, offset, ty)
        }
        _ => false,
    }
}

// Whether the type is one that an option of `t` has, whose part lies at that offset.
fn is_option_type(t: ShapeId, offset: usize, ty: &Ty) -> bool
    ensures { result ≡ is_option_type t offset ty.now }
{
    match ty {
        Ty::User(UserType::Opaque) => true,
        Ty::User(UserType::Enum(enum_type)) => {
            are_option_variants(t, offset, enum_type.variants.as_slice())
        }
        _ => false,
    }
}

// Whether the variants are None without fields and Some with that one field.
fn are_option_variants(t: ShapeId, offset: usize, variants: &[Variant]) -> bool
    ensures { result ≡ are_option_variants t offset variants.now }
{
    match variants {
        [none, some] => {
            none.name.as_str() == "None"
                && has_no_field(none.body.fields.as_slice())
                && some.name.as_str() == "Some"
                && is_only_field(t, offset, some.body.fields.as_slice())
        }
        _ => false,
    }
}

// Whether there is no field.
fn has_no_field(fields: &[Field]) -> bool
    ensures { result ≡ has_no_field fields.now }
{
    matches!(fields, [])
}

// Whether there is one field, of the shape `t` at that offset.
fn is_only_field(t: ShapeId, offset: usize, fields: &[Field]) -> bool
    ensures { result ≡ is_only_field t offset fields.now }
{
    match fields {
        [field] => field.shape == t && field.offset == offset,
        _ => false,
    }
}

// Whether the first parameters of a container aren't its parts.
fn has_other_parameters(def: &Def, params: &[TypeParam]) -> bool
    ensures { result ≡ has_other_parameters def.now params.now }
{
    match def {
        Def::List(list) => !is_parameter(params, 0, list.t),
        Def::Set(set) => !is_parameter(params, 0, set.t),
        Def::Option(option) => !is_parameter(params, 0, option.t),
        Def::Array(array) => !is_parameter(params, 0, array.t),
        Def::Map(map) => !(is_parameter(params, 0, map.k) && is_parameter(params, 1, map.v)),
        Def::Result(result) => {
            !(is_parameter(params, 0, result.t) && is_parameter(params, 1, result.e))
        }
        _ => false,
    }
}

// Whether the parameter at index `i` is that shape.
fn is_parameter(params: &[TypeParam], i: usize, id: ShapeId) -> bool
    ensures { result ≡ is_parameter params.now i id }
{
    params.get(i).is_some_and(|parameter| parameter.shape == id)
}

// Whether it is a box without a content, or whose first parameter isn't its content.
fn is_box_without_content(def: &Def, params: &[TypeParam]) -> bool
    ensures { result ≡ is_box_without_content def.now params.now }
{
    match def {
        Def::Pointer(pointer) if pointer.known == Some(KnownPointer::Box) => {
            lacks_content(pointer.pointee, params)
        }
        _ => false,
    }
}

// Whether there is no content, or the first parameter isn't it.
fn lacks_content(content: Option<ShapeId>, params: &[TypeParam]) -> bool
    ensures { result ≡ lacks_content content params.now }
{
    match content {
        Some(id) => !is_parameter(params, 0, id),
        None => true,
    }
}

// Whether there is a scalar, and the definition isn't Scalar.
fn is_other_scalar(scalar: Option<ScalarType>, def: &Def) -> bool
    ensures { result ≡ is_other_scalar scalar def.now }
{
    match def {
        Def::Scalar => false,
        _ => scalar.is_some(),
    }
}

// Whether it is a packed enum, or a packed struct that lies in memory as its one field does.
fn is_packed_wrongly(ty: &Ty) -> bool
    ensures { result ≡ is_packed_wrongly ty.now }
{
    match ty {
        Ty::User(UserType::Struct(struct_type)) => {
            struct_type.repr.packed && struct_type.repr.base == BaseRepr::Transparent
        }
        Ty::User(UserType::Enum(enum_type)) => enum_type.repr.packed,
        _ => false,
    }
}

// Whether there is an order without equality, or a total order without a partial one.
fn has_order_alone(vtable: &VTableErased) -> bool
    ensures { result ≡ has_order_alone (capabilities_of vtable.now) }
{
    (vtable.has_partial_ord() || vtable.has_ord()) && !vtable.has_partial_eq()
        || vtable.has_ord() && !vtable.has_partial_ord()
}
