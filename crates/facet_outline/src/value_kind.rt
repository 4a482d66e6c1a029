ghost use Rattle.std.specs.Prelude.{◌≡◌, Some};
ghost use Rattle.facet_outline.specs.ValueKind.{kind_by_def, kind_by_type, kind_of, kind_of_pointer, pointee_of, slice_element};

use facet_base::{KnownPointer, ScalarType, ShapeId};
use facet_def::Def;
use facet_desc::{Ty, UserType};
use facet_shape::Shape;

/// What the values of a shape are. A shape of kind `NoValue` has none.
#[derive(Clone, Copy, PartialEq, Eq, Debug)]
pub enum ValueKind {
    Unit,
    Leaf(ScalarType),
    Struct,
    Enum,
    Option,
    Result,
    List,
    BoxedSlice,
    Map,
    Set,
    Array,
    Box,
    NoValue,
}

/// The shape that a definition points to, if it points to one.
pub fn pointee_of(def: &Def) -> Option<ShapeId>
    ensures { result ≡ pointee_of def.now }
{
    match def {
        Def::Pointer(pointer) => pointer.pointee,
        _ => None,
    }
}

/// The shape of the elements of a slice, if the definition is one.
pub fn slice_element(def: &Def) -> Option<ShapeId>
    ensures { result ≡ slice_element def.now }
{
    match def {
        Def::Slice(slice) => Some(slice.t),
        _ => None,
    }
}

/// What the values of a shape are. Where it points to a slice, `element` is the shape of that slice's elements, and
/// else it is None.
pub fn kind_of(shape: &Shape, element: Option<ShapeId>) -> ValueKind
    ensures { result ≡ kind_of element shape.now }
{
    match shape.scalar {
        Some(ScalarType::Unit) => ValueKind::Unit,
        Some(ScalarType::Str) | None => kind_of_def(shape, element),
        Some(kind) => ValueKind::Leaf(kind),
    }
}

// The same by the definition, where there is no scalar.
fn kind_of_def(shape: &Shape, element: Option<ShapeId>) -> ValueKind
    ensures { result ≡ kind_by_def element shape.now.def shape.now.ty }
{
    match &shape.def {
        Def::Option(_) => ValueKind::Option,
        Def::Result(_) => ValueKind::Result,
        Def::List(_) => ValueKind::List,
        Def::Map(_) => ValueKind::Map,
        Def::Set(_) => ValueKind::Set,
        Def::Array(_) => ValueKind::Array,
        Def::Pointer(pointer) => kind_of_known(pointer.known, element),
        Def::Undefined => kind_of_type(&shape.ty),
        Def::Scalar | Def::NdArray(_) | Def::Slice(_) | Def::DynamicValue(_) => ValueKind::NoValue,
    }
}

// The same of a pointer, of which a box alone has values.
fn kind_of_known(known: Option<KnownPointer>, element: Option<ShapeId>) -> ValueKind
    ensures { result ≡ kind_of_pointer element known }
{
    if known != Some(KnownPointer::Box) {
        return ValueKind::NoValue;
    }
    match element {
        Some(_) => ValueKind::BoxedSlice,
        None => ValueKind::Box,
    }
}

// The same by the type, where there is no definition.
fn kind_of_type(ty: &Ty) -> ValueKind
    ensures { result ≡ kind_by_type ty.now }
{
    match ty {
        Ty::User(UserType::Struct(_)) => ValueKind::Struct,
        Ty::User(UserType::Enum(_)) => ValueKind::Enum,
        _ => ValueKind::NoValue,
    }
}
