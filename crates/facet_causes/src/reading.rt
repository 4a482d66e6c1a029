ghost use Rattle.std.specs.Prelude.{◌≡◌, slice_get};
ghost use Rattle.std.specs.Option.{option_and_then};
ghost use Rattle.facet_causes.specs.Reading.{element_of, has_order, kind_in};
ghost use Rattle.facet_outline.specs.ValueKind.{slice_element};

use crate::shape_list::ShapeList;
use facet_base::{Characteristic, ShapeId};
use facet_def::Def;
use facet_outline::{ValueKind, kind_of, pointee_of, slice_element};
use facet_shape::Shape;

/// The elements of the slice that a definition points to, if it points to one.
pub fn element_of(shapes: &ShapeList, def: &Def) -> Option<ShapeId>
    ensures { result ≡ element_of shapes.now def.now }
{
    match pointee_of(def) {
        Some(id) => element_of_slice(shapes, id),
        None => None,
    }
}

// The elements of the shape under an id, if it is a slice.
fn element_of_slice(shapes: &ShapeList, id: ShapeId) -> Option<ShapeId>
    ensures { result ≡ option_and_then (λ shape. slice_element shape.def) (slice_get shapes.now id.0) }
{
    match shapes.get(id.0 as usize) {
        Some(shape) => slice_element(&shape.def),
        None => None,
    }
}

/// What the values of a shape are.
pub fn kind_in(shapes: &ShapeList, shape: &Shape) -> ValueKind
    ensures { result ≡ kind_in shapes.now shape.now }
{
    kind_of(shape, element_of(shapes, &shape.def))
}

/// Whether there is an order of the values of a shape.
pub fn has_order(shapes: &ShapeList, shape: &Shape) -> bool
    ensures { result ≡ has_order shapes.now shape.now }
{
    kind_in(shapes, shape) != ValueKind::NoValue && shape.is(Characteristic::Ord)
}
