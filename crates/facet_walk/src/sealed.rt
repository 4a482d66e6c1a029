ghost use Rattle.std.specs.Prelude.{◌≡◌, ◌<◌, length, slice_get, Some};
ghost use Rattle.std.specs.Option.{option_and_then};
ghost use Rattle.facet_causes.specs.Reading.{element_of};
ghost use Rattle.facet_outline.specs.ValueKind.{slice_element};
ghost use Rattle.facet_registry.specs.Registry.{all_shapes};
ghost use Rattle.facet_shape.specs.WithoutSpare.{shape_without_spare};

use facet_base::ShapeId;
use facet_def::Def;
use facet_leaf::Leaf;
use facet_outline::{pointee_of, slice_element};
use facet_registry::Shapes;
use facet_shape::Shape;

/// The shape under the id of a sealed one. Requires that the id is below `sealed()`.
pub fn sealed_shape<L: Leaf>(shapes: &Shapes<L>, id: ShapeId) -> &Shape
    requires { id.0 < length shapes.now.sealed }
    ensures { slice_get shapes.now.sealed id.0 ≡ Some (shape_without_spare result.now) }
{
    match shapes.get(id) {
        Some(shape) => shape,
        None => unreachable!(),
    }
}

/// The elements of the slice that a definition points to, if it points to one.
pub fn pointed_elements<L: Leaf>(shapes: &Shapes<L>, def: &Def) -> Option<ShapeId>
    ensures { result ≡ element_of (all_shapes shapes.now) def.now }
{
    match pointee_of(def) {
        Some(id) => elements_of_slice(shapes, id),
        None => None,
    }
}

// The elements of the shape under an id, if it is a slice.
fn elements_of_slice<L: Leaf>(shapes: &Shapes<L>, id: ShapeId) -> Option<ShapeId>
    ensures { result ≡ option_and_then (λ shape. slice_element shape.def) (slice_get (all_shapes shapes.now) id.0) }
{
    match shapes.get(id) {
        Some(shape) => slice_element(&shape.def),
        None => None,
    }
}
