ghost use Rattle.std.specs.Prelude.{◌≡◌};
ghost use Rattle.facet_registry.specs.Registry.{all_shapes};
ghost use Rattle.facet_makers.specs.Slices.{is_slice_at};

use facet_base::ShapeId;
use facet_leaf::Leaf;
use facet_outline::slice_element;
use facet_registry::Shapes;

/// Whether a shape is defined as a slice, so that its box is a boxed slice.
pub fn is_slice<L: Leaf>(shapes: &Shapes<L>, id: ShapeId) -> bool
    ensures { result ≡ is_slice_at (all_shapes shapes.now) id.0 }
{
    match shapes.get(id) {
        Some(shape) => slice_element(&shape.def).is_some(),
        None => false,
    }
}
