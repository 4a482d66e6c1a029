ghost use Rattle.std.specs.Prelude.{◌≡◌, ◌≢◌, ◌<◌, IfSome, length};
ghost use Rattle.facet_compare.specs.Leaves.{IsOfLeaves};
ghost use Rattle.facet_values.specs.Seen.{no_value, seen};
ghost use Rattle.facet_walk.specs.Look.{place_of, seen_in};

use crate::leaves::is_known;
use facet_base::ShapeId;
use facet_leaf::Leaf;
use facet_registry::Shapes;
use facet_walk::{Place, Seen, see};

/// What the value at a place begins with: a leaf where its shape is the given one, whose values are leaves. Requires that
/// there is something that one begins with.
pub(crate) fn see_value<'a, L: Leaf>(
    shapes: &'a Shapes<L>,
    leaves: Option<ShapeId>,
    place: Place<'a, L>,
) -> Seen<'a, L>
    requires sealed { place.shape.0 < length shapes.now.sealed }
    requires some { seen shapes.now.sealed (place_of place) ≢ no_value }
    requires leaves { IfSome leaves (λ known. IsOfLeaves shapes.now.sealed known.0) }
    ensures { seen_in result ≡ seen shapes.now.sealed (place_of place.entry) }
{
    if is_known(leaves, place.shape) {
        return Seen::Leaf(place.at.get());
    }
    match see(shapes, place.shape, place.at) {
        Some(seen) => seen,
        None => unreachable!(),
    }
}
