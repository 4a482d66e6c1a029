ghost use Rattle.std.specs.Prelude.{◌≡◌, ◌<◌, ◌≤◌, length};
ghost use Rattle.facet_causes.specs.Causes.{IsWellFormed};
ghost use Rattle.facet_trees.specs.Value.{Value, depth, greatest_depth};
ghost use Rattle.facet_values.specs.Reading.{IsReadable, IsReadableWithin, Reads, value_at, values_by};
ghost use Rattle.facet_walk.specs.Look.{AreReadable, place_of, places_of, pointed};

use crate::parts::Parts;
use crate::place::Place;
use crate::seeing::{Seen, see};
use facet_base::ShapeId;
use facet_block::PtrConst;
use facet_leaf::Leaf;
use facet_registry::Shapes;

/// The greatest number of levels of a value that operations go into.
pub const MAX_LEVELS: u32 = 100;

/// The number of levels of the value at a place: 1 without parts, else 1 and the greatest of the parts'. Requires that
/// the shape is sealed and the place holds a value of it.
pub fn depth<L: Leaf>(shapes: &Shapes<L>, id: ShapeId, at: PtrConst<L>) -> usize
    requires sealed { id.0 < length shapes.now.sealed }
    requires readable { IsReadable L.model shapes.now.sealed (pointed id at) }
    ensures { (v : Value L) → Reads L.model shapes.now.sealed (pointed id at.entry) v → result ≡ depth v }
{
    // proof: no sealed shape meets a cause
    let _sealed = shapes.sealed();
    depth_at(shapes, Place { shape: id, at }, MAX_LEVELS)
}

// The number of levels of the value at a place.
#[cycle(levels)]
fn depth_at<L: Leaf>(shapes: &Shapes<L>, place: Place<L>, levels: u32) -> usize
    requires well_formed { IsWellFormed L.model shapes.now.sealed }
    requires sealed { place.shape.0 < length shapes.now.sealed }
    requires readable { IsReadableWithin L.model shapes.now.sealed levels (place_of place) }
    ensures depth { result ≡ depth (value_at shapes.now.sealed levels (place_of place.entry)) }
    ensures bound { result ≤ levels }
{
    match see(shapes, place.shape, place.at) {
        Some(Seen::Leaf(_)) => 1,
        Some(Seen::Node(_, parts)) => 1 + greatest_depth_of(shapes, parts, levels - 1),
        None => unreachable!(),
    }
}

// The greatest number of levels of one of the parts, and 0 without a part.
#[cycle(levels)]
fn greatest_depth_of<L: Leaf>(shapes: &Shapes<L>, parts: Parts<L>, levels: u32) -> usize
    requires well_formed { IsWellFormed L.model shapes.now.sealed }
    requires readable { AreReadable L.model shapes.now.sealed levels (places_of parts) }
    ensures depth { result ≡ greatest_depth (values_by (value_at shapes.now.sealed levels) (places_of parts.entry)) }
    ensures bound { result ≤ levels }
{
    let mut greatest: usize = 0;
    for i in 0..parts.len() {
        greatest = greatest.max(depth_at(shapes, parts.part(i), levels));
    }
    greatest
}
