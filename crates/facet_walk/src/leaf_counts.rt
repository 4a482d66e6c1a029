ghost use Rattle.std.specs.Prelude.{◌≡◌, ◌<◌, length, min};
ghost use Rattle.facet_causes.specs.Causes.{IsWellFormed};
ghost use Rattle.facet_trees.specs.Value.{Value, leaves, leaves_of_parts};
ghost use Rattle.facet_values.specs.Reading.{IsReadable, IsReadableWithin, Reads, value_at, values_by};
ghost use Rattle.facet_walk.specs.Look.{AreReadable, place_of, places_of, pointed};

use crate::levels::MAX_LEVELS;
use crate::parts::Parts;
use crate::place::Place;
use crate::seeing::{Seen, see};
use facet_base::ShapeId;
use facet_block::PtrConst;
use facet_leaf::Leaf;
use facet_registry::Shapes;

/// The number of leaves of the value at a place, or the greatest `usize` where there are that many or more. Requires
/// that the shape is sealed and the place holds a value of it.
pub fn leaf_count<L: Leaf>(shapes: &Shapes<L>, id: ShapeId, at: PtrConst<L>) -> usize
    requires sealed { id.0 < length shapes.now.sealed }
    requires readable { IsReadable L.model shapes.now.sealed (pointed id at) }
    ensures { (v : Value L) → Reads L.model shapes.now.sealed (pointed id at.entry) v → result ≡ min (length (leaves v)) usize.MAX }
{
    // proof: no sealed shape meets a cause
    let _sealed = shapes.sealed();
    leaves_at(shapes, Place { shape: id, at }, MAX_LEVELS)
}

// The number of leaves of the value at a place, or the greatest usize.
#[cycle(leaves)]
fn leaves_at<L: Leaf>(shapes: &Shapes<L>, place: Place<L>, levels: u32) -> usize
    requires well_formed { IsWellFormed L.model shapes.now.sealed }
    requires sealed { place.shape.0 < length shapes.now.sealed }
    requires readable { IsReadableWithin L.model shapes.now.sealed levels (place_of place) }
    ensures { result ≡ min (length (leaves (value_at shapes.now.sealed levels (place_of place.entry)))) usize.MAX }
{
    match see(shapes, place.shape, place.at) {
        Some(Seen::Leaf(_)) => 1,
        Some(Seen::Node(_, parts)) => leaves_in(shapes, parts, levels - 1),
        None => unreachable!(),
    }
}

// The number of leaves of the parts, or the greatest usize.
#[cycle(leaves)]
fn leaves_in<L: Leaf>(shapes: &Shapes<L>, parts: Parts<L>, levels: u32) -> usize
    requires well_formed { IsWellFormed L.model shapes.now.sealed }
    requires readable { AreReadable L.model shapes.now.sealed levels (places_of parts) }
    ensures { result ≡ min (length (leaves_of_parts (values_by (value_at shapes.now.sealed levels) (places_of parts.entry)))) usize.MAX }
{
    let mut total: usize = 0;
    for i in 0..parts.len() {
        total = total.saturating_add(leaves_at(shapes, parts.part(i), levels));
    }
    total
}
