ghost use Rattle.std.specs.Prelude.{◌≡◌, ◌↔◌, ◌<◌, ◌≤◌, All, IsTrue, length};
ghost use Rattle.facet_causes.specs.Causes.{IsWellFormed};
ghost use Rattle.facet_values.specs.Reading.{IsReadable, IsReadableWithin};
ghost use Rattle.facet_walk.specs.Look.{AreReadable, IsInside, place_of, places_of, pointed};

use crate::ascending::is_in_order;
use crate::whole::is_whole;
use facet_base::ShapeId;
use facet_block::PtrConst;
use facet_leaf::Leaf;
use facet_registry::Shapes;
use facet_walk::{MAX_LEVELS, Parts, Place, Seen, see};

/// Whether a place holds a value of a sealed shape, of at most 100 levels. Anything may lie there, and the range may
/// pass the end of the block.
pub fn reads_as<L: Leaf>(shapes: &Shapes<L>, s: ShapeId, p: PtrConst<L>) -> bool
    requires { s.0 < length shapes.now.sealed }
    ensures { IsTrue result ↔ IsReadable L.model shapes.now.sealed (pointed s p.entry) }
{
    // proof: no sealed shape meets a cause
    let _sealed = shapes.sealed();
    reads_within(shapes, Place { shape: s, at: p }, MAX_LEVELS)
}

// Whether a place holds a value of so many levels at most.
#[cycle(reads)]
fn reads_within<L: Leaf>(shapes: &Shapes<L>, place: Place<L>, levels: u32) -> bool
    requires well_formed { IsWellFormed L.model shapes.now.sealed }
    requires sealed { place.shape.0 < length shapes.now.sealed }
    requires most { levels ≤ 100 }
    ensures { IsTrue result ↔ IsReadableWithin L.model shapes.now.sealed levels (place_of place.entry) }
{
    if levels == 0 {
        return false;
    }
    if !is_whole(shapes, place) {
        return false;
    }
    match see(shapes, place.shape, place.at) {
        None => false,
        Some(Seen::Leaf(_)) => true,
        Some(Seen::Node(form, parts)) => {
            if !all_read(shapes, parts, levels - 1) {
                return false;
            }
            is_in_order(shapes, form, parts)
        }
    }
}

// Whether each of the places holds a value of so many levels at most.
#[cycle(reads)]
fn all_read<L: Leaf>(shapes: &Shapes<L>, parts: Parts<L>, levels: u32) -> bool
    requires well_formed { IsWellFormed L.model shapes.now.sealed }
    requires sealed { All (λ q. q.shape < length shapes.now.sealed) (places_of parts) }
    requires inside { All IsInside (places_of parts) }
    requires most { levels ≤ 100 }
    ensures { IsTrue result ↔ AreReadable L.model shapes.now.sealed levels (places_of parts.entry) }
{
    for i in 0..parts.len() {
        if !reads_within(shapes, parts.part(i), levels) {
            return false;
        }
    }
    true
}
