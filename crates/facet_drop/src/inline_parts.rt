ghost use Rattle.std.specs.Prelude.{◌≡◌, ◌<◌, length, slice_get, IsSomeAnd, Some};
ghost use Rattle.facet_drop.specs.InlineParts.{inline_places};
ghost use Rattle.facet_drop.specs.Makeup.{parts_of_seen};
ghost use Rattle.facet_values.specs.Place.{place_in};
ghost use Rattle.facet_walk.specs.Look.{IsInside, places_of, pointed, seen_of};

use crate::makeup::{Makeup, makeup_of};
use facet_base::ShapeId;
use facet_block::{Block, PtrConst};
use facet_leaf::Leaf;
use facet_registry::Shapes;
use facet_walk::{Parts, Place, Seen, see};

/// The places of the inline parts of the value at a place.
pub(crate) fn inline_parts<'a, L: Leaf>(
    shapes: &'a Shapes<L>,
    id: ShapeId,
    at: PtrConst<'a, L>,
) -> Parts<'a, L>
    requires { id.0 < length shapes.now.sealed }
    ensures { places_of result ≡ inline_places shapes.now.sealed (pointed id at.entry) }
{
    match makeup_of(shapes, id) {
        Makeup::Inline | Makeup::Tagged => parts_in(see(shapes, id, at)),
        _ => Parts::None,
    }
}

// The places of the parts that are seen.
fn parts_in<'a, L>(found: Option<Seen<'a, L>>) -> Parts<'a, L>
    ensures { places_of result ≡ parts_of_seen (seen_of found.entry) }
{
    match found {
        Some(Seen::Node(_, parts)) => parts,
        _ => Parts::None,
    }
}

/// How many inline parts the value at an offset of a block has.
pub(crate) fn inline_count<L: Leaf>(
    shapes: &Shapes<L>,
    id: ShapeId,
    block: &Block<L>,
    at: usize,
) -> u128
    requires sealed { id.0 < length shapes.now.sealed }
    requires inside { IsInside (place_in id.0 block.now at) }
    ensures { result ≡ length (inline_places shapes.now.sealed (place_in id.0 block.now at)) }
{
    inline_parts(shapes, id, PtrConst::new(block, at)).len()
}

/// The shape of inline part `i` of the value at an offset of a block, and where in the block the part begins, in bytes.
pub(crate) fn inline_part<L: Leaf>(
    shapes: &Shapes<L>,
    id: ShapeId,
    block: &Block<L>,
    at: usize,
    i: u128,
) -> (ShapeId, usize)
    requires sealed { id.0 < length shapes.now.sealed }
    requires inside { IsInside (place_in id.0 block.now at) }
    requires there { IsSomeAnd (slice_get (inline_places shapes.now.sealed (place_in id.0 block.now at)) i) IsInside }
    ensures { slice_get (inline_places shapes.now.sealed (place_in id.0 block.now at)) i ≡ Some (place_in result.0.0 block.now result.1) }
{
    let Place { shape, at: found } = inline_parts(shapes, id, PtrConst::new(block, at)).part(i);
    (shape, found.offset)
}
