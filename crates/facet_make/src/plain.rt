ghost use Rattle.std.specs.Prelude.{◌≡◌, ◌<◌, Some, length, slice_get, true};
ghost use Rattle.facet_make.specs.Initial.{is_plain, plain_body};
ghost use Rattle.facet_trees.specs.Structure.{structure_at};
ghost use Rattle.facet_values.specs.Place.{LiesInBlock, part_places, place_in};
ghost use Rattle.facet_walk.specs.Look.{places_of, pointed};

use facet_base::ShapeId;
use facet_block::{Block, PtrConst};
use facet_leaf::Leaf;
use facet_registry::Shapes;
use facet_walk::{Parts, Place, Seen, see};

// The places of the inline parts of a value without a tag.
fn plain_parts<'a, L: Leaf>(shapes: &'a Shapes<L>, id: ShapeId, at: PtrConst<'a, L>) -> Parts<'a, L>
    requires sealed { id.0 < length shapes.now.sealed }
    requires plain { is_plain (structure_at shapes.now.sealed id.0) ≡ true }
    ensures { places_of result ≡ part_places (pointed id at.entry) (plain_body (structure_at shapes.now.sealed id.0)) }
{
    match see(shapes, id, at) {
        Some(Seen::Node(_, parts)) => parts,
        Some(Seen::Leaf(_)) => unreachable!(),
        None => unreachable!(),
    }
}

/// How many inline parts a value without a tag has at an offset of a block.
pub(crate) fn plain_count<L: Leaf>(
    shapes: &Shapes<L>,
    id: ShapeId,
    block: &Block<L>,
    at: usize,
) -> u128
    requires sealed { id.0 < length shapes.now.sealed }
    requires plain { is_plain (structure_at shapes.now.sealed id.0) ≡ true }
    requires inside { LiesInBlock shapes.now.sealed (place_in id.0 block.now at) }
    ensures { result ≡ length (plain_body (structure_at shapes.now.sealed id.0)) }
{
    plain_parts(shapes, id, PtrConst::new(block, at)).len()
}

/// The shape of inline part `i` of a value without a tag at an offset of a block, and where in the block the part begins,
/// in bytes.
pub(crate) fn plain_part<L: Leaf>(
    shapes: &Shapes<L>,
    id: ShapeId,
    block: &Block<L>,
    at: usize,
    i: u128,
) -> (ShapeId, usize)
    requires sealed { id.0 < length shapes.now.sealed }
    requires plain { is_plain (structure_at shapes.now.sealed id.0) ≡ true }
    requires inside { LiesInBlock shapes.now.sealed (place_in id.0 block.now at) }
    requires there { i < length (plain_body (structure_at shapes.now.sealed id.0)) }
    ensures { slice_get (part_places (place_in id.0 block.now at) (plain_body (structure_at shapes.now.sealed id.0))) i ≡ Some (place_in result.0.0 block.now result.1) }
{
    // proof: no sealed shape meets a cause
    let _sealed = shapes.sealed();
    let Place { shape, at: found } = plain_parts(shapes, id, PtrConst::new(block, at)).part(i);
    (shape, found.offset)
}
