ghost use Rattle.std.specs.Prelude.{◌≡◌, ◌<◌, ◌≤◌, length, IfSome};
ghost use Rattle.std.specs.Bool.{OnTrue};
ghost use Rattle.facet_block.specs.Block.{size_of};
ghost use Rattle.facet_block.specs.Span.{IsVacant, span};
ghost use Rattle.facet_registry.specs.Registry.{size_at};
ghost use Rattle.facet_values.specs.Place.{place_in};
ghost use Rattle.facet_values.specs.Reading.{IsReadable};
ghost use Rattle.facet_walk.specs.Look.{pointed};

use crate::notation::{LEVELS, read_block};
use crate::words::Words;
use facet_base::ShapeId;
use facet_block::{Block, PtrConst};
use facet_leaf::Leaf;
use facet_readable::reads_as;
use facet_registry::Shapes;
use std::alloc::{AllocError, Global};

/// A block, and an offset in it.
#[derive(Drop)]
pub struct Operand<L> {
    pub block: Block<L>,
    pub at: usize,
}

/// The operand that the next words are: `@OFFSET` and a block, or a block with the offset 0. None where they are none,
/// or the offset is outside.
pub fn read_operand<L: Leaf>(
    alloc: Global,
    words: &mut Words,
) -> Result<Option<Operand<L>>, AllocError> {
    let at = words.take_marked('@').unwrap_or(0) as usize;
    match read_block(alloc, words, LEVELS)? {
        Some(block) if at <= block.size() => Ok(Some(Operand { block, at })),
        _ => Ok(None),
    }
}

/// Where a value of a shape lies, if the operand holds one there.
pub fn readable<'a, L: Leaf>(
    shapes: &Shapes<L>,
    id: ShapeId,
    operand: &'a Operand<L>,
) -> Option<PtrConst<'a, L>>
    requires { id.0 < length shapes.now.sealed }
    ensures { IfSome result (λ place. IsReadable L.model shapes.now.sealed (pointed id place)) }
{
    if holds_value(shapes, id, operand) {
        return Some(PtrConst::new(&operand.block, operand.at));
    }
    None
}

/// Whether an operand holds a value of a shape.
pub fn holds_value<L: Leaf>(shapes: &Shapes<L>, id: ShapeId, operand: &Operand<L>) -> bool
    requires { id.0 < length shapes.now.sealed }
    ensures inside { OnTrue result (operand.now.at ≤ size_of operand.now.block) }
    ensures readable { OnTrue result (IsReadable L.model shapes.now.sealed (place_in id.0 operand.now.block operand.now.at)) }
{
    operand.at <= operand.block.size()
        && reads_as(shapes, id, PtrConst::new(&operand.block, operand.at))
}

/// Whether a value of a shape can be made at an operand: its range lies in the block, and is empty.
pub fn is_vacant<L: Leaf>(shapes: &Shapes<L>, id: ShapeId, operand: &Operand<L>) -> bool
    requires { id.0 < length shapes.now.sealed }
    ensures { OnTrue result (IsVacant operand.now.block (span operand.now.at (size_at shapes.now.sealed id.0))) }
{
    let size = shapes.size_of(id);
    let end = operand.block.size();
    operand.at <= end && size <= end - operand.at && operand.block.is_empty_in(operand.at, size)
}
