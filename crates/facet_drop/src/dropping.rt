ghost use Rattle.std.specs.Prelude.{◌≡◌, ◌<◌, ◌≤◌, ◌+◌, ◌++◌, AllPairs, length};
ghost use Rattle.facet_block.specs.Block.{size_of};
ghost use Rattle.facet_block.specs.Seq.{filled_of};
ghost use Rattle.facet_block.specs.Span.{span, IsApart, IsCleared};
ghost use Rattle.facet_causes.specs.Causes.{IsWellFormed};
ghost use Rattle.facet_drop.specs.Cleared.{AreCleared};
ghost use Rattle.facet_drop.specs.InlineParts.{first_places, inline_places, leaves_at, ranges_of};
ghost use Rattle.facet_drop.specs.Logged.{IsLogged};
ghost use Rattle.facet_drop.specs.Makeup.{held_in};
ghost use Rattle.facet_registry.specs.Registry.{size_at};
ghost use Rattle.facet_trees.specs.Value.{Value, leaves};
ghost use Rattle.facet_values.specs.Place.{LiesInBlock, block_places, part_places, place_in, start_of};
ghost use Rattle.facet_values.specs.Reading.{IsReadable, IsReadableWithin, Reads, part_spans, value_at};
ghost use Rattle.facet_walk.specs.Look.{AreReadable};

use crate::inline_parts::{inline_count, inline_part};
use crate::makeup::{BlockParts, Makeup, block_parts, makeup_of};
use crate::own_items::{drop_leaf, drop_tag, take_blocks};
use facet_base::ShapeId;
use facet_block::{Block, DropLog, PtrMut, Seq};
use facet_leaf::Leaf;
use facet_registry::Shapes;
use facet_walk::MAX_LEVELS;

/// Drops the value at a place. Its leaves go to the log in their order, and the range of the place is empty afterwards.
/// Requires that the shape is sealed, that the place holds a value of it, and that the log has room for its leaves.
pub fn call_drop_in_place<L: Leaf>(
    shapes: &Shapes<L>,
    s: ShapeId,
    p: PtrMut<L>,
    log: &mut DropLog<L>,
)
    requires sealed { s.0 < length shapes.now.sealed }
    requires readable { IsReadable L.model shapes.now.sealed (place_in s.0 p.block.now p.offset) }
    requires room { (v : Value L) → Reads L.model shapes.now.sealed (place_in s.0 p.block.now p.offset) v → length (leaves v) ≤ log.old.spare }
    ensures leaves { (v : Value L) → Reads L.model shapes.now.sealed (place_in s.0 p.entry.block.now p.entry.offset) v
        → log.new.leaves ≡ log.old.leaves ++ leaves v }
    ensures spare { (v : Value L) → Reads L.model shapes.now.sealed (place_in s.0 p.entry.block.now p.entry.offset) v
        → log.old.spare ≤ log.new.spare + length (leaves v) }
    ensures cleared { IsCleared p.entry.block.now p.exit.0.now (span p.entry.offset (size_at shapes.now.sealed s.0)) }
{
    // proof: no sealed shape meets a cause
    let _sealed = shapes.sealed();
    let PtrMut { block, offset } = p;
    drop_at(shapes, s, block, offset, MAX_LEVELS, log);
}

/// Drops the first `count` inline parts of the value at an offset of a block, or all where there are fewer. Their leaves
/// go to the log in their order, and their ranges are empty afterwards. What lies beside them stays, the tag too. Requires
/// that the shape is sealed, that a value of it would end in the block, that each of these parts is read there as a value
/// of at most `levels` levels, and that the log has room for the leaves.
pub fn drop_parts<L: Leaf>(
    shapes: &Shapes<L>,
    id: ShapeId,
    block: &mut Block<L>,
    at: usize,
    count: u128,
    levels: u32,
    log: &mut DropLog<L>,
)
    requires sealed { id.0 < length shapes.now.sealed }
    requires inside { LiesInBlock shapes.now.sealed (place_in id.0 block.old at) }
    requires readable { AreReadable L.model shapes.now.sealed levels (first_places shapes.now.sealed (place_in id.0 block.old at) count) }
    requires room { length (leaves_at shapes.now.sealed levels (first_places shapes.now.sealed (place_in id.0 block.old at) count)) ≤ log.old.spare }
    ensures leaves { log.new.leaves ≡ log.old.leaves
        ++ leaves_at shapes.now.sealed levels (first_places shapes.now.sealed (place_in id.0 block.old at) count) }
    ensures spare { log.old.spare ≤ log.new.spare
        + length (leaves_at shapes.now.sealed levels (first_places shapes.now.sealed (place_in id.0 block.old at) count)) }
    ensures cleared { AreCleared block.old block.new (ranges_of shapes.now.sealed (first_places shapes.now.sealed (place_in id.0 block.old at) count)) }
{
    // proof: no sealed shape meets a cause
    let _sealed = shapes.sealed();
    let present = inline_count(shapes, id, block, at);
    drop_first(shapes, id, block, at, count.min(present), levels, log);
}

// Drops the value at an offset of a block.
#[cycle(drops)]
fn drop_at<L: Leaf>(
    shapes: &Shapes<L>,
    id: ShapeId,
    block: &mut Block<L>,
    at: usize,
    levels: u32,
    log: &mut DropLog<L>,
)
    requires well_formed { IsWellFormed L.model shapes.now.sealed }
    requires sealed { id.0 < length shapes.now.sealed }
    requires readable { IsReadableWithin L.model shapes.now.sealed levels (place_in id.0 block.old at) }
    requires room { length (leaves (value_at shapes.now.sealed levels (place_in id.0 block.old at))) ≤ log.old.spare }
    ensures log { IsLogged log.old log.new (leaves (value_at shapes.now.sealed levels (place_in id.0 block.old at))) }
    ensures cleared { IsCleared block.old block.new (span at (size_at shapes.now.sealed id.0)) }
{
    match makeup_of(shapes, id) {
        Makeup::NoValues => unreachable!(),
        Makeup::Leaf => drop_leaf(block, at, log),
        Makeup::Inline => drop_inline(shapes, id, block, at, levels - 1, log),
        Makeup::Tagged => {
            drop_inline(shapes, id, block, at, levels - 1, log);
            drop_tag(block, at);
        }
        Makeup::Sequence => {
            let blocks = take_blocks(block, at);
            drop_blocks(shapes, block_parts(shapes, id), blocks, levels - 1, log);
        }
    }
}

// Drops the inline parts of the value at an offset of a block.
#[cycle(drops)]
fn drop_inline<L: Leaf>(
    shapes: &Shapes<L>,
    id: ShapeId,
    block: &mut Block<L>,
    at: usize,
    levels: u32,
    log: &mut DropLog<L>,
)
    requires well_formed { IsWellFormed L.model shapes.now.sealed }
    requires sealed { id.0 < length shapes.now.sealed }
    requires inside { LiesInBlock shapes.now.sealed (place_in id.0 block.old at) }
    requires readable { AreReadable L.model shapes.now.sealed levels (inline_places shapes.now.sealed (place_in id.0 block.old at)) }
    requires room { length (leaves_at shapes.now.sealed levels (inline_places shapes.now.sealed (place_in id.0 block.old at))) ≤ log.old.spare }
    ensures log { IsLogged log.old log.new (leaves_at shapes.now.sealed levels (inline_places shapes.now.sealed (place_in id.0 block.old at))) }
    ensures cleared { AreCleared block.old block.new (ranges_of shapes.now.sealed (inline_places shapes.now.sealed (place_in id.0 block.old at))) }
{
    let count = inline_count(shapes, id, block, at);
    drop_first(shapes, id, block, at, count, levels, log);
}

// Drops the first `count` inline parts of the value at an offset of a block, in order.
#[cycle(drops)]
fn drop_first<L: Leaf>(
    shapes: &Shapes<L>,
    id: ShapeId,
    block: &mut Block<L>,
    at: usize,
    count: u128,
    levels: u32,
    log: &mut DropLog<L>,
)
    requires well_formed { IsWellFormed L.model shapes.now.sealed }
    requires sealed { id.0 < length shapes.now.sealed }
    requires inside { LiesInBlock shapes.now.sealed (place_in id.0 block.old at) }
    requires count { count ≤ length (inline_places shapes.now.sealed (place_in id.0 block.old at)) }
    requires readable { AreReadable L.model shapes.now.sealed levels (first_places shapes.now.sealed (place_in id.0 block.old at) count) }
    requires room { length (leaves_at shapes.now.sealed levels (first_places shapes.now.sealed (place_in id.0 block.old at) count)) ≤ log.old.spare }
    ensures log { IsLogged log.old log.new (leaves_at shapes.now.sealed levels (first_places shapes.now.sealed (place_in id.0 block.old at) count)) }
    ensures cleared { AreCleared block.old block.new (ranges_of shapes.now.sealed (first_places shapes.now.sealed (place_in id.0 block.old at) count)) }
{
    for i in 0..count {
        let (shape, offset) = inline_part(shapes, id, block, at, i);
        drop_at(shapes, shape, block, offset, levels, log);
    }
}

// Drops what lies in the filled blocks of a sequence, in order, and the blocks.
#[cycle(drops)]
fn drop_blocks<L: Leaf>(
    shapes: &Shapes<L>,
    parts: BlockParts,
    blocks: Seq<L>,
    levels: u32,
    log: &mut DropLog<L>,
)
    requires well_formed { IsWellFormed L.model shapes.now.sealed }
    requires apart { AllPairs IsApart (part_spans shapes.now.sealed (held_in parts)) }
    requires readable { AreReadable L.model shapes.now.sealed levels (block_places (held_in parts) (filled_of blocks)) }
    requires room { length (leaves_at shapes.now.sealed levels (block_places (held_in parts) (filled_of blocks))) ≤ log.old.spare }
    ensures { IsLogged log.old log.new (leaves_at shapes.now.sealed levels (block_places (held_in parts) (filled_of blocks))) }
{
    let mut blocks = blocks;
    for i in 0..blocks.len() {
        match blocks.get_mut(i) {
            Some(block) => drop_block(shapes, parts, block, levels, log),
            None => unreachable!(),
        }
    }
}

// Drops what lies in a block of a sequence, in order.
#[cycle(drops)]
fn drop_block<L: Leaf>(
    shapes: &Shapes<L>,
    parts: BlockParts,
    block: &mut Block<L>,
    levels: u32,
    log: &mut DropLog<L>,
)
    requires well_formed { IsWellFormed L.model shapes.now.sealed }
    requires apart { AllPairs IsApart (part_spans shapes.now.sealed (held_in parts)) }
    requires readable { AreReadable L.model shapes.now.sealed levels (part_places (start_of 0 block.old) (held_in parts)) }
    requires room { length (leaves_at shapes.now.sealed levels (part_places (start_of 0 block.old) (held_in parts))) ≤ log.old.spare }
    ensures { IsLogged log.old log.new (leaves_at shapes.now.sealed levels (part_places (start_of 0 block.old) (held_in parts))) }
{
    match parts {
        BlockParts::None => {}
        BlockParts::One(shape) => drop_at(shapes, shape, block, 0, levels, log),
        BlockParts::Pair { key, value, offset } => {
            drop_at(shapes, key, block, 0, levels, log);
            drop_at(shapes, value, block, offset, levels, log);
        }
    }
}
