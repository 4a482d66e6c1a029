ghost use Rattle.std.specs.Prelude.{◌≡◌, ◌↔◌, ℕ, ◌+◌, ◌<◌, ◌≤◌, [], ◌∷◌, All, IsTrue, length};
ghost use Rattle.std.specs.Option.{option_to_list};
ghost use Rattle.facet_block.specs.Block.{empty_block, item_at};
ghost use Rattle.facet_block.specs.Seq.{filled_of, spare_of};
ghost use Rattle.facet_outline.specs.References.{parts_of_def};
ghost use Rattle.facet_outline.specs.declared.value_kind.ValueKind.TheVariants as kind;
ghost use Rattle.facet_readable.specs.Blocks.{HasBlocks, IsFilledBy, IsLayoutOf, MayHaveBlocks};
ghost use Rattle.facet_values.specs.Reading.{IsLengthOf};
ghost use Rattle.facet_walk.proofs.SeenKinds.{HasElements};

use facet_base::ShapeId;
use facet_block::{Block, ItemKind, PtrConst, Seq};
use facet_def::Def;
use facet_leaf::Leaf;
use facet_outline::{pair_layout, value_offset};
use facet_registry::Shapes;
use facet_trees::Form;

/// Where the parts lie in each block of a sequence: the size of a block in bytes, and the two ranges in which no part
/// lies, between a key and its value, and at the end.
#[derive(Clone, Copy)]
pub(crate) struct BlockLayout {
    size: usize,
    gap: usize,
    gap_len: usize,
    tail: usize,
    tail_len: usize,
}

/// The layout of blocks that have one element each, where the shape of the elements is known.
pub(crate) fn element_layout<L: Leaf>(shapes: &Shapes<L>, element: Option<ShapeId>) -> BlockLayout
    requires { All (λ id. id.0 < length shapes.now.sealed) (option_to_list element) }
    ensures { IsLayoutOf shapes.now.sealed (option_to_list element) result }
{
    match element {
        Some(id) => without_gaps(shapes.size_of(id)),
        None => without_gaps(0),
    }
}

// The layout of blocks whose bytes all are those of one part.
fn without_gaps(size: usize) -> BlockLayout
    ensures { result ≡ record { size = size; gap = size; gap_len = 0; tail = size; tail_len = 0 } }
{
    BlockLayout {
        size,
        gap: size,
        gap_len: 0,
        tail: size,
        tail_len: 0,
    }
}

/// The layout of the blocks of a map, by its definition.
pub(crate) fn map_layout<L: Leaf>(shapes: &Shapes<L>, def: &Def) -> BlockLayout
    requires sealed { All (λ id. id.0 < length shapes.now.sealed) (parts_of_def def.now) }
    requires map { HasElements kind.Map def.now }
    ensures { IsLayoutOf shapes.now.sealed (parts_of_def def.now) result }
{
    match def {
        Def::Map(map) => layout_of_pair(shapes, map.k, map.v),
        _ => unreachable!(),
    }
}

// The layout of blocks that have a key and a value each.
fn layout_of_pair<L: Leaf>(shapes: &Shapes<L>, key: ShapeId, value: ShapeId) -> BlockLayout
    requires key { key.0 < length shapes.now.sealed }
    requires value { value.0 < length shapes.now.sealed }
    ensures { IsLayoutOf shapes.now.sealed (key ∷ value ∷ []) result }
{
    // proof: a pair of sealed shapes holds its key and its value
    let _sealed = shapes.sealed();
    let key_layout = shapes.part_layout(key);
    let value_layout = shapes.part_layout(value);
    let size = pair_layout(key_layout, value_layout).size;
    let offset = value_offset(key_layout, value_layout);
    let tail = offset + value_layout.size;
    BlockLayout {
        size,
        gap: key_layout.size,
        gap_len: offset - key_layout.size,
        tail,
        tail_len: size - tail,
    }
}

/// Whether the sequence at a place, where there is one, has blocks of the layout.
pub(crate) fn has_blocks<L>(at: PtrConst<L>, form: Form, layout: BlockLayout) -> bool
    ensures { IsTrue result ↔ MayHaveBlocks layout form (item_at at.entry.block.now at.entry.offset) }
{
    match at.block.item_at(at.offset) {
        ItemKind::Sequence => is_sequence_of(at.seq(), form, layout),
        ItemKind::Nothing | ItemKind::Leaf | ItemKind::Tag => true,
    }
}

// Whether a sequence has blocks of the layout.
fn is_sequence_of<L>(blocks: &Seq<L>, form: Form, layout: BlockLayout) -> bool
    ensures { IsTrue result ↔ HasBlocks layout form blocks.now }
{
    if blocks.elem_size() != layout.size {
        return false;
    }
    if !is_length_of(form, blocks.len()) {
        return false;
    }
    if !are_filled(blocks, layout) {
        return false;
    }
    are_empty(blocks, layout.size)
}

// Whether a sequence of the form may have so many filled blocks.
fn is_length_of(form: Form, n: usize) -> bool
    ensures { IsTrue result ↔ IsLengthOf form n }
{
    match form {
        Form::Box => n == 1,
        _ => true,
    }
}

// Whether each filled block has the layout.
fn are_filled<L>(blocks: &Seq<L>, layout: BlockLayout) -> bool
    ensures { IsTrue result ↔ All (IsFilledBy layout) (filled_of blocks.now) }
{
    for i in 0..blocks.len() {
        if let Some(block) = blocks.get(i) {
            if !is_filled(block, layout) {
                return false;
            }
        }
    }
    true
}

// Whether a block has the layout, and nothing lies in it beside the parts.
fn is_filled<L>(block: &Block<L>, layout: BlockLayout) -> bool
    ensures { IsTrue result ↔ IsFilledBy layout block.now }
{
    if block.size() != layout.size {
        return false;
    }
    if !block.is_empty_in(layout.gap, layout.gap_len) {
        return false;
    }
    block.is_empty_in(layout.tail, layout.tail_len)
}

// Whether each spare block has the size, and holds nothing.
fn are_empty<L>(blocks: &Seq<L>, size: usize) -> bool
    ensures { IsTrue result ↔ All (λ (block : Block L). block ≡ empty_block size) (spare_of blocks.now) }
{
    for j in 0..blocks.spare() {
        if !is_empty_block(blocks.slot(j), size) {
            return false;
        }
    }
    true
}

// Whether a block has the size, and holds nothing.
fn is_empty_block<L>(block: &Block<L>, size: usize) -> bool
    ensures { IsTrue result ↔ (block.now ≡ empty_block size) }
{
    if block.size() != size {
        return false;
    }
    block.is_empty_in(0, size)
}
