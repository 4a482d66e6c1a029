ghost use Rattle.std.specs.Prelude.{◌≡◌, ◌⊎◌, ◌+◌, ◌<◌, ◌≤◌, [], All, length, slice_get, slice_set, OnErr, OnOk, Some};
ghost use Rattle.facet_block.specs.Block.{empty_block, moved_in, moved_out, size_of};
ghost use Rattle.facet_block.specs.PtrUninit.{place_of};
ghost use Rattle.facet_block.specs.Seq.{element_size_of, filled_of, spare_of, with_filled, with_spare};
ghost use Rattle.facet_block.specs.declared.block.Block.{Block};
ghost use Rattle.facet_block.specs.Span.{IsVacant, span};
ghost use Rattle.facet_lists.specs.Sequences.{all_blocks, block_of_moved, cut_at, with_last, with_room};

use facet_block::{Block, PtrMut, PtrUninit, Seq};
use facet_contain::destinations::move_to;
use std::alloc::AllocError;

/// Adds a filled block, into which it moves what lies in as many bytes of another block as the elements have. It is
/// refused only where a spare block is missing, or the number of filled blocks is the greatest, and changes nothing then.
pub(crate) fn push_block<L: Drop>(
    blocks: &mut Seq<L>,
    source: &mut Block<L>,
    from: usize,
) -> Result<(), AllocError>
    requires empty { All (λ b. b ≡ empty_block (element_size_of blocks.old)) (spare_of blocks.old) }
    requires inside { from + element_size_of blocks.old ≤ size_of source.old }
    ensures pushed { OnOk result (blocks.new ≡ with_last (with_room 1 blocks.old) (block_of_moved (element_size_of blocks.old) source.old from)) }
    ensures moved { OnOk result (source.new ≡ moved_out source.old from (element_size_of blocks.old)) }
    ensures refused { OnErr result ((spare_of blocks.old ≡ []) ⊎ (length (filled_of blocks.old) ≡ usize.MAX)) }
    ensures same { OnErr result (blocks.new ≡ blocks.old) }
    ensures same_source { OnErr result (source.new ≡ source.old) }
{
    match blocks.len().checked_add(1) {
        Some(longer) => {
            make_spare(blocks)?;
            fill_next(blocks, longer, source, from);
            Ok(())
        }
        None => Err(AllocError),
    }
}

// Sees that a spare block is there. An error changes nothing.
fn make_spare<L: Drop>(blocks: &mut Seq<L>) -> Result<(), AllocError>
    requires empty { All (λ b. b ≡ empty_block (element_size_of blocks.old)) (spare_of blocks.old) }
    ensures ok { OnOk result (blocks.new ≡ with_room 1 blocks.old) }
    ensures some { OnOk result (0 < length (spare_of blocks.new)) }
    ensures empty { OnOk result (All (λ b. b ≡ empty_block (element_size_of blocks.new)) (spare_of blocks.new)) }
    ensures refused { OnErr result (spare_of blocks.old ≡ []) }
    ensures same { OnErr result (blocks.new ≡ blocks.old) }
{
    blocks.reserve(1)
}

// Fills the first spare block with what lies in as many bytes of another as it has, and makes it the last filled one.
fn fill_next<L: Drop>(blocks: &mut Seq<L>, longer: usize, source: &mut Block<L>, from: usize)
    requires longer { longer ≡ length (filled_of blocks.old) + 1 }
    requires some { 0 < length (spare_of blocks.old) }
    requires empty { All (λ b. b ≡ empty_block (element_size_of blocks.old)) (spare_of blocks.old) }
    requires inside { from + element_size_of blocks.old ≤ size_of source.old }
    ensures pushed { blocks.new ≡ with_last blocks.old (block_of_moved (element_size_of blocks.old) source.old from) }
    ensures moved { source.new ≡ moved_out source.old from (element_size_of blocks.old) }
{
    fill_slot(blocks, source, from);
    blocks.set_len(longer);
}

// Moves what lies in as many bytes of another block as the elements have into the first spare block.
fn fill_slot<L: Drop>(blocks: &mut Seq<L>, source: &mut Block<L>, from: usize)
    requires some { 0 < length (spare_of blocks.old) }
    requires empty { All (λ b. b ≡ empty_block (element_size_of blocks.old)) (spare_of blocks.old) }
    requires inside { from + element_size_of blocks.old ≤ size_of source.old }
    ensures filled { (b : Block L) → slice_get (spare_of blocks.old) 0 ≡ Some b
        → blocks.new ≡ with_spare blocks.old (slice_set (spare_of blocks.old) 0 (moved_in b 0 source.old from (element_size_of blocks.old))) }
    ensures count { length (filled_of blocks.new) + length (spare_of blocks.new) ≡ length (filled_of blocks.old) + length (spare_of blocks.old) }
    ensures moved { source.new ≡ moved_out source.old from (element_size_of blocks.old) }
{
    let size = blocks.elem_size();
    move_to_start(blocks.slot_mut(0), source, from, size);
}

/// Moves what the last filled block holds to a place, where nothing lies, and makes it the first spare one.
pub(crate) fn pop_block<L: Drop>(blocks: &mut Seq<L>, last: usize, out: &mut PtrUninit<'_, L>)
    requires last { length (filled_of blocks.old) ≡ last + 1 }
    requires sizes { (b : Block L) → slice_get (filled_of blocks.old) last ≡ Some b → size_of b ≡ element_size_of blocks.old }
    requires vacant { IsVacant (place_of out.old).block.now (span (place_of out.old).offset (element_size_of blocks.old)) }
    ensures popped { (b : Block L) → slice_get (filled_of blocks.old) last ≡ Some b
        → blocks.new ≡ cut_at last (with_filled blocks.old (slice_set (filled_of blocks.old) last (moved_out b 0 (element_size_of blocks.old)))) }
    ensures same_reference { (place_of out.new).block.ghost_name ≡ (place_of out.old).block.ghost_name }
    ensures same_offset { (place_of out.new).offset ≡ (place_of out.old).offset }
    ensures moved { (b : Block L) → slice_get (filled_of blocks.old) last ≡ Some b
        → (place_of out.new).block.now ≡ moved_in (place_of out.old).block.now (place_of out.old).offset b 0 (element_size_of blocks.old) }
{
    move_block(blocks, last, out);
    blocks.set_len(last);
}

// Moves what filled block `i` holds to a place, where nothing lies.
fn move_block<L: Drop>(blocks: &mut Seq<L>, i: usize, out: &mut PtrUninit<'_, L>)
    requires there { i < length (filled_of blocks.old) }
    requires sizes { (b : Block L) → slice_get (filled_of blocks.old) i ≡ Some b → size_of b ≡ element_size_of blocks.old }
    requires vacant { IsVacant (place_of out.old).block.now (span (place_of out.old).offset (element_size_of blocks.old)) }
    ensures count { length (filled_of blocks.new) ≡ length (filled_of blocks.old) }
    ensures emptied { (b : Block L) → slice_get (filled_of blocks.old) i ≡ Some b
        → blocks.new ≡ with_filled blocks.old (slice_set (filled_of blocks.old) i (moved_out b 0 (element_size_of blocks.old))) }
    ensures same_reference { (place_of out.new).block.ghost_name ≡ (place_of out.old).block.ghost_name }
    ensures same_offset { (place_of out.new).offset ≡ (place_of out.old).offset }
    ensures moved { (b : Block L) → slice_get (filled_of blocks.old) i ≡ Some b
        → (place_of out.new).block.now ≡ moved_in (place_of out.old).block.now (place_of out.old).offset b 0 (element_size_of blocks.old) }
{
    let size = blocks.elem_size();
    match blocks.get_mut(i) {
        Some(block) => move_start_to(out, block, size),
        None => unreachable!(),
    }
}

// Moves so many bytes from the start of a block to a place, where nothing lies.
fn move_start_to<L: Drop>(out: &mut PtrUninit<'_, L>, source: &mut Block<L>, size: usize)
    requires vacant { IsVacant (place_of out.old).block.now (span (place_of out.old).offset size) }
    requires inside { size ≤ size_of source.old }
    ensures same_reference { (place_of out.new).block.ghost_name ≡ (place_of out.old).block.ghost_name }
    ensures same_offset { (place_of out.new).offset ≡ (place_of out.old).offset }
    ensures block { (place_of out.new).block.now ≡ moved_in (place_of out.old).block.now (place_of out.old).offset source.old 0 size }
    ensures source { source.new ≡ moved_out source.old 0 size }
{
    move_to(out, PtrMut::new(source, 0), size);
}

// Moves what lies in so many bytes of another block to the start of an empty one.
fn move_to_start<L: Drop>(block: &mut Block<L>, source: &mut Block<L>, from: usize, size: usize)
    requires vacant { IsVacant block.old (span 0 size) }
    requires inside { from + size ≤ size_of source.old }
    ensures block { block.new ≡ moved_in block.old 0 source.old from size }
    ensures source { source.new ≡ moved_out source.old from size }
{
    PtrUninit::new(block, 0).move_from(PtrMut::new(source, from), size);
}

/// The sequence whose filled blocks are the first `len` of its filled and then its spare ones.
pub(crate) fn first_filled<L>(blocks: Seq<L>, len: usize) -> Seq<L>
    requires { len ≤ length (all_blocks blocks) }
    ensures { result ≡ cut_at len blocks }
{
    let mut blocks = blocks;
    blocks.set_len(len);
    blocks
}
