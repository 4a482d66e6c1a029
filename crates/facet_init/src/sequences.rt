ghost use Rattle.std.specs.Prelude.{◌≡◌, ◌+◌, ◌≤◌, [], ◌∷◌, IfOk, OnErr, OnOk};
ghost use Rattle.facet_block.specs.Block.{empty_block, moved_in, moved_out, size_of};
ghost use Rattle.facet_block.specs.Seq.{make_seq};
ghost use Rattle.facet_init.specs.NewSequences.{one_block, spare_blocks};
ghost use Rattle.facet_lists.specs.Sequences.{block_of_moved};

use facet_block::{Block, PtrMut, PtrUninit, Seq};
use std::alloc::{AllocError, Global};

/// A sequence whose blocks have `size` bytes, with no filled block and `count` spare ones.
pub(crate) fn with_spare_blocks<L: Drop>(
    alloc: Global,
    size: usize,
    count: usize,
) -> Result<Seq<L>, AllocError>
    ensures { IfOk result (λ blocks. blocks ≡ spare_blocks size count) }
{
    let mut blocks = Seq::new(alloc, size);
    blocks.reserve(count)?;
    Ok(blocks)
}

/// A sequence with one filled block, into which it moves what lies in `size` bytes of another block. An error leaves that
/// block as before.
pub(crate) fn with_one_block<L: Drop>(
    alloc: Global,
    size: usize,
    source: &mut Block<L>,
    from: usize,
) -> Result<Seq<L>, AllocError>
    requires inside { from + size ≤ size_of source.old }
    ensures filled { IfOk result (λ blocks. blocks ≡ one_block size (block_of_moved size source.old from)) }
    ensures moved { OnOk result (source.new ≡ moved_out source.old from size) }
    ensures same_source { OnErr result (source.new ≡ source.old) }
{
    let mut blocks = with_spare_blocks(alloc, size, 1)?;
    fill_first(&mut blocks, size, source, from);
    Ok(blocks)
}

// Fills the one spare block with what lies in `size` bytes of another block, and makes it a filled one.
fn fill_first<L: Drop>(blocks: &mut Seq<L>, size: usize, source: &mut Block<L>, from: usize)
    requires one { blocks.old ≡ spare_blocks size 1 }
    requires inside { from + size ≤ size_of source.old }
    ensures filled { blocks.new ≡ one_block size (block_of_moved size source.old from) }
    ensures moved { source.new ≡ moved_out source.old from size }
{
    fill_slot(blocks, size, source, from);
    blocks.set_len(1);
}

// Moves what lies in `size` bytes of another block into the one spare block.
fn fill_slot<L: Drop>(blocks: &mut Seq<L>, size: usize, source: &mut Block<L>, from: usize)
    requires one { blocks.old ≡ spare_blocks size 1 }
    requires inside { from + size ≤ size_of source.old }
    ensures filled { blocks.new ≡ make_seq size [] (block_of_moved size source.old from ∷ []) }
    ensures moved { source.new ≡ moved_out source.old from size }
{
    move_to_start(blocks.slot_mut(0), source, from, size);
}

// Moves what lies in `size` bytes of another block to the start of an empty one.
fn move_to_start<L: Drop>(block: &mut Block<L>, source: &mut Block<L>, from: usize, size: usize)
    requires empty { block.old ≡ empty_block size }
    requires inside { from + size ≤ size_of source.old }
    ensures block { block.new ≡ moved_in block.old 0 source.old from size }
    ensures source { source.new ≡ moved_out source.old from size }
{
    PtrUninit::new(block, 0).move_from(PtrMut::new(source, from), size);
}
