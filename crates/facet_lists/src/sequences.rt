ghost use Rattle.std.specs.Prelude.{◌≡◌, ◌⊎◌, ◌+◌, ◌<◌, ◌≤◌, ℕ, [], All, length, slice_get, slice_set, swap, OnErr, OnOk, Some};
ghost use Rattle.facet_block.specs.Block.{empty_block, item_at, item_kind_at, moved_in, moved_out, size_of, with_item};
ghost use Rattle.facet_block.specs.PtrUninit.{place_of};
ghost use Rattle.facet_block.specs.Seq.{element_size_of, filled_of, spare_of, with_filled, with_new_spare};
ghost use Rattle.facet_block.specs.Span.{IsVacant, span};
ghost use Rattle.facet_block.specs.declared.block.Block.{Block};
ghost use Rattle.facet_block.specs.declared.block.Item.{Sequence};
ghost use Rattle.facet_block.specs.declared.block.ItemKind.{ItemKind};
ghost use Rattle.facet_block.specs.declared.block.Seq.{Seq};
ghost use Rattle.facet_lists.specs.Sequences.{all_blocks, block_of_moved, cut_at, with_last, with_room};

use crate::blocks::{pop_block, push_block};
use facet_block::{Block, PtrConst, PtrMut, PtrUninit};
use std::alloc::AllocError;

/// The number of filled blocks of the sequence at an offset.
pub(crate) fn filled_at<L>(block: &Block<L>, at: usize) -> usize
    requires { item_kind_at block.now at ≡ ItemKind.Sequence }
    ensures { (s : Seq L) → item_at block.now at ≡ Some (Sequence s) → result ≡ length (filled_of s) }
{
    PtrConst::new(block, at).seq().len()
}

/// Exchanges two filled blocks of the sequence at an offset.
pub(crate) fn swap_at<L>(block: &mut Block<L>, at: usize, i: usize, j: usize)
    requires sequence { item_kind_at block.old at ≡ ItemKind.Sequence }
    requires first { (s : Seq L) → item_at block.old at ≡ Some (Sequence s) → i < length (filled_of s) }
    requires second { (s : Seq L) → item_at block.old at ≡ Some (Sequence s) → j < length (filled_of s) }
    ensures { (s : Seq L) → item_at block.old at ≡ Some (Sequence s)
        → block.new ≡ with_item block.old at (Some (Sequence (with_filled s (swap (filled_of s) i j)))) }
{
    let mut place = PtrMut::new(block, at);
    place.seq_mut().swap(i, j);
}

/// Makes the first `n` blocks of the sequence at an offset its filled ones.
pub(crate) fn cut_blocks<L>(block: &mut Block<L>, at: usize, n: usize)
    requires sequence { item_kind_at block.old at ≡ ItemKind.Sequence }
    requires enough { (s : Seq L) → item_at block.old at ≡ Some (Sequence s) → n ≤ length (filled_of s) + length (spare_of s) }
    ensures { (s : Seq L) → item_at block.old at ≡ Some (Sequence s) → block.new ≡ with_item block.old at (Some (Sequence (cut_at n s))) }
{
    let mut place = PtrMut::new(block, at);
    place.seq_mut().set_len(n);
}

/// Makes the spare blocks of the sequence at an offset at least `n`. An error may leave some of the new ones there.
pub(crate) fn reserve_at<L: Drop>(
    block: &mut Block<L>,
    at: usize,
    n: usize,
) -> Result<(), AllocError>
    requires { item_kind_at block.old at ≡ ItemKind.Sequence }
    ensures ok { OnOk result ((s : Seq L) → item_at block.old at ≡ Some (Sequence s) → block.new ≡ with_item block.old at (Some (Sequence (with_room n s)))) }
    ensures err { OnErr result ((s : Seq L) → item_at block.old at ≡ Some (Sequence s)
        → (made : ℕ) × (made + length (spare_of s) < n) × (block.new ≡ with_item block.old at (Some (Sequence (with_new_spare s made))))) }
{
    let mut place = PtrMut::new(block, at);
    place.seq_mut().reserve(n)
}

/// Adds a filled block to the sequence at an offset, into which it moves what lies in as many bytes of another block.
pub(crate) fn push_at<L: Drop>(
    block: &mut Block<L>,
    at: usize,
    source: &mut Block<L>,
    from: usize,
) -> Result<(), AllocError>
    requires sequence { item_kind_at block.old at ≡ ItemKind.Sequence }
    requires empty { (s : Seq L) → item_at block.old at ≡ Some (Sequence s) → All (λ b. b ≡ empty_block (element_size_of s)) (spare_of s) }
    requires inside { (s : Seq L) → item_at block.old at ≡ Some (Sequence s) → from + element_size_of s ≤ size_of source.old }
    ensures pushed { OnOk result ((s : Seq L) → item_at block.old at ≡ Some (Sequence s)
        → block.new ≡ with_item block.old at (Some (Sequence (with_last (with_room 1 s) (block_of_moved (element_size_of s) source.old from))))) }
    ensures moved { OnOk result ((s : Seq L) → item_at block.old at ≡ Some (Sequence s) → source.new ≡ moved_out source.old from (element_size_of s)) }
    ensures refused { OnErr result ((s : Seq L) → item_at block.old at ≡ Some (Sequence s) → (spare_of s ≡ []) ⊎ (length (filled_of s) ≡ usize.MAX)) }
    ensures same { OnErr result ((s : Seq L) → item_at block.old at ≡ Some (Sequence s) → block.new ≡ with_item block.old at (Some (Sequence s))) }
    ensures same_source { OnErr result (source.new ≡ source.old) }
{
    let mut place = PtrMut::new(block, at);
    push_block(place.seq_mut(), source, from)
}

/// Moves what the last filled block of the sequence at an offset holds to a place, where nothing lies, and makes that block
/// the first spare one.
pub(crate) fn pop_at<L: Drop>(
    block: &mut Block<L>,
    at: usize,
    last: usize,
    out: &mut PtrUninit<'_, L>,
)
    requires sequence { item_kind_at block.old at ≡ ItemKind.Sequence }
    requires last { (s : Seq L) → item_at block.old at ≡ Some (Sequence s) → length (filled_of s) ≡ last + 1 }
    requires sizes { (s : Seq L) → item_at block.old at ≡ Some (Sequence s) → (b : Block L) → slice_get (filled_of s) last ≡ Some b → size_of b ≡ element_size_of s }
    requires vacant { (s : Seq L) → item_at block.old at ≡ Some (Sequence s) → IsVacant (place_of out.old).block.now (span (place_of out.old).offset (element_size_of s)) }
    ensures popped { (s : Seq L) → item_at block.old at ≡ Some (Sequence s) → (b : Block L) → slice_get (filled_of s) last ≡ Some b
        → block.new ≡ with_item block.old at (Some (Sequence (cut_at last (with_filled s (slice_set (filled_of s) last (moved_out b 0 (element_size_of s))))))) }
    ensures same_reference { (place_of out.new).block.ghost_name ≡ (place_of out.old).block.ghost_name }
    ensures same_offset { (place_of out.new).offset ≡ (place_of out.old).offset }
    ensures moved { (s : Seq L) → item_at block.old at ≡ Some (Sequence s) → (b : Block L) → slice_get (filled_of s) last ≡ Some b
        → (place_of out.new).block.now ≡ moved_in (place_of out.old).block.now (place_of out.old).offset b 0 (element_size_of s) }
{
    let mut place = PtrMut::new(block, at);
    pop_block(place.seq_mut(), last, out);
}
