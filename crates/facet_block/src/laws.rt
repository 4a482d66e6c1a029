ghost use Rattle.std.specs.Prelude.{◌≡◌, ℕ, ◌+◌, ◌<◌, ◌≤◌, Option, None};
ghost use Rattle.facet_block.specs.Block.{size_of, item_at, with_item, moved_in, moved_out};
ghost use Rattle.facet_block.specs.Span.{Span, span, IsApart, IsKept, IsChanged, IsCleared};
ghost use Rattle.facet_block.specs.declared.block.Item.{Item};

use crate::block::Block;
use crate::ptr_uninit::PtrUninit;

/// Puts a leaf at an empty place and reads it: the leaf comes back, and the block is as it was.
pub fn put_and_read<L: Drop>(block: &mut Block<L>, at: usize, leaf: L) -> L
    requires below { at < size_of block.old }
    requires empty { item_at block.old at ≡ None }
    ensures value { result ≡ leaf }
    ensures same { block.new ≡ block.old }
{
    PtrUninit::new(block, at).put(leaf).read()
}

/// The law on one item: the block with another item at an offset holds that item there and else what it held, and
/// the block with none there is cleared there.
pub fn one_item_is_changed<L>(block: &Block<L>, at: usize)
    requires { at < size_of block.now }
    ensures there { (o : Option (Item L)) → item_at (with_item block.now at o) at ≡ o }
    ensures changed { (o : Option (Item L)) → IsChanged block.now (with_item block.now at o) (span at 1) }
    ensures cleared { IsCleared block.now (with_item block.now at None) (span at 1) }
{}

/// The law on moves, byte by byte: what lay in the range of the source lies in the range of the destination, and
/// beside it everything is as it was; the range of the source is cleared.
pub fn ranges_are_moved<L>(
    destination: &Block<L>,
    at: usize,
    source: &Block<L>,
    from: usize,
    size: usize,
)
    requires inside { at + size ≤ size_of destination.now }
    requires source_inside { from + size ≤ size_of source.now }
    ensures arrived { (i : ℕ) → i < size → item_at (moved_in destination.now at source.now from size) (at + i) ≡ item_at source.now (from + i) }
    ensures changed { IsChanged destination.now (moved_in destination.now at source.now from size) (span at size) }
    ensures cleared { IsCleared source.now (moved_out source.now from size) (span from size) }
{}

/// The law on frames: a range that has no byte in common with the one that was changed holds what it held.
pub fn what_is_apart_is_kept<L>()
    ensures { (old new : Block L) (range other : Span) → IsApart range other → IsChanged old new range → IsKept old new other }
{}
