ghost use Rattle.std.specs.Prelude.{◌≡◌, ◌↔◌, ◌+◌, ◌-◌, ◌<◌, ◌≤◌, length, slice_get, Some, None, IsTrue};
ghost use Rattle.facet_block.specs.Block.{size_of, item_at, item_kind_at, with_item, moved_in, moved_out};
ghost use Rattle.facet_block.specs.Seq.{spare_of, element_size_of};
ghost use Rattle.facet_block.specs.Span.{span, IsVacant, IsEmptyIn};
ghost use Rattle.facet_block.specs.declared.block.Block.{Block};
ghost use Rattle.facet_block.specs.declared.block.Item.{Leaf, Tag};
ghost use Rattle.facet_block.specs.declared.block.ItemKind.{ItemKind};

use facet_block::{Block, PtrConst, PtrMut, PtrUninit, Seq};

/// Puts a leaf at an empty place, and reads it through the pointer that comes back.
pub fn put_and_get<L: Drop + Copy>(block: &mut Block<L>, at: usize, leaf: L) -> L
    requires below { at < size_of block.old }
    requires empty { item_at block.old at ≡ None }
    ensures value { result ≡ leaf }
    ensures holds { block.new ≡ with_item block.old at (Some (Leaf leaf)) }
{
    let place = PtrUninit::new(block, at).put(leaf);
    *place.get()
}

/// Puts a leaf at the empty place `n` bytes behind an offset, and returns the offset of the leaf.
pub fn put_further<L: Drop>(block: &mut Block<L>, at: usize, n: usize, leaf: L) -> usize
    requires below { at + n < size_of block.old }
    requires empty { item_at block.old (at + n) ≡ None }
    ensures value { result ≡ at + n }
    ensures puts { block.new ≡ with_item block.old (at + n) (Some (Leaf leaf)) }
{
    let place = PtrUninit::new(block, at).field_uninit(n);
    let offset = place.offset();
    place.put(leaf);
    offset
}

/// Takes the leaf `n` bytes behind an offset out, and returns its offset too.
pub fn take_further<L: Drop>(block: &mut Block<L>, at: usize, n: usize) -> (usize, L)
    requires below { at + n < size_of block.old }
    requires leaf { item_kind_at block.old (at + n) ≡ ItemKind.Leaf }
    ensures offset { result.0 ≡ at + n }
    ensures value { item_at block.old (at + n) ≡ Some (Leaf result.1) }
    ensures empties { block.new ≡ with_item block.old (at + n) None }
{
    let place = PtrUninit::new(block, at).field_init(n);
    let offset = place.offset();
    (offset, place.read())
}

/// Puts another tag at a place, by a borrow of one pointer and then by the pointer itself.
#[tactic(auto, using(facet_block::proofs::ItemChanges::with_item_twice))]
pub fn retag_by_borrows<L: Drop>(block: &mut Block<L>, at: usize, tag: u32)
    requires { item_kind_at block.old at ≡ ItemKind.Tag }
    ensures { block.new ≡ with_item block.old at (Some (Tag tag)) }
{
    let mut place = PtrMut::new(block, at);
    place.reborrow().take_tag();
    place.as_uninit().put_tag(tag);
}

/// Moves the items of a range of one block to another.
pub fn move_range<L: Drop>(
    target: &mut Block<L>,
    at: usize,
    source: &mut Block<L>,
    from: usize,
    size: usize,
)
    requires vacant { IsVacant target.old (span at size) }
    requires inside { from + size ≤ size_of source.old }
    ensures target { target.new ≡ moved_in target.old at source.old from size }
    ensures source { source.new ≡ moved_out source.old from size }
{
    PtrUninit::new(target, at).move_from(PtrMut::new(source, from), size);
}

/// How many bytes of the block lie from the place on.
pub fn size_behind<L>(place: PtrConst<'_, L>) -> usize
    requires { place.offset ≤ size_of place.block.now }
    ensures { result ≡ size_of place.entry.block.now - place.entry.offset }
{
    place.block().size() - place.offset()
}

/// Whether no item lies in spare block `j`.
pub fn is_slot_empty<L>(sequence: &Seq<L>, j: usize) -> bool
    requires { j < length (spare_of sequence.now) }
    ensures { (b : Block L) → slice_get (spare_of sequence.now) j ≡ Some b
        → IsTrue result ↔ IsEmptyIn b (span 0 (size_of b)) }
{
    let block = sequence.slot(j);
    block.is_empty_in(0, block.size())
}
