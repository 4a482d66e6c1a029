ghost use Rattle.std.specs.Prelude.{◌≡◌, ◌+◌, ◌<◌, [], ◌++◌, Some, None};
ghost use Rattle.facet_block.specs.Block.{size_of, item_at, item_kind_at, with_item};
ghost use Rattle.facet_block.specs.Seq.{filled_of, spare_of, element_size_of, make_seq};
ghost use Rattle.facet_block.specs.PtrMut.{with_item_past};
ghost use Rattle.facet_block.specs.declared.block.Item.{Leaf, Tag, Sequence};
ghost use Rattle.facet_block.specs.declared.block.ItemKind.{ItemKind};
ghost use Rattle.facet_block.specs.declared.block.Seq.{Seq};

use facet_block::{Block, PtrMut, PtrUninit, Seq};

/// Fills a leaf, and a tag 4 bytes behind it.
pub fn fill_two<L: Drop>(block: &mut Block<L>, at: usize, leaf: L, tag: u32)
    requires below { at + 4 < size_of block.old }
    requires empty { item_at block.old at ≡ None }
    requires empty_next { item_at block.old (at + 4) ≡ None }
    ensures same_size { size_of block.new ≡ size_of block.old }
    ensures fills { block.new ≡ with_item (with_item block.old at (Some (Leaf leaf))) (at + 4) (Some (Tag tag)) }
{
    let mut place = PtrMut::new(block, at);
    place.put_at(0, leaf);
    place.put_tag_at(4, tag);
}

/// Fills both through a borrowed pointer.
pub fn fill_two_borrowed<L: Drop>(place: &mut PtrMut<'_, L>, leaf: L, tag: u32)
    requires below { place.old.offset + 4 < size_of place.old.block.now }
    requires empty { item_at place.old.block.now place.old.offset ≡ None }
    requires empty_next { item_at place.old.block.now (place.old.offset + 4) ≡ None }
    ensures { place.new ≡ with_item_past (with_item_past place.old 0 (Leaf leaf)) 4 (Tag tag) }
{
    place.put_at(0, leaf);
    place.put_tag_at(4, tag);
}

/// Fills both through a `PtrUninit`, the leaf last, by a call that takes the pointer by value.
pub fn fill_two_uninit<L: Drop>(block: &mut Block<L>, at: usize, leaf: L, tag: u32)
    requires below { at + 4 < size_of block.old }
    requires empty { item_at block.old at ≡ None }
    requires empty_next { item_at block.old (at + 4) ≡ None }
    ensures { block.new ≡ with_item (with_item block.old (at + 4) (Some (Tag tag))) at (Some (Leaf leaf)) }
{
    let mut place = PtrMut::new(block, at).as_uninit();
    place.put_tag_at(4, tag);
    place.put(leaf);
}

/// Fills both through a `PtrUninit`, and reads the tag through the pointer that it becomes.
pub fn fill_two_assumed<L: Drop>(block: &mut Block<L>, at: usize, leaf: L, tag: u32) -> u32
    requires below { at + 4 < size_of block.old }
    requires empty { item_at block.old at ≡ None }
    requires empty_next { item_at block.old (at + 4) ≡ None }
    ensures value { result ≡ tag }
    ensures fills { block.new ≡ with_item (with_item block.old at (Some (Leaf leaf))) (at + 4) (Some (Tag tag)) }
{
    let mut place = PtrUninit::new(block, at);
    place.put_at(0, leaf);
    place.put_tag_at(4, tag);
    place.assume_init().field(4).as_const().tag()
}

/// Fills both, and reads both through one pointer.
pub fn fill_and_read<L: Drop + Copy>(block: &mut Block<L>, at: usize, leaf: L, tag: u32) -> (L, u32)
    requires below { at + 4 < size_of block.old }
    requires empty { item_at block.old at ≡ None }
    requires empty_next { item_at block.old (at + 4) ≡ None }
    ensures value { result ≡ (leaf, tag) }
    ensures fills { block.new ≡ with_item (with_item block.old at (Some (Leaf leaf))) (at + 4) (Some (Tag tag)) }
{
    let mut place = PtrMut::new(block, at);
    place.put_at(0, leaf);
    place.put_tag_at(4, tag);
    let seen = *place.as_const().get();
    let tag = place.as_const().field(4).tag();
    (seen, tag)
}

/// Fills both, and takes both out again: the block is as it was.
#[tactic(auto, using(facet_block::proofs::ItemChanges::with_item_back, facet_block::proofs::Ranges::item_elsewhere))]
pub fn fill_and_take<L: Drop>(block: &mut Block<L>, at: usize, leaf: L, tag: u32) -> (L, u32)
    requires below { at + 4 < size_of block.old }
    requires empty { item_at block.old at ≡ None }
    requires empty_next { item_at block.old (at + 4) ≡ None }
    ensures value { result ≡ (leaf, tag) }
    ensures same { block.new ≡ block.old }
{
    let mut place = PtrMut::new(block, at);
    place.put_at(0, leaf);
    place.put_tag_at(4, tag);
    let tag = place.field_mut(4).take_tag();
    let leaf = place.field_mut(0).read();
    (leaf, tag)
}

/// Fills both where a pointer that is passed by value points. It is taken apart first.
pub fn fill_given<L: Drop>(place: PtrMut<'_, L>, leaf: L, tag: u32)
    requires below { place.offset + 4 < size_of place.block.now }
    requires empty { item_at place.block.now place.offset ≡ None }
    requires empty_next { item_at place.block.now (place.offset + 4) ≡ None }
    ensures { place.exit.0.now ≡ with_item (with_item place.entry.block.now place.entry.offset (Some (Leaf leaf))) (place.entry.offset + 4) (Some (Tag tag)) }
{
    let PtrMut { block, offset } = place;
    fill_two(block, offset, leaf, tag);
}

/// Fills a struct that is the field at 4 of another, and then a tag at 12 of that other.
pub fn fill_nested<L: Drop>(block: &mut Block<L>, at: usize, leaf: L, tag: u32)
    requires below { at + 12 < size_of block.old }
    requires empty { item_at block.old (at + 4) ≡ None }
    requires empty_next { item_at block.old (at + 4 + 4) ≡ None }
    requires empty_last { item_at block.old (at + 12) ≡ None }
    ensures { block.new ≡ with_item (with_item (with_item block.old (at + 4) (Some (Leaf leaf))) (at + 4 + 4) (Some (Tag tag))) (at + 12) (Some (Tag tag)) }
{
    let mut place = PtrMut::new(block, at);
    fill_given(place.field_mut(4), leaf, tag);
    place.put_tag_at(12, tag);
}

/// Replaces the leaf `n` bytes behind an offset.
pub fn replace_field<L: Drop>(block: &mut Block<L>, at: usize, n: usize, leaf: L) -> L
    requires below { at + n < size_of block.old }
    requires leaf { item_kind_at block.old (at + n) ≡ ItemKind.Leaf }
    ensures value { item_at block.old (at + n) ≡ Some (Leaf result) }
    ensures puts { block.new ≡ with_item block.old (at + n) (Some (Leaf leaf)) }
{
    let mut place = PtrMut::new(block, at);
    place.field_mut(n).replace(leaf)
}

/// Makes all blocks of the sequence `n` bytes behind an offset its spare ones.
pub fn empty_sequence<L: Drop>(block: &mut Block<L>, at: usize, n: usize)
    requires below { at + n < size_of block.old }
    requires sequence { item_kind_at block.old (at + n) ≡ ItemKind.Sequence }
    ensures { (s : Seq L) → item_at block.old (at + n) ≡ Some (Sequence s) → block.new ≡ with_item block.old (at + n)
        (Some (Sequence (make_seq (element_size_of s) [] (filled_of s ++ spare_of s)))) }
{
    let mut place = PtrMut::new(block, at);
    place.seq_mut_at(n).set_len(0);
}

/// Fills a tag, and a sequence 8 bytes behind it.
pub fn fill_sequence<L: Drop>(block: &mut Block<L>, at: usize, tag: u32, sequence: Seq<L>)
    requires below { at + 8 < size_of block.old }
    requires empty { item_at block.old at ≡ None }
    requires empty_next { item_at block.old (at + 8) ≡ None }
    ensures { block.new ≡ with_item (with_item block.old at (Some (Tag tag))) (at + 8) (Some (Sequence sequence)) }
{
    let mut place = PtrMut::new(block, at);
    place.put_tag_at(0, tag);
    place.put_seq_at(8, sequence);
}
