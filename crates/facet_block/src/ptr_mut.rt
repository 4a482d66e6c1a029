ghost use Rattle.std.specs.Prelude.{◌≡◌, [], ◌∷◌, ◌++◌, ◌+◌, ◌<◌, ◌≤◌, Some, None};
ghost use Rattle.std.specs.Borrow.{sem};
ghost use Rattle.facet_block.specs.Block.{size_of, item_at, item_kind, item_kind_at, with_item};
ghost use Rattle.facet_block.specs.BlockBorrows.{LendsSequenceAt};
ghost use Rattle.facet_block.specs.PtrMut.{with_item_past, LendsPointedBlock, LendsPointedLeaf, LendsPointedSequence, LendsSequencePast};
ghost use Rattle.facet_block.specs.PtrUninit.{place_of};
ghost use Rattle.facet_block.specs.declared.block.Item.{Leaf, Tag, Sequence};
ghost use Rattle.facet_block.specs.declared.block.ItemKind.{ItemKind};

use crate::block::{Block, Item, Seq};
use crate::drop_log::DropLog;
use crate::ptr_const::PtrConst;
use crate::ptr_uninit::PtrUninit;

/// A place in a block that is borrowed for reading and writing: the block, and the offset in bytes.
#[derive(Drop)]
pub struct PtrMut<'a, L> {
    pub block: &'a mut Block<L>,
    pub offset: usize,
}

impl<'a, L> PtrMut<'a, L> {
    /// The place at the offset in bytes, which may be the block's end.
    pub fn new(block: &'a mut Block<L>, offset: usize) -> PtrMut<'a, L>
        requires { offset ≤ size_of block.old }
        ensures same_block { result.block ≡ block.entry }
        ensures offset { result.offset ≡ offset }
    {
        PtrMut { block, offset }
    }

    /// The offset in bytes.
    pub fn offset(&self) -> usize
        ensures { result ≡ self.now.offset }
    {
        self.offset
    }

    /// The place `n` bytes further, which may be the block's end.
    pub fn field(self, n: usize) -> PtrMut<'a, L>
        requires { self.offset + n ≤ size_of self.block.now }
        ensures same_block { result.block ≡ self.entry.block }
        ensures offset { result.offset ≡ self.entry.offset + n }
    {
        let PtrMut { block, offset } = self;
        // proof: the block's size is a usize, so the sum below can't overflow
        let _size = block.size();
        PtrMut {
            block,
            offset: offset + n,
        }
    }

    /// The same place, for reading.
    pub fn as_const(&self) -> PtrConst<'_, L>
        ensures same_block { result.block.now ≡ self.now.block.now }
        ensures offset { result.offset ≡ self.now.offset }
    {
        let offset = self.offset;
        let block = &*self.block;
        PtrConst { block, offset }
    }

    /// The same place, to be filled.
    pub fn as_uninit(self) -> PtrUninit<'a, L>
        ensures { place_of result ≡ self.entry }
    {
        PtrUninit::At(self)
    }

    /// The same place, for as long as this one is borrowed.
    pub fn reborrow(&mut self) -> PtrMut<'_, L>
        ensures* lends { sem 𝓛 (LendsPointedBlock L.row self.entry result.block) }
        ensures same_block { result.block.now ≡ self.old.block.now }
        ensures offset { result.offset ≡ self.old.offset }
    {
        let offset = self.offset;
        let block = &mut *self.block;
        PtrMut { block, offset }
    }

    /// The place `n` bytes further, which may be the block's end, for as long as this one is borrowed.
    pub fn field_mut(&mut self, n: usize) -> PtrMut<'_, L>
        requires { self.old.offset + n ≤ size_of self.old.block.now }
        ensures* lends { sem 𝓛 (LendsPointedBlock L.row self.entry result.block) }
        ensures same_block { result.block.now ≡ self.old.block.now }
        ensures offset { result.offset ≡ self.old.offset + n }
    {
        // proof: the block's size is a usize, so the sum below can't overflow
        let _size = self.block.size();
        let offset = self.offset + n;
        let block = &mut *self.block;
        PtrMut { block, offset }
    }

    /// The leaf at the place.
    pub fn get(&self) -> &L
        requires { item_kind_at self.now.block.now self.now.offset ≡ ItemKind.Leaf }
        ensures { item_at self.now.block.now self.now.offset ≡ Some (Leaf result.now) }
    {
        self.block.leaf(self.offset)
    }

    /// The tag at the place.
    pub fn tag(&self) -> u32
        requires { item_kind_at self.now.block.now self.now.offset ≡ ItemKind.Tag }
        ensures { item_at self.now.block.now self.now.offset ≡ Some (Tag result) }
    {
        self.block.tag(self.offset)
    }

    /// The sequence at the place.
    pub fn seq(&self) -> &Seq<L>
        requires { item_kind_at self.now.block.now self.now.offset ≡ ItemKind.Sequence }
        ensures { item_at self.now.block.now self.now.offset ≡ Some (Sequence result.now) }
    {
        self.block.sequence(self.offset)
    }

    /// Borrows the leaf at the place for writing.
    pub fn as_mut(&mut self) -> &mut L
        requires { item_kind_at self.old.block.now self.old.offset ≡ ItemKind.Leaf }
        ensures* lends { sem 𝓛 (LendsPointedLeaf L.row self.entry result) }
        ensures value { item_at self.old.block.now self.old.offset ≡ Some (Leaf result.now) }
    {
        let at = self.offset;
        self.block.leaf_mut(at)
    }

    /// Borrows the sequence at the place for writing.
    pub fn seq_mut(&mut self) -> &mut Seq<L>
        requires { item_kind_at self.old.block.now self.old.offset ≡ ItemKind.Sequence }
        ensures* lends { sem 𝓛 (LendsPointedSequence L.row self.entry result) }
        ensures value { item_at self.old.block.now self.old.offset ≡ Some (Sequence result.now) }
    {
        let at = self.offset;
        self.block.sequence_mut(at)
    }

    /// Borrows the sequence `n` bytes further for writing.
    pub fn seq_mut_at(&mut self, n: usize) -> &mut Seq<L>
        requires below { self.old.offset + n < size_of self.old.block.now }
        requires sequence { item_kind_at self.old.block.now (self.old.offset + n) ≡ ItemKind.Sequence }
        ensures* lends { sem 𝓛 (LendsSequencePast L.row self.entry n result) }
        ensures value { item_at self.old.block.now (self.old.offset + n) ≡ Some (Sequence result.now) }
    {
        // proof: the block's size is a usize, so the sum below can't overflow
        let _size = self.block.size();
        let at = self.offset + n;
        self.block.sequence_mut(at)
    }

    /// Borrows the sequence at the place for writing, for as long as the block is borrowed.
    pub fn into_seq(self) -> &'a mut Seq<L>
        requires { item_kind_at self.block.now self.offset ≡ ItemKind.Sequence }
        ensures* lends { sem 𝓛 (LendsSequenceAt L.row self.entry.block self.entry.offset result) }
        ensures value { item_at self.entry.block.now self.entry.offset ≡ Some (Sequence result.now) }
    {
        let PtrMut { block, offset } = self;
        block.sequence_mut(offset)
    }
}

impl<'a, L: Drop> PtrMut<'a, L> {
    // Takes the item out of the place, and puts another or none there.
    fn exchange(self, item: Option<Item<L>>) -> Option<Item<L>>
        requires { self.offset < size_of self.block.now }
        ensures value { result ≡ item_at self.entry.block.now self.entry.offset }
        ensures block { self.exit.0.now ≡ with_item self.entry.block.now self.entry.offset item }
    {
        let PtrMut { block, offset } = self;
        block.exchange(offset, item)
    }

    /// Takes the leaf out of the place, which is empty afterwards.
    pub fn read(self) -> L
        requires { item_kind_at self.block.now self.offset ≡ ItemKind.Leaf }
        ensures value { item_at self.entry.block.now self.entry.offset ≡ Some (Leaf result) }
        ensures empties { self.exit.0.now ≡ with_item self.entry.block.now self.entry.offset None }
    {
        leaf_in(self.exchange(None))
    }

    /// Takes the tag out of the place, which is empty afterwards.
    pub fn take_tag(self) -> u32
        requires { item_kind_at self.block.now self.offset ≡ ItemKind.Tag }
        ensures value { item_at self.entry.block.now self.entry.offset ≡ Some (Tag result) }
        ensures empties { self.exit.0.now ≡ with_item self.entry.block.now self.entry.offset None }
    {
        match self.exchange(None) {
            Some(Item::Tag(tag)) => tag,
            _ => unreachable!(),
        }
    }

    /// Takes the sequence out of the place, which is empty afterwards.
    pub fn take_seq(self) -> Seq<L>
        requires { item_kind_at self.block.now self.offset ≡ ItemKind.Sequence }
        ensures value { item_at self.entry.block.now self.entry.offset ≡ Some (Sequence result) }
        ensures empties { self.exit.0.now ≡ with_item self.entry.block.now self.entry.offset None }
    {
        match self.exchange(None) {
            Some(Item::Sequence(sequence)) => sequence,
            _ => unreachable!(),
        }
    }

    /// Puts the leaf at the place, and returns the one that was there.
    pub fn replace(self, leaf: L) -> L
        requires { item_kind_at self.block.now self.offset ≡ ItemKind.Leaf }
        ensures value { item_at self.entry.block.now self.entry.offset ≡ Some (Leaf result) }
        ensures puts { self.exit.0.now ≡ with_item self.entry.block.now self.entry.offset (Some (Leaf leaf)) }
    {
        leaf_in(self.exchange(Some(Item::Leaf(leaf))))
    }

    /// Moves the leaf at the place to the end of the log. The place is empty afterwards.
    pub fn drop_in_place(self, log: &mut DropLog<L>)
        requires leaf { item_kind_at self.block.now self.offset ≡ ItemKind.Leaf }
        requires room { 0 < log.old.spare }
        ensures logs { (leaf : L) → item_at self.entry.block.now self.entry.offset ≡ Some (Leaf leaf)
            → log.new.leaves ≡ log.old.leaves ++ leaf ∷ [] }
        ensures spare { log.old.spare ≤ log.new.spare + 1 }
        ensures empties { self.exit.0.now ≡ with_item self.entry.block.now self.entry.offset None }
    {
        log.push(self.read());
    }

    /// Puts an item at the empty place `n` bytes further.
    pub(crate) fn fill_at(&mut self, n: usize, item: Item<L>)
        requires below { self.old.offset + n < size_of self.old.block.now }
        requires empty { item_at self.old.block.now (self.old.offset + n) ≡ None }
        ensures same_reference { self.new.block.ghost_name ≡ self.old.block.ghost_name }
        ensures same_size { size_of self.new.block.now ≡ size_of self.old.block.now }
        ensures puts { self.new ≡ with_item_past self.old n item }
    {
        // proof: the block's size is a usize, so the sum below can't overflow
        let _size = self.block.size();
        let at = self.offset + n;
        self.block.exchange(at, Some(item));
    }

    /// Puts a leaf at the empty place `n` bytes further.
    pub fn put_at(&mut self, n: usize, leaf: L)
        requires below { self.old.offset + n < size_of self.old.block.now }
        requires empty { item_at self.old.block.now (self.old.offset + n) ≡ None }
        ensures same_reference { self.new.block.ghost_name ≡ self.old.block.ghost_name }
        ensures same_size { size_of self.new.block.now ≡ size_of self.old.block.now }
        ensures puts { self.new ≡ with_item_past self.old n (Leaf leaf) }
    {
        self.fill_at(n, Item::Leaf(leaf));
    }

    /// Puts a tag at the empty place `n` bytes further.
    pub fn put_tag_at(&mut self, n: usize, tag: u32)
        requires below { self.old.offset + n < size_of self.old.block.now }
        requires empty { item_at self.old.block.now (self.old.offset + n) ≡ None }
        ensures same_reference { self.new.block.ghost_name ≡ self.old.block.ghost_name }
        ensures same_size { size_of self.new.block.now ≡ size_of self.old.block.now }
        ensures puts { self.new ≡ with_item_past self.old n (Tag tag) }
    {
        self.fill_at(n, Item::Tag(tag));
    }

    /// Puts a sequence at the empty place `n` bytes further.
    pub fn put_seq_at(&mut self, n: usize, s: Seq<L>)
        requires below { self.old.offset + n < size_of self.old.block.now }
        requires empty { item_at self.old.block.now (self.old.offset + n) ≡ None }
        ensures same_reference { self.new.block.ghost_name ≡ self.old.block.ghost_name }
        ensures same_size { size_of self.new.block.now ≡ size_of self.old.block.now }
        ensures puts { self.new ≡ with_item_past self.old n (Sequence s) }
    {
        self.fill_at(n, Item::Sequence(s));
    }
}

// The leaf that an item is.
fn leaf_in<L: Drop>(item: Option<Item<L>>) -> L
    requires { item_kind item ≡ ItemKind.Leaf }
    ensures { item ≡ Some (Leaf result) }
{
    match item {
        Some(Item::Leaf(leaf)) => leaf,
        _ => unreachable!(),
    }
}
