ghost use Rattle.std.specs.Prelude.{◌≡◌, ◌+◌, ◌<◌, ◌≤◌, Some, None};
ghost use Rattle.facet_block.specs.Block.{size_of, item_at, with_item, moved_in, moved_out};
ghost use Rattle.facet_block.specs.PtrMut.{with_item_past};
ghost use Rattle.facet_block.specs.Span.{span, IsVacant};
ghost use Rattle.facet_block.specs.PtrUninit.{place_of};
ghost use Rattle.facet_block.specs.declared.block.Item.{Leaf, Tag, Sequence};

use crate::block::{Block, Item, Seq};
use crate::ptr_mut::PtrMut;

/// A type without a value.
#[derive(Drop)]
pub enum Never {}

/// A place in a block that is borrowed to be filled. It is always `At`: the second variant has no value, and is there
/// so that a caller learns what became of the block through a call that turns one kind of pointer into another.
#[derive(Drop)]
pub enum PtrUninit<'a, L> {
    At(PtrMut<'a, L>),
    Not(Never),
}

impl<'a, L> PtrUninit<'a, L> {
    /// The place at the offset in bytes, which may be the block's end.
    pub fn new(block: &'a mut Block<L>, offset: usize) -> PtrUninit<'a, L>
        requires { offset ≤ size_of block.old }
        ensures same_block { (place_of result).block ≡ block.entry }
        ensures offset { (place_of result).offset ≡ offset }
    {
        PtrUninit::At(PtrMut { block, offset })
    }

    /// The offset in bytes.
    pub fn offset(&self) -> usize
        ensures { result ≡ (place_of self.now).offset }
    {
        match self {
            PtrUninit::At(place) => place.offset,
            PtrUninit::Not(never) => match *never {},
        }
    }

    /// The same place, for reading and writing.
    pub fn assume_init(self) -> PtrMut<'a, L>
        ensures { result ≡ place_of self.entry }
    {
        match self {
            PtrUninit::At(place) => place,
            PtrUninit::Not(never) => match never {},
        }
    }

    /// The place `n` bytes further, to be filled, which may be the block's end.
    pub fn field_uninit(self, n: usize) -> PtrUninit<'a, L>
        requires { (place_of self).offset + n ≤ size_of (place_of self).block.now }
        ensures same_block { (place_of result).block ≡ (place_of self.entry).block }
        ensures offset { (place_of result).offset ≡ (place_of self.entry).offset + n }
    {
        PtrUninit::At(self.assume_init().field(n))
    }

    /// The place `n` bytes further, for reading and writing, which may be the block's end.
    pub fn field_init(self, n: usize) -> PtrMut<'a, L>
        requires { (place_of self).offset + n ≤ size_of (place_of self).block.now }
        ensures same_block { result.block ≡ (place_of self.entry).block }
        ensures offset { result.offset ≡ (place_of self.entry).offset + n }
    {
        self.assume_init().field(n)
    }
}

impl<'a, L: Drop> PtrUninit<'a, L> {
    // Puts an item at the empty place, and returns the place for reading and writing.
    fn fill(self, item: Item<L>) -> PtrMut<'a, L>
        requires below { (place_of self).offset < size_of (place_of self).block.now }
        requires empty { item_at (place_of self).block.now (place_of self).offset ≡ None }
        ensures same_block { result.block.ghost_name ≡ (place_of self.entry).block.ghost_name }
        ensures offset { result.offset ≡ (place_of self.entry).offset }
        ensures block { result.block.now ≡ with_item (place_of self.entry).block.now (place_of self.entry).offset (Some item) }
    {
        let mut place = self.assume_init();
        place.fill_at(0, item);
        place
    }

    /// Puts a leaf at the empty place, and returns the place for reading and writing.
    pub fn put(self, leaf: L) -> PtrMut<'a, L>
        requires below { (place_of self).offset < size_of (place_of self).block.now }
        requires empty { item_at (place_of self).block.now (place_of self).offset ≡ None }
        ensures same_block { result.block.ghost_name ≡ (place_of self.entry).block.ghost_name }
        ensures offset { result.offset ≡ (place_of self.entry).offset }
        ensures block { result.block.now ≡ with_item (place_of self.entry).block.now (place_of self.entry).offset (Some (Leaf leaf)) }
    {
        self.fill(Item::Leaf(leaf))
    }

    /// Puts a tag at the empty place, and returns the place for reading and writing.
    pub fn put_tag(self, n: u32) -> PtrMut<'a, L>
        requires below { (place_of self).offset < size_of (place_of self).block.now }
        requires empty { item_at (place_of self).block.now (place_of self).offset ≡ None }
        ensures same_block { result.block.ghost_name ≡ (place_of self.entry).block.ghost_name }
        ensures offset { result.offset ≡ (place_of self.entry).offset }
        ensures block { result.block.now ≡ with_item (place_of self.entry).block.now (place_of self.entry).offset (Some (Tag n)) }
    {
        self.fill(Item::Tag(n))
    }

    /// Puts a sequence at the empty place, and returns the place for reading and writing.
    pub fn put_seq(self, s: Seq<L>) -> PtrMut<'a, L>
        requires below { (place_of self).offset < size_of (place_of self).block.now }
        requires empty { item_at (place_of self).block.now (place_of self).offset ≡ None }
        ensures same_block { result.block.ghost_name ≡ (place_of self.entry).block.ghost_name }
        ensures offset { result.offset ≡ (place_of self.entry).offset }
        ensures block { result.block.now ≡ with_item (place_of self.entry).block.now (place_of self.entry).offset (Some (Sequence s)) }
    {
        self.fill(Item::Sequence(s))
    }

    // Puts an item at the empty place `n` bytes further.
    fn fill_at(&mut self, n: usize, item: Item<L>)
        requires below { (place_of self.old).offset + n < size_of (place_of self.old).block.now }
        requires empty { item_at (place_of self.old).block.now ((place_of self.old).offset + n) ≡ None }
        ensures same_reference { (place_of self.new).block.ghost_name ≡ (place_of self.old).block.ghost_name }
        ensures same_size { size_of (place_of self.new).block.now ≡ size_of (place_of self.old).block.now }
        ensures puts { place_of self.new ≡ with_item_past (place_of self.old) n item }
    {
        match self {
            PtrUninit::At(place) => place.fill_at(n, item),
            PtrUninit::Not(never) => match *never {},
        }
    }

    /// Puts a leaf at the empty place `n` bytes further.
    pub fn put_at(&mut self, n: usize, leaf: L)
        requires below { (place_of self.old).offset + n < size_of (place_of self.old).block.now }
        requires empty { item_at (place_of self.old).block.now ((place_of self.old).offset + n) ≡ None }
        ensures same_reference { (place_of self.new).block.ghost_name ≡ (place_of self.old).block.ghost_name }
        ensures same_size { size_of (place_of self.new).block.now ≡ size_of (place_of self.old).block.now }
        ensures puts { place_of self.new ≡ with_item_past (place_of self.old) n (Leaf leaf) }
    {
        self.fill_at(n, Item::Leaf(leaf));
    }

    /// Puts a tag at the empty place `n` bytes further.
    pub fn put_tag_at(&mut self, n: usize, tag: u32)
        requires below { (place_of self.old).offset + n < size_of (place_of self.old).block.now }
        requires empty { item_at (place_of self.old).block.now ((place_of self.old).offset + n) ≡ None }
        ensures same_reference { (place_of self.new).block.ghost_name ≡ (place_of self.old).block.ghost_name }
        ensures same_size { size_of (place_of self.new).block.now ≡ size_of (place_of self.old).block.now }
        ensures puts { place_of self.new ≡ with_item_past (place_of self.old) n (Tag tag) }
    {
        self.fill_at(n, Item::Tag(tag));
    }

    /// Puts a sequence at the empty place `n` bytes further.
    pub fn put_seq_at(&mut self, n: usize, s: Seq<L>)
        requires below { (place_of self.old).offset + n < size_of (place_of self.old).block.now }
        requires empty { item_at (place_of self.old).block.now ((place_of self.old).offset + n) ≡ None }
        ensures same_reference { (place_of self.new).block.ghost_name ≡ (place_of self.old).block.ghost_name }
        ensures same_size { size_of (place_of self.new).block.now ≡ size_of (place_of self.old).block.now }
        ensures puts { place_of self.new ≡ with_item_past (place_of self.old) n (Sequence s) }
    {
        self.fill_at(n, Item::Sequence(s));
    }

    /// Moves what lies in `size` bytes at `src` to here, where nothing lies, and returns the place for reading and
    /// writing. The bytes at `src` are empty afterwards.
    pub fn move_from(self, src: PtrMut<'_, L>, size: usize) -> PtrMut<'a, L>
        requires vacant { IsVacant (place_of self).block.now (span (place_of self).offset size) }
        requires source_inside { src.offset + size ≤ size_of src.block.now }
        ensures same_block { result.block.ghost_name ≡ (place_of self.entry).block.ghost_name }
        ensures offset { result.offset ≡ (place_of self.entry).offset }
        ensures block { result.block.now ≡ moved_in (place_of self.entry).block.now (place_of self.entry).offset src.entry.block.now src.entry.offset size }
        ensures source { src.exit.0.now ≡ moved_out src.entry.block.now src.entry.offset size }
    {
        let PtrMut { block, offset } = self.assume_init();
        let PtrMut {
            block: source,
            offset: from,
        } = src;
        block.move_items(offset, source, from, size);
        PtrMut { block, offset }
    }
}
