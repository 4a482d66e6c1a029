ghost use Rattle.std.specs.Prelude.{◌≡◌, ◌↔◌, ◌+◌, ◌<◌, ◌≤◌, Some, None, IfOk, IsTrue};
ghost use Rattle.std.specs.Borrow.{sem};
ghost use Rattle.facet_block.specs.Block.{size_of, item_at, item_kind, item_kind_at, empty_block, with_item, moved_in, moved_out};
ghost use Rattle.facet_block.specs.BlockBorrows.{LendsLeaf, LendsSequence, LendsLeafAt, LendsSequenceAt};
ghost use Rattle.facet_block.specs.Span.{span, IsEmptyIn};

use crate::list_vec::ListVec;
use crate::split::Split;
use facet_base::Layout;
use std::alloc::{AllocError, Global};

/// What lies at an offset of a block.
#[cycle(blocks)]
#[derive(Drop)]
pub enum Item<L> {
    /// A scalar.
    Leaf(L),
    /// The index of an enum's variant.
    Tag(u32),
    /// The blocks of the elements of a list.
    Sequence(Seq<L>),
}

/// Which kind of item lies at an offset of a block.
#[derive(Clone, Copy, PartialEq, Eq, Debug)]
pub enum ItemKind {
    Nothing,
    Leaf,
    Tag,
    Sequence,
}

/// Memory for a value: each offset in bytes below its size holds an item or nothing.
#[cycle(blocks)]
#[derive(Drop)]
pub struct Block<L> {
    items: ListVec<Option<Item<L>>>,
}

/// Blocks of `elem_size` bytes: the filled ones, in order, and behind them the spare ones.
#[cycle(blocks)]
#[derive(Drop)]
pub struct Seq<L> {
    pub(crate) element_size: usize,
    pub(crate) blocks: Split<Block<L>>,
}

impl<L> Item<L> {
    // Borrows the leaf that the item is for writing.
    fn leaf_mut(&mut self) -> &mut L
        requires { item_kind (Some self.old) ≡ ItemKind.Leaf }
        ensures* lends { sem 𝓛 (LendsLeaf L.row self.entry result) }
        ensures value { self.old ≡ Item.Leaf result.now }
    {
        match self {
            Item::Leaf(leaf) => leaf,
            _ => unreachable!(),
        }
    }

    // Borrows the sequence that the item is for writing.
    fn sequence_mut(&mut self) -> &mut Seq<L>
        requires { item_kind (Some self.old) ≡ ItemKind.Sequence }
        ensures* lends { sem 𝓛 (LendsSequence L.row self.entry result) }
        ensures value { self.old ≡ Item.Sequence result.now }
    {
        match self {
            Item::Sequence(sequence) => sequence,
            _ => unreachable!(),
        }
    }
}

impl<L: Drop> Block<L> {
    /// A block of `size` bytes with no item. An error comes only when out of memory.
    pub fn new(alloc: Global, size: usize) -> Result<Block<L>, AllocError>
        ensures { IfOk result (λ block. block ≡ empty_block size) }
    {
        let items = ListVec::nones(alloc, size)?;
        Ok(Block { items })
    }

    /// Puts `item` at the offset, and returns what was there.
    pub(crate) fn exchange(&mut self, at: usize, item: Option<Item<L>>) -> Option<Item<L>>
        requires { at < size_of self.old }
        ensures value { result ≡ item_at self.old at }
        ensures block { self.new ≡ with_item self.old at item }
    {
        self.items.replace(at, item)
    }

    /// Moves what lies in `size` bytes of `source`, from the offset `from` on, to the offset `at`.
    pub(crate) fn move_items(&mut self, at: usize, source: &mut Block<L>, from: usize, size: usize)
        requires inside { at + size ≤ size_of self.old }
        requires source_inside { from + size ≤ size_of source.old }
        ensures items { self.new ≡ moved_in self.old at source.old from size }
        ensures source { source.new ≡ moved_out source.old from size }
    {
        // proof: the blocks' sizes are usizes, so the sums below can't overflow
        let _size = self.size();
        let _source_size = source.size();
        for i in 0..size {
            let item = source.exchange(from + i, None);
            self.exchange(at + i, item);
        }
    }
}

impl<L> Block<L> {
    /// The size in bytes.
    pub fn size(&self) -> usize
        ensures { result ≡ size_of self.now }
    {
        self.items.len()
    }

    /// Whether no item lies in the `len` bytes from the offset on. The range may pass the block.
    pub fn is_empty_in(&self, off: usize, len: usize) -> bool
        ensures { IsTrue result ↔ IsEmptyIn self.now (span off len) }
    {
        let end = off.saturating_add(len).min(self.items.len());
        for i in off..end {
            if let Some(Some(_)) = self.items.get(i) {
                return false;
            }
        }
        true
    }

    /// Which kind of item lies at the offset: `Nothing` where none does, and at or above the size.
    pub fn item_at(&self, off: usize) -> ItemKind
        ensures { result ≡ item_kind_at self.now off }
    {
        match self.items.get(off) {
            Some(Some(Item::Leaf(_))) => ItemKind::Leaf,
            Some(Some(Item::Tag(_))) => ItemKind::Tag,
            Some(Some(Item::Sequence(_))) => ItemKind::Sequence,
            _ => ItemKind::Nothing,
        }
    }

    /// The leaf at the offset.
    pub(crate) fn leaf(&self, at: usize) -> &L
        requires { item_kind_at self.now at ≡ ItemKind.Leaf }
        ensures { item_at self.now at ≡ Some (Item.Leaf result.now) }
    {
        match self.items.get(at) {
            Some(Some(Item::Leaf(leaf))) => leaf,
            _ => unreachable!(),
        }
    }

    /// The tag at the offset.
    pub(crate) fn tag(&self, at: usize) -> u32
        requires { item_kind_at self.now at ≡ ItemKind.Tag }
        ensures { item_at self.now at ≡ Some (Item.Tag result) }
    {
        match self.items.get(at) {
            Some(Some(Item::Tag(tag))) => *tag,
            _ => unreachable!(),
        }
    }

    /// The sequence at the offset.
    pub(crate) fn sequence(&self, at: usize) -> &Seq<L>
        requires { item_kind_at self.now at ≡ ItemKind.Sequence }
        ensures { item_at self.now at ≡ Some (Item.Sequence result.now) }
    {
        match self.items.get(at) {
            Some(Some(Item::Sequence(sequence))) => sequence,
            _ => unreachable!(),
        }
    }

    /// Borrows the leaf at the offset for writing.
    pub(crate) fn leaf_mut(&mut self, at: usize) -> &mut L
        requires { item_kind_at self.old at ≡ ItemKind.Leaf }
        ensures* lends { sem 𝓛 (LendsLeafAt L.row self.entry at result) }
        ensures value { item_at self.old at ≡ Some (Item.Leaf result.now) }
    {
        match self.items.get_mut(at) {
            Some(Some(item)) => item.leaf_mut(),
            _ => unreachable!(),
        }
    }

    /// Borrows the sequence at the offset for writing.
    pub(crate) fn sequence_mut(&mut self, at: usize) -> &mut Seq<L>
        requires { item_kind_at self.old at ≡ ItemKind.Sequence }
        ensures* lends { sem 𝓛 (LendsSequenceAt L.row self.entry at result) }
        ensures value { item_at self.old at ≡ Some (Item.Sequence result.now) }
    {
        match self.items.get_mut(at) {
            Some(Some(item)) => item.sequence_mut(),
            _ => unreachable!(),
        }
    }
}

/// A block with no item, of the layout's size. An error comes only when out of memory.
pub fn alloc_for_layout<L: Drop>(alloc: Global, layout: Layout) -> Result<Block<L>, AllocError>
    ensures { IfOk result (λ block. block ≡ empty_block layout.size) }
{
    Block::new(alloc, layout.size)
}

/// Frees the memory of a block, in which no item lies.
pub fn dealloc_for_layout<L: Drop>(block: Block<L>)
    requires { IsEmptyIn block (span 0 (size_of block)) }
{
    drop(block);
}
