ghost use Rattle.std.specs.Prelude.{◌≡◌, ◌+◌, ◌≤◌, Some};
ghost use Rattle.facet_block.specs.Block.{size_of, item_at, item_kind_at};
ghost use Rattle.facet_block.specs.declared.block.Item.{Leaf, Tag, Sequence};
ghost use Rattle.facet_block.specs.declared.block.ItemKind.{ItemKind};

use crate::block::{Block, Seq};
use std::alloc::AllocError;

/// A place in a block that is borrowed for reading: the block, and the offset in bytes.
pub struct PtrConst<'a, L> {
    pub block: &'a Block<L>,
    pub offset: usize,
}

impl<'a, L> Clone for PtrConst<'a, L> {
    ghost use Rattle.std.specs.Prelude.{◌≡◌, ⊤};

    ghost is_clone = { λ place copy. copy ≡ place };

    ghost is_infallible = { λ _. ⊤ };

    fn clone(&self) -> Result<PtrConst<'a, L>, AllocError> {
        Ok(*self)
    }
}

impl<'a, L> Copy for PtrConst<'a, L> {}

impl<'a, L> PtrConst<'a, L> {
    /// The place at the offset in bytes, which may be the block's end.
    pub fn new(block: &'a Block<L>, offset: usize) -> PtrConst<'a, L>
        requires { offset ≤ size_of block.now }
        ensures same_block { result.block.now ≡ block.now }
        ensures offset { result.offset ≡ offset }
    {
        PtrConst { block, offset }
    }

    /// The offset in bytes.
    pub fn offset(&self) -> usize
        ensures { result ≡ self.now.offset }
    {
        self.offset
    }

    /// The block, for as long as it is borrowed.
    pub fn block(&self) -> &'a Block<L>
        ensures { result.now ≡ self.now.block.now }
    {
        self.block
    }

    /// The place `n` bytes further, which may be the block's end.
    pub fn field(self, n: usize) -> PtrConst<'a, L>
        requires { self.offset + n ≤ size_of self.block.now }
        ensures same_block { result.block.now ≡ self.entry.block.now }
        ensures offset { result.offset ≡ self.entry.offset + n }
    {
        // proof: the block's size is a usize, so the sum below can't overflow
        let _size = self.block.size();
        PtrConst {
            block: self.block,
            offset: self.offset + n,
        }
    }

    /// The leaf at the place, for as long as the block is borrowed.
    pub fn get(&self) -> &'a L
        requires { item_kind_at self.now.block.now self.now.offset ≡ ItemKind.Leaf }
        ensures { item_at self.now.block.now self.now.offset ≡ Some (Leaf result.now) }
    {
        self.block.leaf(self.offset)
    }

    /// The tag at the place.
    pub fn tag(&self) -> u32
        requires { item_kind_at self.now.block.now self.now.offset ≡ ItemKind.Tag }
        ensures { item_at self.now.block.now self.now.offset ≡ Some (Tag result) }
    {
        self.block.tag(self.offset)
    }

    /// The sequence at the place, for as long as the block is borrowed.
    pub fn seq(&self) -> &'a Seq<L>
        requires { item_kind_at self.now.block.now self.now.offset ≡ ItemKind.Sequence }
        ensures { item_at self.now.block.now self.now.offset ≡ Some (Sequence result.now) }
    {
        self.block.sequence(self.offset)
    }
}
