ghost use Rattle.std.specs.Prelude.{◌≡◌, ℕ, [], ◌++◌, ◌+◌, ◌-◌, ◌<◌, ◌≤◌, length, take, drop, slice_get, swap, Some, OnOk, OnErr};
ghost use Rattle.std.specs.Option.{option_copied, option_copied_mut};
ghost use Rattle.std.specs.Borrow.{sem};
ghost use Rattle.facet_block.specs.Seq.{filled_of, spare_of, element_size_of, make_seq, with_filled, with_new_spare, last_moved_to};
ghost use Rattle.facet_block.specs.BlockBorrows.{LendsFilled, LendsSpare};

use crate::block::{Block, Seq};
use crate::split::Split;
use std::alloc::{AllocError, Global};

impl<L> Seq<L> {
    /// A sequence without blocks, whose elements have `elem_size` bytes.
    pub fn new(alloc: Global, elem_size: usize) -> Seq<L>
        ensures { result ≡ make_seq elem_size [] [] }
    {
        Seq {
            element_size: elem_size,
            blocks: Split::new(alloc),
        }
    }

    /// The size in bytes of the blocks that `reserve` makes.
    pub fn elem_size(&self) -> usize
        ensures { result ≡ element_size_of self.now }
    {
        self.element_size
    }

    /// The number of filled blocks.
    pub fn len(&self) -> usize
        ensures { result ≡ length (filled_of self.now) }
    {
        self.blocks.front_len()
    }

    /// The number of spare blocks.
    pub fn spare(&self) -> usize
        ensures { result ≡ length (spare_of self.now) }
    {
        self.blocks.back_len()
    }

    /// Filled block `i`, and none exactly at or above the length.
    pub fn get(&self, i: usize) -> Option<&Block<L>>
        ensures { option_copied result ≡ slice_get (filled_of self.now) i }
    {
        self.blocks.front(i)
    }

    /// Borrows filled block `i` for writing, and none exactly at or above the length.
    pub fn get_mut(&mut self, i: usize) -> Option<&mut Block<L>>
        ensures* lends { sem 𝓛 (LendsFilled L.row self.entry i result) }
        ensures value { option_copied_mut result ≡ slice_get (filled_of self.old) i }
    {
        if i < self.blocks.front_len() {
            Some(self.blocks.front_mut(i))
        } else {
            None
        }
    }

    /// Spare block `j`.
    pub fn slot(&self, j: usize) -> &Block<L>
        requires { j < length (spare_of self.now) }
        ensures { slice_get (spare_of self.now) j ≡ Some result.now }
    {
        self.blocks.back(j)
    }

    /// Borrows spare block `j` for writing.
    pub fn slot_mut(&mut self, j: usize) -> &mut Block<L>
        requires { j < length (spare_of self.old) }
        ensures* lends { sem 𝓛 (LendsSpare L.row self.entry j result) }
        ensures value { slice_get (spare_of self.old) j ≡ Some result.now }
    {
        self.blocks.back_mut(j)
    }

    /// Makes the first `n` of the filled and then the spare blocks the filled ones, and the others the spare ones.
    pub fn set_len(&mut self, n: usize)
        requires { n ≤ length (filled_of self.old) + length (spare_of self.old) }
        ensures { self.new ≡ make_seq (element_size_of self.old)
            (take n (filled_of self.old ++ spare_of self.old)) (drop n (filled_of self.old ++ spare_of self.old)) }
    {
        self.blocks.set_front_len(n);
    }

    /// Exchanges two filled blocks.
    pub fn swap(&mut self, i: usize, j: usize)
        requires first { i < length (filled_of self.old) }
        requires second { j < length (filled_of self.old) }
        ensures { self.new ≡ with_filled self.old (swap (filled_of self.old) i j) }
    {
        self.blocks.swap_front(i, j);
    }

    /// Moves the last filled block to index `i`. The others keep their order.
    pub fn rotate_last_to(&mut self, i: usize)
        requires { i < length (filled_of self.old) }
        ensures { self.new ≡ with_filled self.old (last_moved_to i (filled_of self.old)) }
    {
        self.blocks.move_last_to(i);
    }
}

impl<L: Drop> Seq<L> {
    /// Makes the spare at least `n`: the blocks that are missing come behind the others, with no item. An error, which
    /// comes only when out of memory, may leave some of them there.
    pub fn reserve(&mut self, n: usize) -> Result<(), AllocError>
        ensures ok { OnOk result (self.new ≡ with_new_spare self.old (n - length (spare_of self.old))) }
        ensures err { OnErr result ((made : ℕ) × (made + length (spare_of self.old) < n) × (self.new ≡ with_new_spare self.old made)) }
    {
        let missing = n.saturating_sub(self.spare());
        self.blocks.reserve(missing)?;
        for _made in 0..missing {
            self.add_spare()?;
        }
        Ok(())
    }

    // Adds a block with no item behind the spare ones. After an error the sequence is as before.
    fn add_spare(&mut self) -> Result<(), AllocError>
        ensures ok { OnOk result (self.new ≡ with_new_spare self.old 1) }
        ensures err { OnErr result (self.new ≡ self.old) }
    {
        let block = Block::new(self.blocks.allocator(), self.element_size)?;
        self.blocks.push_back(block)
    }
}
