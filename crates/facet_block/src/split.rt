ghost use Rattle.std.specs.Prelude.{◌≡◌, [], ◌∷◌, ◌++◌, ◌+◌, ◌<◌, ◌≤◌, length, take, drop, slice_get, swap, Some, OnOk, OnErr};
ghost use Rattle.std.specs.Option.{option_copied};
ghost use Rattle.std.specs.Borrow.{sem};
ghost use Rattle.facet_block.specs.Seq.{last_moved_to};
ghost use Rattle.facet_block.specs.Split.{LendsFront, LendsBack};

use std::alloc::{AllocError, Global};
use std::marker::Model;

/// A vector in two parts, the front and the back. Contracts see the pair of their lists.
#[derive(Drop)]
pub struct Split<T> {
    items: Vec<T>,
    front: usize,
}

impl<T> Model for Split<T> {
    ghost use Rattle.std.specs.Prelude.{List, take, drop, ◌≤◌, length};
    ghost use Rattle.std.specs.Coded.{coded_list, coded×};

    ghost Value = { List T × List T };

    ghost coded = { coded× (coded_list T.code) (coded_list T.code) };

    ghost view = { λ s. (take s.front s.items.items, drop s.front s.items.items) };

    ghost invariant = { λ s. s.front ≤ length s.items.items };
}

impl<T> Split<T> {
    /// Two parts without items.
    pub fn new(alloc: Global) -> Split<T>
        ensures { result ≡ ([], []) }
    {
        Split {
            items: Vec::new(alloc),
            front: 0,
        }
    }

    /// What the vector takes its memory from.
    pub fn allocator(&self) -> Global {
        *self.items.allocator()
    }

    /// The number of items of the front.
    pub fn front_len(&self) -> usize
        ensures { result ≡ length self.now.0 }
    {
        self.front
    }

    /// The number of items of the back.
    pub fn back_len(&self) -> usize
        ensures { result ≡ length self.now.1 }
    {
        self.items.len() - self.front
    }

    /// The item at index `i` of the front, and none exactly at or above its length.
    pub fn front(&self, i: usize) -> Option<&T>
        ensures { option_copied result ≡ slice_get self.now.0 i }
    {
        if i < self.front {
            self.items.get(i)
        } else {
            None
        }
    }

    /// The item at index `j` of the back.
    pub fn back(&self, j: usize) -> &T
        requires { j < length self.now.1 }
        ensures { slice_get self.now.1 j ≡ Some result.now }
    {
        // proof: the number of items is a usize, so the sum below can't overflow
        let _count = self.items.len();
        &self.items[self.front + j]
    }

    /// Borrows the item at index `i` of the front for writing.
    pub fn front_mut(&mut self, i: usize) -> &mut T
        requires { i < length self.old.0 }
        ensures* lends { sem 𝓛 (LendsFront T.row self.entry i result) }
        ensures value { slice_get self.old.0 i ≡ Some result.now }
    {
        &mut self.items[i]
    }

    /// Borrows the item at index `j` of the back for writing.
    pub fn back_mut(&mut self, j: usize) -> &mut T
        requires { j < length self.old.1 }
        ensures* lends { sem 𝓛 (LendsBack T.row self.entry j result) }
        ensures value { slice_get self.old.1 j ≡ Some result.now }
    {
        // proof: the number of items is a usize, so the sum below can't overflow
        let _count = self.items.len();
        let i = self.front + j;
        &mut self.items[i]
    }

    /// Makes the first `n` items of both parts the front, and the others the back.
    pub fn set_front_len(&mut self, n: usize)
        requires { n ≤ length self.old.0 + length self.old.1 }
        ensures { self.new ≡ (take n (self.old.0 ++ self.old.1), drop n (self.old.0 ++ self.old.1)) }
    {
        self.front = n;
    }

    /// Exchanges two items of the front.
    pub fn swap_front(&mut self, i: usize, j: usize)
        requires first { i < length self.old.0 }
        requires second { j < length self.old.0 }
        ensures { self.new ≡ (swap self.old.0 i j, self.old.1) }
    {
        self.items.swap(i, j);
    }

    /// Moves the last item of the front to its index `i`. The others keep their order.
    pub fn move_last_to(&mut self, i: usize)
        requires { i < length self.old.0 }
        ensures { self.new ≡ (last_moved_to i self.old.0, self.old.1) }
    {
        self.items[i..self.front].rotate_right(1);
    }

    /// Allocates memory for `count` items more.
    pub fn reserve(&mut self, count: usize) -> Result<(), AllocError>
        ensures same { self.new ≡ self.old }
        ensures err { OnErr result (0 < count) }
    {
        self.items.reserve(count)
    }
}

impl<T: Drop> Split<T> {
    /// Adds an item at the end of the back. An error drops it.
    pub fn push_back(&mut self, item: T) -> Result<(), AllocError>
        ensures ok { OnOk result (self.new ≡ (self.old.0, self.old.1 ++ item ∷ [])) }
        ensures err { OnErr result (self.new ≡ self.old) }
    {
        self.items.push(item)?;
        Ok(())
    }
}
