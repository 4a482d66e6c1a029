ghost use Rattle.std.specs.Prelude.{◌≡◌, ◌<◌, length, replicate, slice_get, slice_set, Some, None, IfOk};
ghost use Rattle.std.specs.Option.{option_copied, option_copied_mut};
ghost use Rattle.std.specs.Borrow.{sem};
ghost use Rattle.facet_block.specs.ListVec.{LendsEntry};

use std::alloc::{AllocError, Global};
use std::marker::Model;
use std::mem;

/// A `Vec` that contracts see as the list of its items.
#[derive(Drop)]
pub struct ListVec<T> {
    items: Vec<T>,
}

impl<T> Model for ListVec<T> {
    ghost use Rattle.std.specs.Prelude.{List};
    ghost use Rattle.std.specs.Coded.{coded_list};

    ghost Value = { List T };

    ghost coded = { coded_list T.code };

    ghost view = { λ it. it.items.items };
}

impl<T: Drop> ListVec<Option<T>> {
    /// A list of `count` times `None`. An error comes only when out of memory.
    pub fn nones(alloc: Global, count: usize) -> Result<ListVec<Option<T>>, AllocError>
        ensures { IfOk result (λ v. v ≡ replicate count None) }
    {
        let mut items = Vec::with_capacity(alloc, count)?;
        for i in 0..count {
            items.push(None)?;
        }
        Ok(ListVec { items })
    }
}

impl<T> ListVec<T> {
    /// The number of items.
    pub fn len(&self) -> usize
        ensures { result ≡ length self.now }
    {
        self.items.len()
    }

    /// The item at index `i`, and none exactly at or above the length.
    pub fn get(&self, i: usize) -> Option<&T>
        ensures { option_copied result ≡ slice_get self.now i }
    {
        self.items.get(i)
    }

    /// Borrows the item at index `i` for writing, and none exactly at or above the length.
    pub fn get_mut(&mut self, i: usize) -> Option<&mut T>
        ensures* lends { sem 𝓛 (LendsEntry T.row self.entry i result) }
        ensures value { option_copied_mut result ≡ slice_get self.old i }
    {
        self.items.get_mut(i)
    }
}

impl<T: Drop> ListVec<T> {
    /// Puts `item` at index `i`, and returns what was there.
    pub fn replace(&mut self, i: usize, item: T) -> T
        requires { i < length self.old }
        ensures value { slice_get self.old i ≡ Some result }
        ensures items { self.new ≡ slice_set self.old i item }
    {
        mem::replace(&mut self.items[i], item)
    }
}
