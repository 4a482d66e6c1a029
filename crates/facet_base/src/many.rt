ghost use Rattle.std.specs.Prelude.{◌≡◌, [], ◌∷◌, ◌++◌, ◌+◌, ◌<◌, ◌≤◌, length, slice_get, remove, Some, OnOk, OnErr};
ghost use Rattle.std.specs.Option.{option_copied, option_copied_mut};
ghost use Rattle.std.specs.Borrow.{sem};
ghost use Rattle.facet_base.specs.ManyLends.{LendsItem};

use std::alloc::{AllocError, Global};
use std::marker::Model;

/// A list of items. Contracts see its items, and its spare capacity: how many more it takes without allocating.
#[derive(Drop)]
pub struct Many<T> {
    items: Vec<T>,
}

impl<T> Model for Many<T> {
    ghost use Rattle.std.specs.Prelude.{vec_len, vec_capacity, ◌-◌};
    ghost use Rattle.facet_base.specs.Many.{ManyValue, many_code};

    ghost Value = { ManyValue T };

    ghost coded = { many_code T.code };

    ghost view = { λ many. record { items = many.items.items; spare = vec_capacity many.items - vec_len many.items } };
}

impl<T> Many<T> {
    /// A list without items.
    pub fn new(alloc: Global) -> Many<T>
        ensures { result.items ≡ [] }
    {
        Many {
            items: Vec::new(alloc),
        }
    }

    /// The number of items.
    pub fn len(&self) -> usize
        ensures { result ≡ length self.now.items }
    {
        self.items.len()
    }

    /// How many more items it takes without allocating.
    pub fn spare(&self) -> usize
        ensures { result ≡ self.now.spare }
    {
        self.items.capacity() - self.items.len()
    }

    /// The item at index `i`, and None exactly at or above the length.
    pub fn get(&self, i: usize) -> Option<&T>
        ensures { option_copied result ≡ slice_get self.now.items i }
    {
        self.items.get(i)
    }

    /// Borrows the item at index `i`, and None exactly at or above the length. The other items stay.
    pub fn get_mut(&mut self, i: usize) -> Option<&mut T>
        ensures* lends { sem 𝓛 (LendsItem T.row self.entry i result) }
        ensures value { option_copied_mut result ≡ slice_get self.old.items i }
    {
        self.items.get_mut(i)
    }

    /// The items, in order.
    pub fn as_slice(&self) -> &[T]
        ensures { result.now ≡ self.now.items }
    {
        self.items.as_slice()
    }

    /// Makes the spare capacity at least `n`. The items stay, also after an allocation failure, and the spare never falls.
    pub fn reserve(&mut self, n: usize) -> Result<(), AllocError>
        ensures items { self.new.items ≡ self.old.items }
        ensures spare { self.old.spare ≤ self.new.spare }
        ensures ok { OnOk result (n ≤ self.new.spare) }
        ensures err { OnErr result (self.old.spare < n) }
    {
        self.items.reserve(n)
    }

    /// Takes the item at index `i` out. The later ones move down.
    pub fn remove(&mut self, i: usize) -> T
        requires { i < length self.old.items }
        ensures item { slice_get self.old.items i ≡ Some result }
        ensures rest { self.new.items ≡ remove self.old.items i }
        ensures spare { self.old.spare + 1 ≤ self.new.spare }
    {
        self.items.remove(i)
    }
}

impl<T: Drop> Many<T> {
    /// Adds an item at the end. An allocation failure, which comes only where the spare is 0, drops it.
    pub fn push(&mut self, x: T) -> Result<(), AllocError>
        ensures ok { OnOk result (self.new.items ≡ self.old.items ++ x ∷ []) }
        ensures err { OnErr result (self.new.items ≡ self.old.items) }
        ensures spare { self.old.spare ≤ self.new.spare + 1 }
        ensures full { OnErr result (self.old.spare ≡ 0) }
    {
        self.items.push(x)?;
        Ok(())
    }

    /// Drops all items. The spare does not fall.
    pub fn clear(&mut self)
        ensures items { self.new.items ≡ [] }
        ensures spare { self.old.spare ≤ self.new.spare }
    {
        self.items.clear();
    }
}
