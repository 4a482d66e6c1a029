ghost use Rattle.std.specs.Prelude.{◌≡◌, [], ◌∷◌, ◌++◌, ◌+◌, ◌<◌, ◌≤◌, OnOk, OnErr};

use facet_base::Many;
use std::alloc::{AllocError, Global};
use std::marker::Model;

/// The leaves that were dropped, in order. Contracts see them, and the spare: how many more it takes without
/// allocating memory.
#[derive(Drop)]
pub struct DropLog<L> {
    leaves: Many<L>,
}

impl<L> Model for DropLog<L> {
    ghost use Rattle.facet_block.specs.DropLog.{LeafLog, log_code, log_of};

    ghost Value = { LeafLog L };

    ghost coded = { log_code L.code };

    ghost view = { λ log. log_of log.leaves };
}

impl<L> DropLog<L> {
    /// A log of no leaf.
    pub fn new(alloc: Global) -> DropLog<L>
        ensures { result.leaves ≡ [] }
    {
        DropLog {
            leaves: Many::new(alloc),
        }
    }

    /// The leaves, in the order in which they were dropped.
    pub fn leaves(&self) -> &[L]
        ensures { result.now ≡ self.now.leaves }
    {
        self.leaves.as_slice()
    }

    /// How many more leaves it takes without allocating memory.
    pub fn spare(&self) -> usize
        ensures { result ≡ self.now.spare }
    {
        self.leaves.spare()
    }

    /// Makes the spare at least `n`. The leaves stay, also after an error, and the spare never falls.
    pub fn make_room(&mut self, n: usize) -> Result<(), AllocError>
        ensures leaves { self.new.leaves ≡ self.old.leaves }
        ensures spare { self.old.spare ≤ self.new.spare }
        ensures ok { OnOk result (n ≤ self.new.spare) }
        ensures err { OnErr result (self.old.spare < n) }
    {
        self.leaves.reserve(n)
    }
}

impl<L: Drop> DropLog<L> {
    /// Adds a leaf at the end.
    pub fn push(&mut self, leaf: L)
        requires { 0 < self.old.spare }
        ensures leaves { self.new.leaves ≡ self.old.leaves ++ leaf ∷ [] }
        ensures spare { self.old.spare ≤ self.new.spare + 1 }
    {
        match self.leaves.push(leaf) {
            Ok(()) => {}
            Err(_) => unreachable!(),
        }
    }

    /// Drops all leaves. The spare does not fall.
    pub fn clear(&mut self)
        ensures leaves { self.new.leaves ≡ [] }
        ensures spare { self.old.spare ≤ self.new.spare }
    {
        self.leaves.clear();
    }
}
