ghost use Rattle.std.specs.Prelude.{◌≡◌, [], take};
ghost use Rattle.facet_causes.specs.Tables.{AreTables};

use std::alloc::Global;

/// The tables beside sealed shapes, with an entry for each. With them only what is new is looked at.
#[derive(Drop)]
pub struct Tables {
    /// How many parts lie one in another, at most.
    pub inline_heights: Vec<u8>,
    /// How many shapes must stand one before another, at most.
    pub heights: Vec<u8>,
    /// How many parts a value has, itself counted.
    pub part_counts: Vec<u32>,
    /// How many bytes the full name has.
    pub name_lengths: Vec<u32>,
    /// A mark says that no part without an order is reached.
    pub ordered: Vec<bool>,
}

impl Tables {
    /// The tables of no shapes.
    pub fn new(alloc: Global) -> Tables
        ensures { AreTables [] result }
    {
        Tables {
            inline_heights: Vec::new(alloc),
            heights: Vec::new(alloc),
            part_counts: Vec::new(alloc),
            name_lengths: Vec::new(alloc),
            ordered: Vec::new(alloc),
        }
    }

    // Drops the entries from index `n` on.
    pub(crate) fn cut(&mut self, n: usize)
        ensures inline_heights { self.new.inline_heights.items ≡ take n self.old.inline_heights.items }
        ensures heights { self.new.heights.items ≡ take n self.old.heights.items }
        ensures part_counts { self.new.part_counts.items ≡ take n self.old.part_counts.items }
        ensures name_lengths { self.new.name_lengths.items ≡ take n self.old.name_lengths.items }
        ensures ordered { self.new.ordered.items ≡ take n self.old.ordered.items }
    {
        self.inline_heights.truncate(n);
        self.heights.truncate(n);
        self.part_counts.truncate(n);
        self.name_lengths.truncate(n);
        self.ordered.truncate(n);
    }
}
