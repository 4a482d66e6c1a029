ghost use Rattle.std.specs.Prelude.{◌≡◌};
ghost use Rattle.facet_caps.specs.EmptyRecords.{empty_iterator};

/// The operations of an iterator.
#[derive(Clone, Copy)]
pub struct IterVTable {
    pub next: bool,
    pub dealloc: bool,
    pub init_with_value: bool,
    pub next_back: bool,
    pub size_hint: bool,
}

impl IterVTable {
    /// The record with these two members. The others are not set.
    pub fn new(next: bool, dealloc: bool) -> IterVTable
        ensures { result ≡ record empty_iterator { next = next; dealloc = dealloc } }
    {
        IterVTable {
            next,
            dealloc,
            init_with_value: false,
            next_back: false,
            size_hint: false,
        }
    }
}
