ghost use Rattle.std.specs.Prelude.{◌≡◌, true, false, replicate, slice_set};
ghost use Rattle.facet_caps.specs.EmptyRecords.{empty_set};
ghost use Rattle.facet_caps.specs.PartialRecord.{built};

use crate::iter_vtable::IterVTable;
use crate::partial_record::unless_missing;
use facet_base::MissingField;
use std::marker::Model;

/// The operations of a set.
#[derive(Clone, Copy)]
pub struct SetVTable {
    pub init_in_place_with_capacity: bool,
    pub insert: bool,
    pub len: bool,
    pub contains: bool,
    pub iter_vtable: IterVTable,
    pub from_slice: bool,
}

impl SetVTable {
    /// A builder that was given no member.
    pub fn builder() -> SetVTableBuilder
        ensures members { result.members ≡ empty_set }
        ensures given { result.given ≡ replicate 5 false }
    {
        SetVTableBuilder {
            members: SetVTable {
                init_in_place_with_capacity: false,
                insert: false,
                len: false,
                contains: false,
                iter_vtable: IterVTable::new(false, false),
                from_slice: false,
            },
            given: [false; 5],
        }
    }
}

/// Builds a `SetVTable`. Required are, in this order: `init_in_place_with_capacity`, `insert`, `len`,
/// `contains`, `iter_vtable`.
#[derive(Drop)]
pub struct SetVTableBuilder {
    members: SetVTable,
    given: [bool; 5],
}

impl Model for SetVTableBuilder {
    ghost use Rattle.facet_caps.specs.declared.set_vtable.SetVTable.{SetVTable};
    ghost use Rattle.facet_caps.specs.PartialRecord.{PartialRecord};

    ghost Value = { PartialRecord SetVTable };

    ghost view = { λ b. record { members = b.members; given = b.given } };
}

impl SetVTableBuilder {
    /// Sets whether an empty set can be made with room for elements.
    pub fn init_in_place_with_capacity(mut self, value: bool) -> Self
        ensures members { result.members ≡
            record (self.members) { init_in_place_with_capacity = value } }
        ensures given { result.given ≡ slice_set self.given 0 true }
    {
        self.members.init_in_place_with_capacity = value;
        self.given[0] = true;
        self
    }

    /// Sets whether an element can be added.
    pub fn insert(mut self, value: bool) -> Self
        ensures members { result.members ≡ record (self.members) { insert = value } }
        ensures given { result.given ≡ slice_set self.given 1 true }
    {
        self.members.insert = value;
        self.given[1] = true;
        self
    }

    /// Sets whether the number of elements can be asked for.
    pub fn len(mut self, value: bool) -> Self
        ensures members { result.members ≡ record (self.members) { len = value } }
        ensures given { result.given ≡ slice_set self.given 2 true }
    {
        self.members.len = value;
        self.given[2] = true;
        self
    }

    /// Sets whether it can be asked if an element is there.
    pub fn contains(mut self, value: bool) -> Self
        ensures members { result.members ≡ record (self.members) { contains = value } }
        ensures given { result.given ≡ slice_set self.given 3 true }
    {
        self.members.contains = value;
        self.given[3] = true;
        self
    }

    /// Sets what the iterator offers.
    pub fn iter_vtable(mut self, value: IterVTable) -> Self
        ensures members { result.members ≡ record (self.members) { iter_vtable = value } }
        ensures given { result.given ≡ slice_set self.given 4 true }
    {
        self.members.iter_vtable = value;
        self.given[4] = true;
        self
    }

    /// Sets whether a set can be made of a run of elements.
    pub fn from_slice(mut self, value: bool) -> Self
        ensures members { result.members ≡ record (self.members) { from_slice = value } }
        ensures given { result.given ≡ self.given }
    {
        self.members.from_slice = value;
        self
    }

    /// The record of the members, false where none was given, or the first required one that is missing.
    pub fn build(self) -> Result<SetVTable, MissingField>
        ensures { result ≡ built self }
    {
        unless_missing(&self.given, self.members)
    }
}
