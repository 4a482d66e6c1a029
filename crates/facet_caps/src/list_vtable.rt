ghost use Rattle.std.specs.Prelude.{◌≡◌, true, false, replicate, slice_set};
ghost use Rattle.facet_caps.specs.EmptyRecords.{empty_list};
ghost use Rattle.facet_caps.specs.PartialRecord.{built};

use crate::partial_record::unless_missing;
use facet_base::MissingField;
use std::marker::Model;

/// The operations of a list.
#[derive(Clone, Copy)]
pub struct ListVTable {
    pub len: bool,
    pub get: bool,
    pub get_mut: bool,
    pub as_ptr: bool,
    pub as_mut_ptr: bool,
    pub swap: bool,
}

impl ListVTable {
    /// A builder that was given no member.
    pub fn builder() -> ListVTableBuilder
        ensures members { result.members ≡ empty_list }
        ensures given { result.given ≡ replicate 2 false }
    {
        ListVTableBuilder {
            members: ListVTable {
                len: false,
                get: false,
                get_mut: false,
                as_ptr: false,
                as_mut_ptr: false,
                swap: false,
            },
            given: [false; 2],
        }
    }
}

/// Builds a `ListVTable`. Required are, in this order: `len` and `get`.
#[derive(Drop)]
pub struct ListVTableBuilder {
    members: ListVTable,
    given: [bool; 2],
}

impl Model for ListVTableBuilder {
    ghost use Rattle.facet_caps.specs.declared.list_vtable.ListVTable.{ListVTable};
    ghost use Rattle.facet_caps.specs.PartialRecord.{PartialRecord};

    ghost Value = { PartialRecord ListVTable };

    ghost view = { λ b. record { members = b.members; given = b.given } };
}

impl ListVTableBuilder {
    /// Sets whether the length can be asked for.
    pub fn len(mut self, value: bool) -> Self
        ensures members { result.members ≡ record (self.members) { len = value } }
        ensures given { result.given ≡ slice_set self.given 0 true }
    {
        self.members.len = value;
        self.given[0] = true;
        self
    }

    /// Sets whether an element can be accessed for reading.
    pub fn get(mut self, value: bool) -> Self
        ensures members { result.members ≡ record (self.members) { get = value } }
        ensures given { result.given ≡ slice_set self.given 1 true }
    {
        self.members.get = value;
        self.given[1] = true;
        self
    }

    /// Sets whether an element can be accessed for writing.
    pub fn get_mut(mut self, value: bool) -> Self
        ensures members { result.members ≡ record (self.members) { get_mut = value } }
        ensures given { result.given ≡ self.given }
    {
        self.members.get_mut = value;
        self
    }

    /// Sets whether all elements can be accessed for reading at once.
    pub fn as_ptr(mut self, value: bool) -> Self
        ensures members { result.members ≡ record (self.members) { as_ptr = value } }
        ensures given { result.given ≡ self.given }
    {
        self.members.as_ptr = value;
        self
    }

    /// Sets whether all elements can be accessed for writing at once.
    pub fn as_mut_ptr(mut self, value: bool) -> Self
        ensures members { result.members ≡ record (self.members) { as_mut_ptr = value } }
        ensures given { result.given ≡ self.given }
    {
        self.members.as_mut_ptr = value;
        self
    }

    /// Sets whether two elements can be exchanged.
    pub fn swap(mut self, value: bool) -> Self
        ensures members { result.members ≡ record (self.members) { swap = value } }
        ensures given { result.given ≡ self.given }
    {
        self.members.swap = value;
        self
    }

    /// The record of the members, false where none was given, or the first required one that is missing.
    pub fn build(self) -> Result<ListVTable, MissingField>
        ensures { result ≡ built self }
    {
        unless_missing(&self.given, self.members)
    }
}
