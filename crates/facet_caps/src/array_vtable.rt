ghost use Rattle.std.specs.Prelude.{◌≡◌, true, false, replicate, slice_set};
ghost use Rattle.facet_caps.specs.EmptyRecords.{empty_array};
ghost use Rattle.facet_caps.specs.PartialRecord.{built};

use crate::partial_record::unless_missing;
use facet_base::MissingField;
use std::marker::Model;

/// The operations of an array.
#[derive(Clone, Copy)]
pub struct ArrayVTable {
    pub as_ptr: bool,
    pub as_mut_ptr: bool,
}

impl ArrayVTable {
    /// A builder that was given no member.
    pub fn builder() -> ArrayVTableBuilder
        ensures members { result.members ≡ empty_array }
        ensures given { result.given ≡ replicate 2 false }
    {
        ArrayVTableBuilder {
            members: ArrayVTable {
                as_ptr: false,
                as_mut_ptr: false,
            },
            given: [false; 2],
        }
    }
}

/// Builds an `ArrayVTable`. Required are, in this order: `as_ptr` and `as_mut_ptr`.
#[derive(Drop)]
pub struct ArrayVTableBuilder {
    members: ArrayVTable,
    given: [bool; 2],
}

impl Model for ArrayVTableBuilder {
    ghost use Rattle.facet_caps.specs.declared.array_vtable.ArrayVTable.{ArrayVTable};
    ghost use Rattle.facet_caps.specs.PartialRecord.{PartialRecord};

    ghost Value = { PartialRecord ArrayVTable };

    ghost view = { λ b. record { members = b.members; given = b.given } };
}

impl ArrayVTableBuilder {
    /// Sets whether all elements can be accessed for reading.
    pub fn as_ptr(mut self, value: bool) -> Self
        ensures members { result.members ≡ record (self.members) { as_ptr = value } }
        ensures given { result.given ≡ slice_set self.given 0 true }
    {
        self.members.as_ptr = value;
        self.given[0] = true;
        self
    }

    /// Sets whether all elements can be accessed for writing.
    pub fn as_mut_ptr(mut self, value: bool) -> Self
        ensures members { result.members ≡ record (self.members) { as_mut_ptr = value } }
        ensures given { result.given ≡ slice_set self.given 1 true }
    {
        self.members.as_mut_ptr = value;
        self.given[1] = true;
        self
    }

    /// The record of the members, or the first required one that is missing.
    pub fn build(self) -> Result<ArrayVTable, MissingField>
        ensures { result ≡ built self }
    {
        unless_missing(&self.given, self.members)
    }
}
