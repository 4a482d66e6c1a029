ghost use Rattle.std.specs.Prelude.{◌≡◌, true, false, replicate, slice_set};
ghost use Rattle.facet_caps.specs.EmptyRecords.{empty_list_ops};
ghost use Rattle.facet_caps.specs.PartialRecord.{built};

use crate::iter_vtable::IterVTable;
use crate::partial_record::unless_missing;
use facet_base::MissingField;
use std::marker::Model;

/// The operations of a list that need the type of its elements.
#[derive(Clone, Copy)]
pub struct ListTypeOps {
    pub iter_vtable: IterVTable,
    pub init_in_place_with_capacity: bool,
    pub push: bool,
    pub pop: bool,
    pub set_len: bool,
    pub as_mut_ptr_typed: bool,
    pub reserve: bool,
    pub capacity: bool,
    pub from_raw_parts: bool,
}

impl ListTypeOps {
    /// A builder that was given no member.
    pub fn builder() -> ListTypeOpsBuilder
        ensures members { result.members ≡ empty_list_ops }
        ensures given { result.given ≡ replicate 1 false }
    {
        ListTypeOpsBuilder {
            members: ListTypeOps::new(IterVTable::new(false, false)),
            given: [false; 1],
        }
    }

    /// The record that has this member alone.
    pub fn new(iter_vtable: IterVTable) -> ListTypeOps
        ensures { result ≡ record empty_list_ops { iter_vtable = iter_vtable } }
    {
        ListTypeOps {
            iter_vtable,
            init_in_place_with_capacity: false,
            push: false,
            pop: false,
            set_len: false,
            as_mut_ptr_typed: false,
            reserve: false,
            capacity: false,
            from_raw_parts: false,
        }
    }
}

/// Builds a `ListTypeOps`. Required is `iter_vtable`.
#[derive(Drop)]
pub struct ListTypeOpsBuilder {
    members: ListTypeOps,
    given: [bool; 1],
}

impl Model for ListTypeOpsBuilder {
    ghost use Rattle.facet_caps.specs.declared.list_type_ops.ListTypeOps.{ListTypeOps};
    ghost use Rattle.facet_caps.specs.PartialRecord.{PartialRecord};

    ghost Value = { PartialRecord ListTypeOps };

    ghost view = { λ b. record { members = b.members; given = b.given } };
}

impl ListTypeOpsBuilder {
    /// Sets what the iterator offers.
    pub fn iter_vtable(mut self, value: IterVTable) -> Self
        ensures members { result.members ≡ record (self.members) { iter_vtable = value } }
        ensures given { result.given ≡ slice_set self.given 0 true }
    {
        self.members.iter_vtable = value;
        self.given[0] = true;
        self
    }

    /// Sets whether an empty list can be made with room for elements.
    pub fn init_in_place_with_capacity(mut self, value: bool) -> Self
        ensures members { result.members ≡
            record (self.members) { init_in_place_with_capacity = value } }
        ensures given { result.given ≡ self.given }
    {
        self.members.init_in_place_with_capacity = value;
        self
    }

    /// Sets whether an element can be added at the end.
    pub fn push(mut self, value: bool) -> Self
        ensures members { result.members ≡ record (self.members) { push = value } }
        ensures given { result.given ≡ self.given }
    {
        self.members.push = value;
        self
    }

    /// Sets whether the last element can be taken out.
    pub fn pop(mut self, value: bool) -> Self
        ensures members { result.members ≡ record (self.members) { pop = value } }
        ensures given { result.given ≡ self.given }
    {
        self.members.pop = value;
        self
    }

    /// Sets whether the length can be set without a look at the elements.
    pub fn set_len(mut self, value: bool) -> Self
        ensures members { result.members ≡ record (self.members) { set_len = value } }
        ensures given { result.given ≡ self.given }
    {
        self.members.set_len = value;
        self
    }

    /// Sets whether the elements can be accessed for writing, by a pointer of their type.
    pub fn as_mut_ptr_typed(mut self, value: bool) -> Self
        ensures members { result.members ≡ record (self.members) { as_mut_ptr_typed = value } }
        ensures given { result.given ≡ self.given }
    {
        self.members.as_mut_ptr_typed = value;
        self
    }

    /// Sets whether room for more elements can be asked for.
    pub fn reserve(mut self, value: bool) -> Self
        ensures members { result.members ≡ record (self.members) { reserve = value } }
        ensures given { result.given ≡ self.given }
    {
        self.members.reserve = value;
        self
    }

    /// Sets whether it can be asked for how many elements there is room.
    pub fn capacity(mut self, value: bool) -> Self
        ensures members { result.members ≡ record (self.members) { capacity = value } }
        ensures given { result.given ≡ self.given }
    {
        self.members.capacity = value;
        self
    }

    /// Sets whether a list can be made of a pointer, a length and a capacity.
    pub fn from_raw_parts(mut self, value: bool) -> Self
        ensures members { result.members ≡ record (self.members) { from_raw_parts = value } }
        ensures given { result.given ≡ self.given }
    {
        self.members.from_raw_parts = value;
        self
    }

    /// The record of the members, false where none was given, or the first required one that is missing.
    pub fn build(self) -> Result<ListTypeOps, MissingField>
        ensures { result ≡ built self }
    {
        unless_missing(&self.given, self.members)
    }
}
