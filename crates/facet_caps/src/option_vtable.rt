ghost use Rattle.std.specs.Prelude.{◌≡◌, true, false, replicate, slice_set};
ghost use Rattle.facet_caps.specs.EmptyRecords.{empty_option};
ghost use Rattle.facet_caps.specs.PartialRecord.{built};

use crate::partial_record::unless_missing;
use facet_base::MissingField;
use std::marker::Model;

/// The operations of an option.
#[derive(Clone, Copy)]
pub struct OptionVTable {
    pub is_some: bool,
    pub get_value: bool,
    pub init_some: bool,
    pub init_none: bool,
    pub replace_with: bool,
}

impl OptionVTable {
    /// A builder that was given no member.
    pub fn builder() -> OptionVTableBuilder
        ensures members { result.members ≡ empty_option }
        ensures given { result.given ≡ replicate 5 false }
    {
        OptionVTableBuilder {
            members: OptionVTable {
                is_some: false,
                get_value: false,
                init_some: false,
                init_none: false,
                replace_with: false,
            },
            given: [false; 5],
        }
    }
}

/// Builds an `OptionVTable`. Required are, in this order: `is_some`, `get_value`, `init_some`, `init_none`,
/// `replace_with`.
#[derive(Drop)]
pub struct OptionVTableBuilder {
    members: OptionVTable,
    given: [bool; 5],
}

impl Model for OptionVTableBuilder {
    ghost use Rattle.facet_caps.specs.declared.option_vtable.OptionVTable.{OptionVTable};
    ghost use Rattle.facet_caps.specs.PartialRecord.{PartialRecord};

    ghost Value = { PartialRecord OptionVTable };

    ghost view = { λ b. record { members = b.members; given = b.given } };
}

impl OptionVTableBuilder {
    /// Sets whether it can be asked if a value is there.
    pub fn is_some(mut self, value: bool) -> Self
        ensures members { result.members ≡ record (self.members) { is_some = value } }
        ensures given { result.given ≡ slice_set self.given 0 true }
    {
        self.members.is_some = value;
        self.given[0] = true;
        self
    }

    /// Sets whether the value can be accessed.
    pub fn get_value(mut self, value: bool) -> Self
        ensures members { result.members ≡ record (self.members) { get_value = value } }
        ensures given { result.given ≡ slice_set self.given 1 true }
    {
        self.members.get_value = value;
        self.given[1] = true;
        self
    }

    /// Sets whether an option can be made of a value.
    pub fn init_some(mut self, value: bool) -> Self
        ensures members { result.members ≡ record (self.members) { init_some = value } }
        ensures given { result.given ≡ slice_set self.given 2 true }
    {
        self.members.init_some = value;
        self.given[2] = true;
        self
    }

    /// Sets whether an option can be made without a value.
    pub fn init_none(mut self, value: bool) -> Self
        ensures members { result.members ≡ record (self.members) { init_none = value } }
        ensures given { result.given ≡ slice_set self.given 3 true }
    {
        self.members.init_none = value;
        self.given[3] = true;
        self
    }

    /// Sets whether the value can be replaced.
    pub fn replace_with(mut self, value: bool) -> Self
        ensures members { result.members ≡ record (self.members) { replace_with = value } }
        ensures given { result.given ≡ slice_set self.given 4 true }
    {
        self.members.replace_with = value;
        self.given[4] = true;
        self
    }

    /// The record of the members, or the first required one that is missing.
    pub fn build(self) -> Result<OptionVTable, MissingField>
        ensures { result ≡ built self }
    {
        unless_missing(&self.given, self.members)
    }
}
