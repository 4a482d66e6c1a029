ghost use Rattle.std.specs.Prelude.{◌≡◌, true, false, replicate, slice_set};
ghost use Rattle.facet_caps.specs.EmptyRecords.{empty_result};
ghost use Rattle.facet_caps.specs.PartialRecord.{built};

use crate::partial_record::unless_missing;
use facet_base::MissingField;
use std::marker::Model;

/// The operations of a result.
#[derive(Clone, Copy)]
pub struct ResultVTable {
    pub is_ok: bool,
    pub get_ok: bool,
    pub get_err: bool,
    pub init_ok: bool,
    pub init_err: bool,
}

impl ResultVTable {
    /// A builder that was given no member.
    pub fn builder() -> ResultVTableBuilder
        ensures members { result.members ≡ empty_result }
        ensures given { result.given ≡ replicate 5 false }
    {
        ResultVTableBuilder {
            members: ResultVTable {
                is_ok: false,
                get_ok: false,
                get_err: false,
                init_ok: false,
                init_err: false,
            },
            given: [false; 5],
        }
    }
}

/// Builds a `ResultVTable`. Required are, in this order: `is_ok`, `get_ok`, `get_err`, `init_ok`, `init_err`.
#[derive(Drop)]
pub struct ResultVTableBuilder {
    members: ResultVTable,
    given: [bool; 5],
}

impl Model for ResultVTableBuilder {
    ghost use Rattle.facet_caps.specs.declared.result_vtable.ResultVTable.{ResultVTable};
    ghost use Rattle.facet_caps.specs.PartialRecord.{PartialRecord};

    ghost Value = { PartialRecord ResultVTable };

    ghost view = { λ b. record { members = b.members; given = b.given } };
}

impl ResultVTableBuilder {
    /// Sets whether it can be asked if it is a success.
    pub fn is_ok(mut self, value: bool) -> Self
        ensures members { result.members ≡ record (self.members) { is_ok = value } }
        ensures given { result.given ≡ slice_set self.given 0 true }
    {
        self.members.is_ok = value;
        self.given[0] = true;
        self
    }

    /// Sets whether the value of a success can be accessed.
    pub fn get_ok(mut self, value: bool) -> Self
        ensures members { result.members ≡ record (self.members) { get_ok = value } }
        ensures given { result.given ≡ slice_set self.given 1 true }
    {
        self.members.get_ok = value;
        self.given[1] = true;
        self
    }

    /// Sets whether the error can be accessed.
    pub fn get_err(mut self, value: bool) -> Self
        ensures members { result.members ≡ record (self.members) { get_err = value } }
        ensures given { result.given ≡ slice_set self.given 2 true }
    {
        self.members.get_err = value;
        self.given[2] = true;
        self
    }

    /// Sets whether a result can be made of a value.
    pub fn init_ok(mut self, value: bool) -> Self
        ensures members { result.members ≡ record (self.members) { init_ok = value } }
        ensures given { result.given ≡ slice_set self.given 3 true }
    {
        self.members.init_ok = value;
        self.given[3] = true;
        self
    }

    /// Sets whether a result can be made of an error.
    pub fn init_err(mut self, value: bool) -> Self
        ensures members { result.members ≡ record (self.members) { init_err = value } }
        ensures given { result.given ≡ slice_set self.given 4 true }
    {
        self.members.init_err = value;
        self.given[4] = true;
        self
    }

    /// The record of the members, or the first required one that is missing.
    pub fn build(self) -> Result<ResultVTable, MissingField>
        ensures { result ≡ built self }
    {
        unless_missing(&self.given, self.members)
    }
}
