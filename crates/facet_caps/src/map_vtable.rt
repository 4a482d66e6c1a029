ghost use Rattle.std.specs.Prelude.{◌≡◌, true, false, replicate, slice_set};
ghost use Rattle.facet_caps.specs.EmptyRecords.{empty_map};
ghost use Rattle.facet_caps.specs.PartialRecord.{built};

use crate::iter_vtable::IterVTable;
use crate::partial_record::unless_missing;
use facet_base::MissingField;
use std::marker::Model;

/// The operations of a map.
#[derive(Clone, Copy)]
pub struct MapVTable {
    pub init_in_place_with_capacity: bool,
    pub insert: bool,
    pub len: bool,
    pub contains_key: bool,
    pub get_value_ptr: bool,
    pub iter_vtable: IterVTable,
    /// How many bytes lie from one pair to the next in a run of pairs.
    pub pair_stride: usize,
    /// How many bytes lie before the value in a pair.
    pub value_offset_in_pair: usize,
    pub from_pair_slice: bool,
}

impl MapVTable {
    /// A builder that was given no member.
    pub fn builder() -> MapVTableBuilder
        ensures members { result.members ≡ empty_map }
        ensures given { result.given ≡ replicate 8 false }
    {
        MapVTableBuilder {
            members: MapVTable {
                init_in_place_with_capacity: false,
                insert: false,
                len: false,
                contains_key: false,
                get_value_ptr: false,
                iter_vtable: IterVTable::new(false, false),
                pair_stride: 0,
                value_offset_in_pair: 0,
                from_pair_slice: false,
            },
            given: [false; 8],
        }
    }
}

/// Builds a `MapVTable`. Required are, in this order: `init_in_place_with_capacity`, `insert`, `len`,
/// `contains_key`, `get_value_ptr`, `iter_vtable`, `pair_stride`, `value_offset_in_pair`.
#[derive(Drop)]
pub struct MapVTableBuilder {
    members: MapVTable,
    given: [bool; 8],
}

impl Model for MapVTableBuilder {
    ghost use Rattle.facet_caps.specs.declared.map_vtable.MapVTable.{MapVTable};
    ghost use Rattle.facet_caps.specs.PartialRecord.{PartialRecord};

    ghost Value = { PartialRecord MapVTable };

    ghost view = { λ b. record { members = b.members; given = b.given } };
}

impl MapVTableBuilder {
    /// Sets whether an empty map can be made with room for entries.
    pub fn init_in_place_with_capacity(mut self, value: bool) -> Self
        ensures members { result.members ≡
            record (self.members) { init_in_place_with_capacity = value } }
        ensures given { result.given ≡ slice_set self.given 0 true }
    {
        self.members.init_in_place_with_capacity = value;
        self.given[0] = true;
        self
    }

    /// Sets whether an entry can be added.
    pub fn insert(mut self, value: bool) -> Self
        ensures members { result.members ≡ record (self.members) { insert = value } }
        ensures given { result.given ≡ slice_set self.given 1 true }
    {
        self.members.insert = value;
        self.given[1] = true;
        self
    }

    /// Sets whether the number of entries can be asked for.
    pub fn len(mut self, value: bool) -> Self
        ensures members { result.members ≡ record (self.members) { len = value } }
        ensures given { result.given ≡ slice_set self.given 2 true }
    {
        self.members.len = value;
        self.given[2] = true;
        self
    }

    /// Sets whether it can be asked if a key is there.
    pub fn contains_key(mut self, value: bool) -> Self
        ensures members { result.members ≡ record (self.members) { contains_key = value } }
        ensures given { result.given ≡ slice_set self.given 3 true }
    {
        self.members.contains_key = value;
        self.given[3] = true;
        self
    }

    /// Sets whether the value of a key can be accessed.
    pub fn get_value_ptr(mut self, value: bool) -> Self
        ensures members { result.members ≡ record (self.members) { get_value_ptr = value } }
        ensures given { result.given ≡ slice_set self.given 4 true }
    {
        self.members.get_value_ptr = value;
        self.given[4] = true;
        self
    }

    /// Sets what the iterator offers.
    pub fn iter_vtable(mut self, value: IterVTable) -> Self
        ensures members { result.members ≡ record (self.members) { iter_vtable = value } }
        ensures given { result.given ≡ slice_set self.given 5 true }
    {
        self.members.iter_vtable = value;
        self.given[5] = true;
        self
    }

    /// Sets how many bytes lie from one pair to the next in a run of pairs.
    pub fn pair_stride(mut self, value: usize) -> Self
        ensures members { result.members ≡ record (self.members) { pair_stride = value } }
        ensures given { result.given ≡ slice_set self.given 6 true }
    {
        self.members.pair_stride = value;
        self.given[6] = true;
        self
    }

    /// Sets how many bytes lie before the value in a pair.
    pub fn value_offset_in_pair(mut self, value: usize) -> Self
        ensures members { result.members ≡ record (self.members) { value_offset_in_pair = value } }
        ensures given { result.given ≡ slice_set self.given 7 true }
    {
        self.members.value_offset_in_pair = value;
        self.given[7] = true;
        self
    }

    /// Sets whether a map can be made of a run of pairs.
    pub fn from_pair_slice(mut self, value: bool) -> Self
        ensures members { result.members ≡ record (self.members) { from_pair_slice = value } }
        ensures given { result.given ≡ self.given }
    {
        self.members.from_pair_slice = value;
        self
    }

    /// The record of the members, false where none was given, or the first required one that is missing.
    pub fn build(self) -> Result<MapVTable, MissingField>
        ensures { result ≡ built self }
    {
        unless_missing(&self.given, self.members)
    }
}
