use crate::array_vtable::{ArrayVTable, ArrayVTableBuilder};
use crate::iter_vtable::IterVTable;
use crate::list_type_ops::{ListTypeOps, ListTypeOpsBuilder};
use crate::list_vtable::{ListVTable, ListVTableBuilder};
use crate::map_vtable::{MapVTable, MapVTableBuilder};
use crate::option_vtable::{OptionVTable, OptionVTableBuilder};
use crate::result_vtable::{ResultVTable, ResultVTableBuilder};
use crate::set_vtable::{SetVTable, SetVTableBuilder};
use facet_base::MissingField;
use std::test::Fail;

// Each of the next seven sets the first so many required members, in the order of the record's table.

fn list_type_ops_with(count: u32) -> ListTypeOpsBuilder {
    let mut builder = ListTypeOps::builder().push(true).reserve(true);
    if count > 0 {
        builder = builder.iter_vtable(IterVTable::new(true, true));
    }
    builder
}

fn list_with(count: u32) -> ListVTableBuilder {
    let mut builder = ListVTable::builder().swap(true).as_ptr(true);
    if count > 0 {
        builder = builder.len(true);
    }
    if count > 1 {
        builder = builder.get(true);
    }
    builder
}

fn map_with(count: u32) -> MapVTableBuilder {
    let mut builder = MapVTable::builder().from_pair_slice(true);
    if count > 0 {
        builder = builder.init_in_place_with_capacity(true);
    }
    if count > 1 {
        builder = builder.insert(true);
    }
    if count > 2 {
        builder = builder.len(true);
    }
    if count > 3 {
        builder = builder.contains_key(true);
    }
    if count > 4 {
        builder = builder.get_value_ptr(true);
    }
    if count > 5 {
        builder = builder.iter_vtable(IterVTable::new(true, true));
    }
    if count > 6 {
        builder = builder.pair_stride(24);
    }
    if count > 7 {
        builder = builder.value_offset_in_pair(8);
    }
    builder
}

fn set_with(count: u32) -> SetVTableBuilder {
    let mut builder = SetVTable::builder().from_slice(true);
    if count > 0 {
        builder = builder.init_in_place_with_capacity(true);
    }
    if count > 1 {
        builder = builder.insert(true);
    }
    if count > 2 {
        builder = builder.len(true);
    }
    if count > 3 {
        builder = builder.contains(true);
    }
    if count > 4 {
        builder = builder.iter_vtable(IterVTable::new(true, true));
    }
    builder
}

fn option_with(count: u32) -> OptionVTableBuilder {
    let mut builder = OptionVTable::builder();
    if count > 0 {
        builder = builder.is_some(true);
    }
    if count > 1 {
        builder = builder.get_value(true);
    }
    if count > 2 {
        builder = builder.init_some(true);
    }
    if count > 3 {
        builder = builder.init_none(true);
    }
    if count > 4 {
        builder = builder.replace_with(true);
    }
    builder
}

fn result_with(count: u32) -> ResultVTableBuilder {
    let mut builder = ResultVTable::builder();
    if count > 0 {
        builder = builder.is_ok(true);
    }
    if count > 1 {
        builder = builder.get_ok(true);
    }
    if count > 2 {
        builder = builder.get_err(true);
    }
    if count > 3 {
        builder = builder.init_ok(true);
    }
    if count > 4 {
        builder = builder.init_err(true);
    }
    builder
}

fn array_with(count: u32) -> ArrayVTableBuilder {
    let mut builder = ArrayVTable::builder();
    if count > 0 {
        builder = builder.as_ptr(true);
    }
    if count > 1 {
        builder = builder.as_mut_ptr(true);
    }
    builder
}

// The index that a refusal names.
fn missing<T: Drop>(built: Result<T, MissingField>) -> Option<u32> {
    match built {
        Ok(_) => None,
        Err(MissingField(index)) => Some(index),
    }
}

// What each builder with the first so many required members refuses, with the number of members that it requires.
fn refusals(count: u32) -> [(u32, Option<u32>); 7] {
    [
        (1, missing(list_type_ops_with(count).build())),
        (2, missing(list_with(count).build())),
        (8, missing(map_with(count).build())),
        (5, missing(set_with(count).build())),
        (5, missing(option_with(count).build())),
        (5, missing(result_with(count).build())),
        (2, missing(array_with(count).build())),
    ]
}

#[test]
fn a_refusal_names_the_first_member_that_is_not_given(rt: HostRuntime) {
    for count in 0..9 {
        for (required, index) in refusals(count) {
            let expected = if count < required { Some(count) } else { None };
            assert_eq!(rt; index, expected, "with {count} of {required}");
        }
    }
}

// A later member does not stand for an earlier one.
#[test]
fn a_refusal_names_an_earlier_member_though_a_later_one_is_given(rt: HostRuntime) {
    for (expected, index) in [
        (0, missing(ListVTable::builder().get(true).build())),
        (
            0,
            missing(MapVTable::builder().value_offset_in_pair(8).build()),
        ),
        (2, missing(set_with(2).contains(true).build())),
        (3, missing(option_with(3).replace_with(true).build())),
    ] {
        assert_eq!(rt; index, Some(expected));
    }
}

fn iterator_members(iterator: IterVTable) -> [bool; 5] {
    [
        iterator.next,
        iterator.dealloc,
        iterator.init_with_value,
        iterator.next_back,
        iterator.size_hint,
    ]
}

fn map_members(map: MapVTable) -> ([bool; 6], usize, usize) {
    let operations = [
        map.init_in_place_with_capacity,
        map.insert,
        map.len,
        map.contains_key,
        map.get_value_ptr,
        map.from_pair_slice,
    ];
    (operations, map.pair_stride, map.value_offset_in_pair)
}

fn list_members(list: ListVTable) -> [bool; 6] {
    [
        list.len,
        list.get,
        list.get_mut,
        list.as_ptr,
        list.as_mut_ptr,
        list.swap,
    ]
}

fn list_ops_members(list: ListTypeOps) -> [bool; 8] {
    [
        list.init_in_place_with_capacity,
        list.push,
        list.pop,
        list.set_len,
        list.as_mut_ptr_typed,
        list.reserve,
        list.capacity,
        list.from_raw_parts,
    ]
}

#[test]
fn a_built_record_has_what_was_given_and_nothing_else(rt: HostRuntime) -> Result<(), Fail> {
    let map = map_with(8).len(false).build().ok().ok_or("a map")?;
    let operations = [true, true, false, true, true, true];
    assert_eq!(rt; map_members(map), (operations, 24, 8));
    let iterator = iterator_members(map.iter_vtable);
    assert_eq!(rt; iterator, [true, true, false, false, false]);
    let list = list_with(2).build().ok().ok_or("a list")?;
    assert_eq!(rt; list_members(list), [true, true, false, true, false, true]);
    let list_ops = list_type_ops_with(1).build().ok().ok_or("operations")?;
    assert_eq!(rt;
        list_ops_members(list_ops),
        [false, true, false, false, false, true, false, false]
    );
    let bare = ListTypeOps::new(IterVTable::new(true, false));
    let iterator = iterator_members(bare.iter_vtable);
    assert_eq!(rt; iterator, [true, false, false, false, false]);
    assert_eq!(rt; list_ops_members(bare), [false; 8]);
    Ok(())
}
