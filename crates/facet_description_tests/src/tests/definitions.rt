use facet_base::{KnownPointer, PointerFlags, ShapeId};
use facet_caps::{
    ArrayVTable, IterVTable, ListTypeOps, ListVTable, MapVTable, OptionVTable, PointerVTable,
    ResultVTable, SetVTable, SliceVTable,
};
use facet_def::{Def, DynamicValueDef, ListDef, NdArrayDef, PointerDef, SliceDef};
use facet_desc::{SequenceType, Ty};

const ITERATOR: IterVTable = IterVTable {
    next: true,
    dealloc: true,
    init_with_value: false,
    next_back: true,
    size_hint: false,
};

const MAP: MapVTable = MapVTable {
    init_in_place_with_capacity: true,
    insert: true,
    len: true,
    contains_key: false,
    get_value_ptr: true,
    iter_vtable: ITERATOR,
    pair_stride: 24,
    value_offset_in_pair: 8,
    from_pair_slice: false,
};

const SET: SetVTable = SetVTable {
    init_in_place_with_capacity: true,
    insert: true,
    len: true,
    contains: true,
    iter_vtable: ITERATOR,
    from_slice: false,
};

const LIST: ListVTable = ListVTable {
    len: true,
    get: true,
    get_mut: false,
    as_ptr: true,
    as_mut_ptr: false,
    swap: true,
};

const ARRAY: ArrayVTable = ArrayVTable {
    as_ptr: true,
    as_mut_ptr: false,
};

const SLICE: SliceVTable = SliceVTable {
    len: true,
    as_ptr: true,
    as_mut_ptr: false,
};

const OPTION: OptionVTable = OptionVTable {
    is_some: true,
    get_value: true,
    init_some: true,
    init_none: true,
    replace_with: false,
};

const RESULT: ResultVTable = ResultVTable {
    is_ok: true,
    get_ok: true,
    get_err: false,
    init_ok: true,
    init_err: true,
};

// A pointer to the shape 1, with the weak pointer 2 and the strong pointer 4.
fn pointer(new_into_fn: bool, known: Option<KnownPointer>) -> PointerDef {
    PointerDef {
        vtable: PointerVTable {
            new_into_fn,
            ..PointerVTable::new()
        },
        pointee: Some(ShapeId(1)),
        weak: Some(ShapeId(2)),
        strong: Some(ShapeId(4)),
        flags: PointerFlags::ATOMIC,
        known,
    }
}

// A definition of the case at an index, in the order of the enum.
fn definition(case: usize) -> Def {
    match case {
        0 => Def::Undefined,
        1 => Def::Scalar,
        2 => Def::map_builder(MAP, ShapeId(3), ShapeId(5)).build(),
        3 => Def::set_builder(SET, ShapeId(3)).build(),
        4 => Def::list_builder(LIST, ShapeId(3)).build(),
        5 => Def::array_builder(ARRAY, ShapeId(3), 7).build(),
        6 => Def::NdArray(NdArrayDef::new(ShapeId(3))),
        7 => Def::Slice(SliceDef::new(SLICE, ShapeId(3))),
        8 => Def::option_builder(OPTION, ShapeId(3)).build(),
        9 => Def::result_builder(RESULT, ShapeId(3), ShapeId(5)).build(),
        10 => Def::Pointer(pointer(false, Some(KnownPointer::Arc))),
        _ => Def::DynamicValue(DynamicValueDef::new()),
    }
}

fn case_of(def: &Def) -> usize {
    match def {
        Def::Undefined => 0,
        Def::Scalar => 1,
        Def::Map(_) => 2,
        Def::Set(_) => 3,
        Def::List(_) => 4,
        Def::Array(_) => 5,
        Def::NdArray(_) => 6,
        Def::Slice(_) => 7,
        Def::Option(_) => 8,
        Def::Result(_) => 9,
        Def::Pointer(_) => 10,
        Def::DynamicValue(_) => 11,
    }
}

// The case of a definition that came back in place of a record.
fn case_back<T: Drop>(returned: Result<T, Def>) -> Option<usize> {
    match returned {
        Ok(_) => None,
        Err(def) => Some(case_of(&def)),
    }
}

// The case of what comes back from the call for the case at an index.
fn comes_back(call: usize, def: Def) -> Option<usize> {
    match call {
        1 => case_back(def.into_scalar()),
        2 => case_back(def.into_map()),
        3 => case_back(def.into_set()),
        4 => case_back(def.into_list()),
        5 => case_back(def.into_array()),
        6 => case_back(def.into_ndarray()),
        7 => case_back(def.into_slice()),
        8 => case_back(def.into_option()),
        9 => case_back(def.into_result()),
        10 => case_back(def.into_pointer()),
        _ => case_back(def.into_dynamic_value()),
    }
}

#[test]
fn a_definition_comes_back_from_the_calls_for_other_cases_alone(rt: HostRuntime) {
    for call in 1..12 {
        for case in 0..12 {
            let expected = if call == case { None } else { Some(case) };
            assert!(rt; comes_back(call, definition(case)) == expected);
        }
    }
}

// The shapes that a definition names, in the order of its members.
fn shapes_of(def: &Def) -> [Option<ShapeId>; 3] {
    match def {
        Def::Map(map) => [Some(map.k()), Some(map.v()), None],
        Def::Set(set) => [Some(set.t()), None, None],
        Def::List(list) => [Some(list.t()), None, None],
        Def::Array(array) => [Some(array.t()), None, None],
        Def::NdArray(array) => [Some(array.t()), None, None],
        Def::Slice(slice) => [Some(slice.t()), None, None],
        Def::Option(option) => [Some(option.t()), None, None],
        Def::Result(result) => [Some(result.t()), Some(result.e()), None],
        Def::Pointer(pointer) => [pointer.pointee(), pointer.weak(), pointer.strong()],
        _ => [None; 3],
    }
}

// The shape of the elements, and how many there are, where the default type of a definition is a sequence.
fn sequence_of(def: &Def) -> Option<(ShapeId, Option<usize>)> {
    match def.default_type() {
        Ty::Sequence(SequenceType::Array(array)) => Some((array.t, Some(array.n))),
        Ty::Sequence(SequenceType::Slice(slice)) => Some((slice.t, None)),
        _ => None,
    }
}

// Both of the definition of the case at an index.
fn named(case: usize) -> ([Option<ShapeId>; 3], Option<(ShapeId, Option<usize>)>) {
    let def = definition(case);
    (shapes_of(&def), sequence_of(&def))
}

#[test]
fn a_definition_names_its_shapes_and_its_sequence(rt: HostRuntime) {
    let one = [Some(ShapeId(3)), None, None];
    let two = [Some(ShapeId(3)), Some(ShapeId(5)), None];
    let three = [Some(ShapeId(1)), Some(ShapeId(2)), Some(ShapeId(4))];
    for (case, shapes, sequence) in [
        (1, [None; 3], None),
        (2, two, None),
        (3, one, None),
        (4, one, None),
        (5, one, Some((ShapeId(3), Some(7)))),
        (6, one, None),
        (7, one, Some((ShapeId(3), None))),
        (8, one, None),
        (9, two, None),
        (10, three, None),
        (11, [None; 3], None),
    ] {
        assert!(rt; named(case) == (shapes, sequence));
    }
}

#[test]
fn a_pointer_is_made_of_its_pointee_by_its_operation_or_its_name(rt: HostRuntime) {
    for (operation, known, expected) in [
        (true, None, true),
        (true, Some(KnownPointer::Cow), true),
        (false, None, false),
        (false, Some(KnownPointer::Box), true),
        (false, Some(KnownPointer::Rc), true),
        (false, Some(KnownPointer::Arc), true),
        (false, Some(KnownPointer::RcWeak), false),
        (false, Some(KnownPointer::ArcWeak), false),
        (false, Some(KnownPointer::NonNull), false),
        (false, Some(KnownPointer::SharedReference), false),
    ] {
        assert!(rt; pointer(operation, known).constructible_from_pointee() == expected);
    }
}

// What a list offers that has the operation at an index alone.
fn offered(index: usize) -> [bool; 9] {
    let type_ops = ListTypeOps {
        iter_vtable: ITERATOR,
        init_in_place_with_capacity: index == 0,
        push: index == 1,
        pop: index == 2,
        set_len: index == 3,
        as_mut_ptr_typed: index == 4,
        reserve: index == 5,
        capacity: index == 6,
        from_raw_parts: index == 7,
    };
    operations(&ListDef::with_type_ops(LIST, type_ops, ShapeId(3)))
}

// Its eight operations in order, and then whether its iterator goes backwards.
fn operations(list: &ListDef) -> [bool; 9] {
    [
        list.init_in_place_with_capacity(),
        list.push(),
        list.pop(),
        list.set_len(),
        list.as_mut_ptr_typed(),
        list.reserve(),
        list.capacity(),
        list.from_raw_parts(),
        goes_backwards(list),
    ]
}

fn goes_backwards(list: &ListDef) -> bool {
    match list.iter_vtable() {
        Some(iterator) => iterator.next_back,
        None => false,
    }
}

#[test]
fn a_list_offers_the_operations_that_it_was_given(rt: HostRuntime) {
    for index in 0..8 {
        let mut expected = [false; 9];
        expected[index] = true;
        expected[8] = true;
        assert!(rt; offered(index) == expected);
    }
    assert!(rt; operations(&ListDef::new(LIST, ShapeId(3))) == [false; 9]);
}
