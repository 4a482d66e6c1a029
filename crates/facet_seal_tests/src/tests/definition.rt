use facet_base::{KnownPointer, PointerFlags, ShapeId};
use facet_caps::{
    ArrayVTable, IterVTable, ListVTable, MapVTable, OptionVTable, PointerVTable, ResultVTable,
    SetVTable, SliceVTable,
};
use facet_def::{Def, DynamicValueDef, NdArrayDef, PointerDef, SliceDef};

// A definition, by the ids of its parts.
#[derive(Clone, Copy)]
pub enum Definition {
    Undefined,
    Scalar,
    MapOf(u32, u32),
    SetOf(u32),
    ListOf(u32),
    ArrayOf(u32, usize),
    NdArrayOf(u32),
    SliceOf(u32),
    OptionOf(u32),
    ResultOf(u32, u32),
    BoxOf(Option<u32>),
    RcOf(Option<u32>),
    DynamicValue,
}

const ITERATOR: IterVTable = IterVTable {
    next: true,
    dealloc: true,
    init_with_value: false,
    next_back: false,
    size_hint: false,
};

const MAP: MapVTable = MapVTable {
    init_in_place_with_capacity: true,
    insert: true,
    len: true,
    contains_key: true,
    get_value_ptr: true,
    iter_vtable: ITERATOR,
    pair_stride: 8,
    value_offset_in_pair: 4,
    from_pair_slice: false,
};

const SET: SetVTable = SetVTable {
    init_in_place_with_capacity: true,
    insert: true,
    len: true,
    contains: true,
    iter_vtable: ITERATOR,
    from_slice: false,
};

const LIST: ListVTable = ListVTable {
    len: true,
    get: true,
    get_mut: false,
    as_ptr: false,
    as_mut_ptr: false,
    swap: false,
};

const ARRAY: ArrayVTable = ArrayVTable {
    as_ptr: true,
    as_mut_ptr: true,
};

const SLICE: SliceVTable = SliceVTable {
    len: true,
    as_ptr: true,
    as_mut_ptr: true,
};

const OPTION: OptionVTable = OptionVTable {
    is_some: true,
    get_value: true,
    init_some: true,
    init_none: true,
    replace_with: true,
};

const RESULT: ResultVTable = ResultVTable {
    is_ok: true,
    get_ok: true,
    get_err: true,
    init_ok: true,
    init_err: true,
};

fn pointer(known: KnownPointer, pointee: Option<u32>) -> Def {
    let pointee = match pointee {
        Some(id) => Some(ShapeId(id)),
        None => None,
    };
    Def::Pointer(PointerDef {
        vtable: PointerVTable::new(),
        pointee,
        weak: None,
        strong: None,
        flags: PointerFlags::EMPTY,
        known: Some(known),
    })
}

// The definition with its operations.
pub fn def(definition: Definition) -> Def {
    match definition {
        Definition::Undefined => Def::Undefined,
        Definition::Scalar => Def::Scalar,
        Definition::MapOf(k, v) => Def::map_builder(MAP, ShapeId(k), ShapeId(v)).build(),
        Definition::SetOf(t) => Def::set_builder(SET, ShapeId(t)).build(),
        Definition::ListOf(t) => Def::list_builder(LIST, ShapeId(t)).build(),
        Definition::ArrayOf(t, n) => Def::array_builder(ARRAY, ShapeId(t), n).build(),
        Definition::NdArrayOf(t) => Def::NdArray(NdArrayDef::new(ShapeId(t))),
        Definition::SliceOf(t) => Def::Slice(SliceDef::new(SLICE, ShapeId(t))),
        Definition::OptionOf(t) => Def::option_builder(OPTION, ShapeId(t)).build(),
        Definition::ResultOf(t, e) => Def::result_builder(RESULT, ShapeId(t), ShapeId(e)).build(),
        Definition::BoxOf(t) => pointer(KnownPointer::Box, t),
        Definition::RcOf(t) => pointer(KnownPointer::Rc, t),
        Definition::DynamicValue => Def::DynamicValue(DynamicValueDef::new()),
    }
}
