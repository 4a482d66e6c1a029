ghost use Rattle.std.specs.Prelude.{◌≡◌};
ghost use Rattle.facet_makers.specs.Operations.{array_operations, box_operations, boxed_slice_operations, element_operations, iterator, list_operations, map_operations, option_operations, result_operations, set_operations, slice_operations};

use facet_base::Layout;
use facet_caps::{
    ArrayVTable, IterVTable, ListTypeOps, ListVTable, MapVTable, OptionVTable, PointerVTable,
    ResultVTable, SetVTable, SliceBuilderVTable, SliceVTable,
};
use facet_outline::{pair_layout, value_offset};

// Every operation of an iterator but its size hint.
fn iterator() -> IterVTable
    ensures { result ≡ iterator }
{
    IterVTable {
        init_with_value: true,
        next_back: true,
        ..IterVTable::new(true, true)
    }
}

/// Every operation of an option.
pub fn option_operations() -> OptionVTable
    ensures { result ≡ option_operations }
{
    OptionVTable {
        is_some: true,
        get_value: true,
        init_some: true,
        init_none: true,
        replace_with: true,
    }
}

/// Every operation of a result.
pub fn result_operations() -> ResultVTable
    ensures { result ≡ result_operations }
{
    ResultVTable {
        is_ok: true,
        get_ok: true,
        get_err: true,
        init_ok: true,
        init_err: true,
    }
}

/// Every operation of a list.
pub fn list_operations() -> ListVTable
    ensures { result ≡ list_operations }
{
    ListVTable {
        len: true,
        get: true,
        get_mut: true,
        as_ptr: true,
        as_mut_ptr: true,
        swap: true,
    }
}

/// Every operation of a list of elements of a known type.
pub fn element_operations() -> ListTypeOps
    ensures { result ≡ element_operations }
{
    ListTypeOps {
        iter_vtable: iterator(),
        init_in_place_with_capacity: true,
        push: true,
        pop: true,
        set_len: true,
        as_mut_ptr_typed: true,
        reserve: true,
        capacity: true,
        from_raw_parts: true,
    }
}

/// Every operation of a map whose keys and values have these layouts.
pub fn map_operations(key: Layout, value: Layout) -> MapVTable
    ensures { result ≡ map_operations key value }
{
    MapVTable {
        init_in_place_with_capacity: true,
        insert: true,
        len: true,
        contains_key: true,
        get_value_ptr: true,
        iter_vtable: iterator(),
        pair_stride: pair_layout(key, value).size,
        value_offset_in_pair: value_offset(key, value),
        from_pair_slice: true,
    }
}

/// Every operation of a set.
pub fn set_operations() -> SetVTable
    ensures { result ≡ set_operations }
{
    SetVTable {
        init_in_place_with_capacity: true,
        insert: true,
        len: true,
        contains: true,
        iter_vtable: iterator(),
        from_slice: true,
    }
}

/// Every operation of an array.
pub fn array_operations() -> ArrayVTable
    ensures { result ≡ array_operations }
{
    ArrayVTable {
        as_ptr: true,
        as_mut_ptr: true,
    }
}

/// Every operation of a slice.
pub fn slice_operations() -> SliceVTable
    ensures { result ≡ slice_operations }
{
    SliceVTable::new(true, true, true)
}

/// A box is borrowed, and made of its content.
pub fn box_operations() -> PointerVTable
    ensures { result ≡ box_operations }
{
    PointerVTable {
        borrow_fn: true,
        new_into_fn: true,
        ..PointerVTable::new()
    }
}

/// A boxed slice is borrowed, and built of its elements.
pub fn boxed_slice_operations() -> PointerVTable
    ensures { result ≡ boxed_slice_operations }
{
    let builder = SliceBuilderVTable::new(true, true, true, true);
    PointerVTable {
        borrow_fn: true,
        slice_builder_vtable: Some(builder),
        ..PointerVTable::new()
    }
}
