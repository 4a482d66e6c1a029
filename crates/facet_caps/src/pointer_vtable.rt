ghost use Rattle.std.specs.Prelude.{◌≡◌};
ghost use Rattle.facet_caps.specs.EmptyRecords.{empty_pointer};

use crate::slice_builder_vtable::SliceBuilderVTable;

/// The operations of a smart pointer.
#[derive(Clone, Copy)]
pub struct PointerVTable {
    pub upgrade_into_fn: bool,
    pub downgrade_into_fn: bool,
    pub borrow_fn: bool,
    pub new_into_fn: bool,
    pub lock_fn: bool,
    pub read_fn: bool,
    pub write_fn: bool,
    pub slice_builder_vtable: Option<SliceBuilderVTable>,
}

impl PointerVTable {
    /// The record without a member.
    pub fn new() -> PointerVTable
        ensures { result ≡ empty_pointer }
    {
        PointerVTable {
            upgrade_into_fn: false,
            downgrade_into_fn: false,
            borrow_fn: false,
            new_into_fn: false,
            lock_fn: false,
            read_fn: false,
            write_fn: false,
            slice_builder_vtable: None,
        }
    }
}

impl Default for PointerVTable {
    ghost is_default = { λ vtable. vtable ≡ empty_pointer };

    fn default() -> PointerVTable {
        PointerVTable::new()
    }
}
