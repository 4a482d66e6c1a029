ghost use Rattle.std.specs.Prelude.{◌≡◌};

/// The operations of a slice.
#[derive(Clone, Copy)]
pub struct SliceVTable {
    pub len: bool,
    pub as_ptr: bool,
    pub as_mut_ptr: bool,
}

impl SliceVTable {
    /// The record of these members.
    pub fn new(len: bool, as_ptr: bool, as_mut_ptr: bool) -> SliceVTable
        ensures { result ≡ record { len = len; as_ptr = as_ptr; as_mut_ptr = as_mut_ptr } }
    {
        SliceVTable {
            len,
            as_ptr,
            as_mut_ptr,
        }
    }
}
