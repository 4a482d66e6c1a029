ghost use Rattle.std.specs.Prelude.{◌≡◌};

/// The steps in which a pointer to a slice is made: begun, given elements, and ended or given up.
#[derive(Clone, Copy)]
pub struct SliceBuilderVTable {
    pub new_fn: bool,
    pub push_fn: bool,
    pub convert_fn: bool,
    pub free_fn: bool,
}

impl SliceBuilderVTable {
    /// The record of these members.
    pub fn new(new_fn: bool, push_fn: bool, convert_fn: bool, free_fn: bool) -> SliceBuilderVTable
        ensures { result ≡ record {
          new_fn = new_fn;
          push_fn = push_fn;
          convert_fn = convert_fn;
          free_fn = free_fn;
        } }
    {
        SliceBuilderVTable {
            new_fn,
            push_fn,
            convert_fn,
            free_fn,
        }
    }
}
