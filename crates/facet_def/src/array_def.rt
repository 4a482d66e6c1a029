ghost use Rattle.std.specs.Prelude.{◌≡◌};

use facet_base::ShapeId;
use facet_caps::ArrayVTable;

/// An array: its operations, the shape of its elements, and how many it has.
#[derive(Drop)]
pub struct ArrayDef {
    pub vtable: ArrayVTable,
    pub t: ShapeId,
    pub n: usize,
}

impl ArrayDef {
    /// The array of these members.
    pub fn new(vtable: ArrayVTable, t: ShapeId, n: usize) -> ArrayDef
        ensures { result ≡ record { vtable = vtable; t = t; n = n } }
    {
        ArrayDef { vtable, t, n }
    }

    /// The shape of its elements.
    pub fn t(&self) -> ShapeId
        ensures { result ≡ self.now.t }
    {
        self.t
    }
}
