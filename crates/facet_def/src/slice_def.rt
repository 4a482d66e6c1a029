ghost use Rattle.std.specs.Prelude.{◌≡◌};

use facet_base::ShapeId;
use facet_caps::SliceVTable;

/// A slice: its operations, and the shape of its elements.
#[derive(Drop)]
pub struct SliceDef {
    pub vtable: SliceVTable,
    pub t: ShapeId,
}

impl SliceDef {
    /// The slice of these members.
    pub fn new(vtable: SliceVTable, t: ShapeId) -> SliceDef
        ensures { result ≡ record { vtable = vtable; t = t } }
    {
        SliceDef { vtable, t }
    }

    /// The shape of its elements.
    pub fn t(&self) -> ShapeId
        ensures { result ≡ self.now.t }
    {
        self.t
    }
}
