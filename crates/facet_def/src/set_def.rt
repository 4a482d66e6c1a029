ghost use Rattle.std.specs.Prelude.{◌≡◌};

use facet_base::ShapeId;
use facet_caps::SetVTable;

/// A set: its operations, and the shape of its items.
#[derive(Drop)]
pub struct SetDef {
    pub vtable: SetVTable,
    pub t: ShapeId,
}

impl SetDef {
    /// The set of these members.
    pub fn new(vtable: SetVTable, t: ShapeId) -> SetDef
        ensures { result ≡ record { vtable = vtable; t = t } }
    {
        SetDef { vtable, t }
    }

    /// The shape of its items.
    pub fn t(&self) -> ShapeId
        ensures { result ≡ self.now.t }
    {
        self.t
    }
}
