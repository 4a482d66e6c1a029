ghost use Rattle.std.specs.Prelude.{◌≡◌};

use facet_base::ShapeId;
use facet_caps::OptionVTable;

/// An option: its operations, and the shape of the value that it may hold.
#[derive(Drop)]
pub struct OptionDef {
    pub vtable: OptionVTable,
    pub t: ShapeId,
}

impl OptionDef {
    /// The option of these members.
    pub fn new(vtable: OptionVTable, t: ShapeId) -> OptionDef
        ensures { result ≡ record { vtable = vtable; t = t } }
    {
        OptionDef { vtable, t }
    }

    /// The shape of the value that it may hold.
    pub fn t(&self) -> ShapeId
        ensures { result ≡ self.now.t }
    {
        self.t
    }
}
