ghost use Rattle.std.specs.Prelude.{◌≡◌};

use facet_base::ShapeId;
use facet_caps::ResultVTable;

/// A result: its operations, and the shapes of its value and its error.
#[derive(Drop)]
pub struct ResultDef {
    pub vtable: ResultVTable,
    pub t: ShapeId,
    pub e: ShapeId,
}

impl ResultDef {
    /// The result of these members.
    pub fn new(vtable: ResultVTable, t: ShapeId, e: ShapeId) -> ResultDef
        ensures { result ≡ record { vtable = vtable; t = t; e = e } }
    {
        ResultDef { vtable, t, e }
    }

    /// The shape of its value.
    pub fn t(&self) -> ShapeId
        ensures { result ≡ self.now.t }
    {
        self.t
    }

    /// The shape of its error.
    pub fn e(&self) -> ShapeId
        ensures { result ≡ self.now.e }
    {
        self.e
    }
}
