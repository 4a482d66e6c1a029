ghost use Rattle.std.specs.Prelude.{◌≡◌};

use facet_base::ShapeId;
use facet_caps::MapVTable;

/// A map: its operations, and the shapes of its keys and values.
#[derive(Drop)]
pub struct MapDef {
    pub vtable: MapVTable,
    pub k: ShapeId,
    pub v: ShapeId,
}

impl MapDef {
    /// The map of these members.
    pub fn new(vtable: MapVTable, k: ShapeId, v: ShapeId) -> MapDef
        ensures { result ≡ record { vtable = vtable; k = k; v = v } }
    {
        MapDef { vtable, k, v }
    }

    /// The shape of its keys.
    pub fn k(&self) -> ShapeId
        ensures { result ≡ self.now.k }
    {
        self.k
    }

    /// The shape of its values.
    pub fn v(&self) -> ShapeId
        ensures { result ≡ self.now.v }
    {
        self.v
    }
}
