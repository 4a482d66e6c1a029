ghost use Rattle.std.specs.Prelude.{◌≡◌};

use facet_base::ShapeId;

/// An array of several dimensions: the shape of its elements.
#[derive(Drop)]
pub struct NdArrayDef {
    pub t: ShapeId,
}

impl NdArrayDef {
    /// The array of this member.
    pub fn new(t: ShapeId) -> NdArrayDef
        ensures { result ≡ record { t = t } }
    {
        NdArrayDef { t }
    }

    /// The shape of its elements.
    pub fn t(&self) -> ShapeId
        ensures { result ≡ self.now.t }
    {
        self.t
    }
}
