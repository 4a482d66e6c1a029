ghost use Rattle.std.specs.Prelude.{◌≡◌};

use crate::function::FunctionPointerDef;
use facet_base::ShapeId;

/// The types of pointers.
#[derive(Drop)]
pub enum PointerType {
    Reference(ValuePointerType),
    Raw(ValuePointerType),
    Function(FunctionPointerDef),
}

/// A pointer to values of the shape `target`; a wide one has metadata beside the address.
#[derive(Drop)]
pub struct ValuePointerType {
    pub mutable: bool,
    pub wide: bool,
    pub target: ShapeId,
}

impl ValuePointerType {
    /// The shape that it points to.
    pub fn target(&self) -> ShapeId
        ensures { result ≡ self.now.target }
    {
        self.target
    }
}
