ghost use Rattle.std.specs.Prelude.{◌≡◌};

use facet_base::{KnownPointer, PointerFlags, ShapeId};
use facet_caps::PointerVTable;

/// A smart pointer: its operations, the shapes that belong to it, its flags, and which known pointer it is, if any.
#[derive(Drop)]
pub struct PointerDef {
    pub vtable: PointerVTable,
    /// The shape that it points to.
    pub pointee: Option<ShapeId>,
    /// The shape of the weak pointer that belongs to it.
    pub weak: Option<ShapeId>,
    /// The shape of the strong pointer that belongs to it.
    pub strong: Option<ShapeId>,
    pub flags: PointerFlags,
    pub known: Option<KnownPointer>,
}

impl PointerDef {
    ghost use Rattle.facet_def.specs.PointerDef.{is_made_of_pointee};

    /// The shape that it points to.
    pub fn pointee(&self) -> Option<ShapeId>
        ensures { result ≡ self.now.pointee }
    {
        self.pointee
    }

    /// The shape of the weak pointer that belongs to it.
    pub fn weak(&self) -> Option<ShapeId>
        ensures { result ≡ self.now.weak }
    {
        self.weak
    }

    /// The shape of the strong pointer that belongs to it.
    pub fn strong(&self) -> Option<ShapeId>
        ensures { result ≡ self.now.strong }
    {
        self.strong
    }

    /// Whether it can be made of the value that it points to.
    pub fn constructible_from_pointee(&self) -> bool
        ensures { result ≡ is_made_of_pointee self.now }
    {
        self.vtable.new_into_fn
            || matches!(
                self.known,
                Some(KnownPointer::Box | KnownPointer::Rc | KnownPointer::Arc)
            )
    }
}
