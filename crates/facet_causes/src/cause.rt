ghost use Rattle.std.specs.Prelude.{◌≡◌};

use facet_base::ShapeId;
use std::alloc::AllocError;

/// Why shapes aren't sealed, in the order in which causes are looked for.
#[derive(Clone, Copy, Debug, PartialEq, Eq)]
pub enum SealCause {
    /// A reference leads to no shape.
    UnknownShape,
    /// A reference that must stand before the shape doesn't.
    EagerForward,
    /// The definition, the type, the parameters and the record don't fit together.
    Mismatch,
    /// The values, or those of a part, share no size.
    UnsizedPart,
    /// Values would lie in themselves.
    InlineCycle,
    /// Values take too many bytes or have too many parts, the name is too long, or the shape lies too deep.
    TooLarge,
    /// The layout is none that the values can have.
    BadLayout,
    /// A field or the tag ends behind the size.
    FieldOutside,
    /// A field doesn't lie at a multiple of its alignment.
    FieldMisaligned,
    /// Two fields, or a field and the tag, share a byte.
    FieldOverlap,
    /// A leaf takes no byte.
    ZeroSizedScalar,
    /// Two variants have one discriminant.
    DiscriminantRepeated,
    /// A discriminant isn't a number of the representation's type.
    DiscriminantRange,
    /// There is no order of the keys of a map or the items of a set.
    KeyNotOrd,
    /// The record has a member that isn't offered for such values.
    CapabilityMissing,
}

/// A refusal: the first cause that some shape meets, and the least shape that meets it.
#[derive(Clone, Copy, Debug, PartialEq, Eq)]
pub struct SealError {
    pub cause: SealCause,
    pub shape: ShapeId,
}

/// Why shapes weren't sealed.
#[derive(Clone, Copy, Debug, PartialEq, Eq)]
pub enum SealFault {
    Refused(SealError),
    NoMemory,
}

impl From<AllocError> for SealFault {
    ghost use Rattle.facet_causes.specs.declared.cause.SealFault.TheVariants.{NoMemory};

    ghost from_gives = { λ _ e. e ≡ NoMemory };

    fn from(_: AllocError) -> SealFault {
        SealFault::NoMemory
    }
}
