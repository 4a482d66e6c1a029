ghost use Rattle.std.specs.Prelude.{◌≡◌};
ghost use Rattle.facet_shape.specs.ShapeBuilder.{with_flag, with_marker};

use crate::shape_builder::ShapeBuilder;
use facet_base::{MarkerTraits, ShapeFlags};

impl ShapeBuilder {
    /// Notes marker traits that the type has beside those noted before.
    pub fn add_marker_trait(mut self, flag: MarkerTraits) -> Self
        ensures { result ≡ with_marker flag.bits self }
    {
        self.shape.marker_traits |= flag;
        self
    }

    /// Notes that the type is `Eq`.
    pub fn eq(self) -> Self
        ensures { result ≡ with_marker MarkerTraits.EQ.bits self }
    {
        self.add_marker_trait(MarkerTraits::EQ)
    }

    /// Notes that the type is `Copy`.
    pub fn copy(self) -> Self
        ensures { result ≡ with_marker MarkerTraits.COPY.bits self }
    {
        self.add_marker_trait(MarkerTraits::COPY)
    }

    /// Notes that the type is `Send`.
    pub fn send(self) -> Self
        ensures { result ≡ with_marker MarkerTraits.SEND.bits self }
    {
        self.add_marker_trait(MarkerTraits::SEND)
    }

    /// Notes that the type is `Sync`.
    pub fn sync(self) -> Self
        ensures { result ≡ with_marker MarkerTraits.SYNC.bits self }
    {
        self.add_marker_trait(MarkerTraits::SYNC)
    }

    /// Notes that the type is `Unpin`.
    pub fn unpin(self) -> Self
        ensures { result ≡ with_marker MarkerTraits.UNPIN.bits self }
    {
        self.add_marker_trait(MarkerTraits::UNPIN)
    }

    /// Notes that the type is `UnwindSafe`.
    pub fn unwind_safe(self) -> Self
        ensures { result ≡ with_marker MarkerTraits.UNWIND_SAFE.bits self }
    {
        self.add_marker_trait(MarkerTraits::UNWIND_SAFE)
    }

    /// Notes that the type is `RefUnwindSafe`.
    pub fn ref_unwind_safe(self) -> Self
        ensures { result ≡ with_marker MarkerTraits.REF_UNWIND_SAFE.bits self }
    {
        self.add_marker_trait(MarkerTraits::REF_UNWIND_SAFE)
    }

    // Notes flags beside those noted before.
    fn add_flag(mut self, flag: ShapeFlags) -> Self
        ensures { result ≡ with_flag flag.bits self }
    {
        self.shape.flags |= flag;
        self
    }

    /// Notes that a serialized enum has no tag.
    pub fn untagged(self) -> Self
        ensures { result ≡ with_flag ShapeFlags.UNTAGGED.bits self }
    {
        self.add_flag(ShapeFlags::UNTAGGED)
    }

    /// Notes that an enum is serialized as its discriminant.
    pub fn is_numeric(self) -> Self
        ensures { result ≡ with_flag ShapeFlags.NUMERIC.bits self }
    {
        self.add_flag(ShapeFlags::NUMERIC)
    }

    /// Notes that any values of its parts make a value of it.
    pub fn pod(self) -> Self
        ensures { result ≡ with_flag ShapeFlags.POD.bits self }
    {
        self.add_flag(ShapeFlags::POD)
    }

    /// Notes that it is serialized as its one field that is no metadata.
    pub fn metadata_container(self) -> Self
        ensures { result ≡ with_flag ShapeFlags.METADATA_CONTAINER.bits self }
    {
        self.add_flag(ShapeFlags::METADATA_CONTAINER)
    }
}
