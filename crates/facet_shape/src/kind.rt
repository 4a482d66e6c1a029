ghost use Rattle.std.specs.Prelude.{◌≡◌, ◌||◌, None, codes};
ghost use Rattle.facet_base.specs.Flags.{contains_flag};
ghost use Rattle.facet_desc.specs.Attribute.{has_attribute};
ghost use Rattle.facet_shape.specs.Def.{is_slice_builder};
ghost use Rattle.facet_shape.specs.Ty.{is_cow_enum, is_primitive, is_transparent_struct};

use crate::shape::Shape;
use facet_base::{Flags, ShapeFlags};
use facet_def::Def;
use facet_desc::{BaseRepr, Ty, UserType};

impl Shape {
    /// Whether its values are pointers that are made by a slice builder, all their items at once.
    pub fn requires_eager_materialization(&self) -> bool
        ensures { result ≡ is_slice_builder self.now.def }
    {
        match &self.def {
            Def::Pointer(pointer) => pointer.vtable.slice_builder_vtable.is_some(),
            _ => false,
        }
    }

    /// Whether it stands for the one value that it wraps: by the builtin attribute `transparent`, or as a
    /// struct of that value's representation.
    pub fn is_transparent(&self) -> bool
        ensures { result ≡ (has_attribute None (codes "transparent") self.now.attributes.items || is_transparent_struct self.now.ty) }
    {
        self.has_builtin_attr("transparent") || has_transparent_struct(&self.ty)
    }

    /// Whether a serialized enum has no tag.
    pub fn is_untagged(&self) -> bool
        ensures { result ≡ contains_flag self.now.flags.bits ShapeFlags.UNTAGGED.bits }
    {
        self.flags.contains(ShapeFlags::UNTAGGED)
    }

    /// Whether an enum is serialized as its discriminant.
    pub fn is_numeric(&self) -> bool
        ensures { result ≡ contains_flag self.now.flags.bits ShapeFlags.NUMERIC.bits }
    {
        self.flags.contains(ShapeFlags::NUMERIC)
    }

    /// Whether it is serialized as its one field that is no metadata.
    pub fn is_metadata_container(&self) -> bool
        ensures { result ≡ contains_flag self.now.flags.bits ShapeFlags.METADATA_CONTAINER.bits }
    {
        self.flags.contains(ShapeFlags::METADATA_CONTAINER)
    }

    /// Whether any values of its parts make a value of it: as a primitive type, or by the flag `POD`.
    pub fn is_pod(&self) -> bool
        ensures { result ≡ (is_primitive self.now.ty || contains_flag self.now.flags.bits ShapeFlags.POD.bits) }
    {
        matches!(self.ty, Ty::Primitive(_)) || self.flags.contains(ShapeFlags::POD)
    }

    /// Whether it is an enum whose values are borrowed or owned.
    pub fn is_cow(&self) -> bool
        ensures { result ≡ is_cow_enum self.now.ty }
    {
        match &self.ty {
            Ty::User(UserType::Enum(enum_type)) => enum_type.is_cow,
            _ => false,
        }
    }
}

// Whether it is a struct of the representation of its only field with a size.
fn has_transparent_struct(ty: &Ty) -> bool
    ensures { result ≡ is_transparent_struct ty.now }
{
    match ty {
        Ty::User(UserType::Struct(struct_type)) => struct_type.repr.base == BaseRepr::Transparent,
        _ => false,
    }
}
