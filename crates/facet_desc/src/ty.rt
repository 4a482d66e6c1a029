ghost use Rattle.std.specs.Prelude.{◌≡◌, false};
ghost use Rattle.facet_desc.specs.Repr.{user_repr};
ghost use Rattle.facet_desc.specs.Ty.{kind_text};

use crate::enum_type::{EnumType, EnumTypeBuilder};
use crate::field::Field;
use crate::pointer::PointerType;
use crate::primitive::PrimitiveType;
use crate::repr::{EnumRepr, Repr};
use crate::sequence::SequenceType;
use crate::struct_type::{StructKind, StructType, StructTypeBuilder};
use crate::variant::Variant;
use facet_base::Many;
use std::marker::Model;

/// What kind of type a shape is of, with its parts.
#[derive(Drop)]
pub enum Ty {
    Undefined,
    Primitive(PrimitiveType),
    Sequence(SequenceType),
    User(UserType),
    Pointer(PointerType),
}

impl Ty {
    /// The word for its kind.
    pub fn kind_str(&self) -> &str
        ensures { result.now ≡ kind_text self.now }
    {
        match self {
            Ty::Undefined => "undefined",
            Ty::Primitive(_) => "primitive",
            Ty::Sequence(SequenceType::Array(_)) => "array",
            Ty::Sequence(SequenceType::Slice(_)) => "slice",
            Ty::User(UserType::Struct(_)) => "struct",
            Ty::User(UserType::Enum(_)) => "enum",
            Ty::User(UserType::Opaque) => "opaque",
            Ty::Pointer(PointerType::Reference(_)) => "ref",
            Ty::Pointer(PointerType::Raw(_)) => "ptr",
            Ty::Pointer(PointerType::Function(_)) => "fn",
        }
    }

    /// Begins the type of a struct of this kind and these fields, in C's representation.
    pub fn struct_builder(kind: StructKind, fields: Many<Field>) -> TypeStructBuilder
        ensures { result ≡ record { repr = Repr.C; kind = kind; fields = fields } }
    {
        TypeStructBuilder {
            builder: StructTypeBuilder::new(kind, fields),
        }
    }

    /// Begins the type of an enum of this discriminant type and these variants, in C's representation.
    pub fn enum_builder(enum_repr: EnumRepr, variants: Many<Variant>) -> TypeEnumBuilder
        ensures { result ≡ record { repr = Repr.C; enum_repr = enum_repr; variants = variants; is_cow = false } }
    {
        TypeEnumBuilder {
            builder: EnumTypeBuilder::new(enum_repr, variants),
        }
    }
}

/// The types that programs declare.
#[derive(Drop)]
pub enum UserType {
    Struct(StructType),
    Enum(EnumType),
    Opaque,
}

impl UserType {
    /// Its representation, and none exactly for an opaque type.
    pub fn repr(&self) -> Option<Repr>
        ensures { result ≡ user_repr self.now }
    {
        match self {
            UserType::Struct(struct_type) => Some(struct_type.repr),
            UserType::Enum(enum_type) => Some(enum_type.repr),
            UserType::Opaque => None,
        }
    }
}

/// Builds the type of a struct. Contracts see the struct so far.
#[derive(Drop)]
pub struct TypeStructBuilder {
    builder: StructTypeBuilder,
}

impl Model for TypeStructBuilder {
    ghost use Rattle.facet_desc.specs.declared.struct_type.StructType.{StructType};

    ghost Value = { StructType };

    ghost view = { λ b. b.builder };
}

impl TypeStructBuilder {
    /// Sets its representation.
    pub fn repr(self, value: Repr) -> Self
        ensures { result ≡ record self { repr = value } }
    {
        TypeStructBuilder {
            builder: self.builder.repr(value),
        }
    }

    /// The type as it was built.
    pub fn build(self) -> Ty
        ensures { result ≡ Ty.User (UserType.Struct self) }
    {
        Ty::User(UserType::Struct(self.builder.build()))
    }
}

/// Builds the type of an enum. Contracts see the enum so far.
#[derive(Drop)]
pub struct TypeEnumBuilder {
    builder: EnumTypeBuilder,
}

impl Model for TypeEnumBuilder {
    ghost use Rattle.facet_desc.specs.declared.enum_type.EnumType.{EnumType};

    ghost Value = { EnumType };

    ghost view = { λ b. b.builder };
}

impl TypeEnumBuilder {
    /// Sets its representation.
    pub fn repr(self, value: Repr) -> Self
        ensures { result ≡ record self { repr = value } }
    {
        TypeEnumBuilder {
            builder: self.builder.repr(value),
        }
    }

    /// The type as it was built.
    pub fn build(self) -> Ty
        ensures { result ≡ Ty.User (UserType.Enum self) }
    {
        Ty::User(UserType::Enum(self.builder.build()))
    }
}
