ghost use Rattle.std.specs.Prelude.{◌≡◌};
ghost use Rattle.facet_desc.specs.StructType.{unit_struct};
ghost use Rattle.facet_desc.specs.WithoutSpare.{struct_without_spare};

use crate::field::Field;
use crate::repr::Repr;
use facet_base::Many;
use std::alloc::Global;
use std::marker::Model;

/// A struct, a tuple or what a variant holds.
#[derive(Drop)]
pub struct StructType {
    pub repr: Repr,
    pub kind: StructKind,
    pub fields: Many<Field>,
}

/// How the fields of a struct are written.
#[derive(Clone, Copy, PartialEq, Eq, Hash, Debug)]
pub enum StructKind {
    Unit,
    TupleStruct,
    Struct,
    Tuple,
}

impl StructType {
    /// The struct without fields. It takes no memory.
    #[tactic(auto, unfolding(crate::specs::StructType::unit_struct, crate::specs::WithoutSpare::struct_without_spare))]
    pub fn unit(alloc: Global) -> StructType
        ensures { struct_without_spare result ≡ unit_struct }
    {
        StructType {
            repr: Repr::C,
            kind: StructKind::Unit,
            fields: Many::new(alloc),
        }
    }
}

/// Builds a struct. Contracts see the struct so far.
#[derive(Drop)]
pub struct StructTypeBuilder {
    built: StructType,
}

impl Model for StructTypeBuilder {
    ghost use Rattle.facet_desc.specs.declared.struct_type.StructType.{StructType};

    ghost Value = { StructType };

    ghost view = { λ b. b.built };
}

impl StructTypeBuilder {
    /// The struct of this kind and these fields, in C's representation.
    pub fn new(kind: StructKind, fields: Many<Field>) -> StructTypeBuilder
        ensures { result ≡ record { repr = Repr.C; kind = kind; fields = fields } }
    {
        StructTypeBuilder {
            built: StructType {
                repr: Repr::C,
                kind,
                fields,
            },
        }
    }

    /// Sets its representation.
    pub fn repr(mut self, value: Repr) -> Self
        ensures { result ≡ record self { repr = value } }
    {
        self.built.repr = value;
        self
    }

    /// The struct as it was built.
    pub fn build(self) -> StructType
        ensures { result ≡ self }
    {
        self.built
    }
}
