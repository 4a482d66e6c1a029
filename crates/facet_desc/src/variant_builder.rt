ghost use Rattle.std.specs.Prelude.{◌≡◌};
ghost use Rattle.facet_desc.specs.Variant.{fresh_variant};
ghost use Rattle.facet_desc.specs.StructType.{unit_struct};
ghost use Rattle.facet_desc.specs.WithoutSpare.{struct_without_spare, variant_without_spare};

use crate::attribute::Attr;
use crate::field::Field;
use crate::repr::Repr;
use crate::struct_type::{StructKind, StructType};
use crate::variant::Variant;
use facet_base::{Many, Text};
use std::alloc::Global;
use std::marker::Model;

/// Builds a variant. Contracts see the variant so far.
#[derive(Drop)]
pub struct VariantBuilder {
    variant: Variant,
}

impl Model for VariantBuilder {
    ghost use Rattle.facet_desc.specs.declared.variant.Variant.{Variant};

    ghost Value = { Variant };

    ghost view = { λ b. b.variant };
}

impl VariantBuilder {
    /// The variant of this name and body, with nothing else set. It takes no memory.
    #[tactic(auto, unfolding(crate::specs::Variant::fresh_variant, crate::specs::WithoutSpare::variant_without_spare))]
    pub fn new(alloc: Global, name: Text, body: StructType) -> VariantBuilder
        ensures fresh { variant_without_spare result ≡ fresh_variant name (struct_without_spare body) }
        ensures body { result.body ≡ body }
    {
        VariantBuilder {
            variant: Variant {
                name,
                rename: None,
                discriminant: None,
                attributes: Many::new(alloc),
                body,
                doc: Many::new(alloc),
            },
        }
    }

    /// The variant of this name without fields, with nothing else set. It takes no memory.
    pub fn unit(alloc: Global, name: Text) -> VariantBuilder
        ensures { variant_without_spare result ≡ fresh_variant name unit_struct }
    {
        VariantBuilder::new(alloc, name, StructType::unit(alloc))
    }

    /// The variant of this name whose body is a tuple struct of these fields in Rust's representation, with nothing
    /// else set. It takes no memory.
    pub fn tuple(alloc: Global, name: Text, fields: Many<Field>) -> VariantBuilder
        ensures fresh { variant_without_spare result ≡ fresh_variant name (struct_without_spare result.body) }
        ensures body { result.body ≡ record { repr = Repr.RUST; kind = StructKind.TupleStruct; fields = fields } }
    {
        let body = StructType {
            repr: Repr::RUST,
            kind: StructKind::TupleStruct,
            fields,
        };
        VariantBuilder::new(alloc, name, body)
    }

    /// Sets the name that stands in place of its own.
    pub fn rename(mut self, value: Text) -> Self
        ensures { result ≡ record self { rename = Some value } }
    {
        self.variant.rename = Some(value);
        self
    }

    /// Sets its discriminant.
    pub fn discriminant(mut self, value: i64) -> Self
        ensures { result ≡ record self { discriminant = Some value } }
    {
        self.variant.discriminant = Some(value);
        self
    }

    /// Sets the attributes.
    pub fn attributes(mut self, value: Many<Attr>) -> Self
        ensures { result ≡ record self { attributes = value } }
    {
        self.variant.attributes = value;
        self
    }

    /// Sets the lines of its description.
    pub fn doc(mut self, value: Many<Text>) -> Self
        ensures { result ≡ record self { doc = value } }
    {
        self.variant.doc = value;
        self
    }

    /// The variant as it was built.
    pub fn build(self) -> Variant
        ensures { result ≡ self }
    {
        self.variant
    }
}
