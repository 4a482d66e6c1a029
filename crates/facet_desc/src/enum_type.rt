ghost use Rattle.std.specs.Prelude.{◌≡◌, codes, false, true};
ghost use Rattle.std.specs.Option.{option_copied};
ghost use Rattle.facet_desc.specs.Variant.{cow_variant, variant_named};

use crate::repr::{EnumRepr, Repr};
use crate::variant::Variant;
use facet_base::Many;
use std::marker::Model;

/// An enum.
#[derive(Drop)]
pub struct EnumType {
    pub repr: Repr,
    pub enum_repr: EnumRepr,
    pub variants: Many<Variant>,
    pub is_cow: bool,
}

impl EnumType {
    /// The first variant named `Borrowed` of an enum that is borrowed or owned; of another there is none.
    pub fn borrowed_variant(&self) -> Option<&Variant>
        ensures { option_copied result ≡ cow_variant (codes "Borrowed") self.now }
    {
        find_cow_variant(self, "Borrowed")
    }

    /// The first variant named `Owned` of an enum that is borrowed or owned; of another there is none.
    pub fn owned_variant(&self) -> Option<&Variant>
        ensures { option_copied result ≡ cow_variant (codes "Owned") self.now }
    {
        find_cow_variant(self, "Owned")
    }
}

// The first variant of that name, where the enum's values are borrowed or owned.
fn find_cow_variant<'a>(enum_type: &'a EnumType, name: &str) -> Option<&'a Variant>
    ensures { option_copied result ≡ cow_variant name.now enum_type.now }
{
    if enum_type.is_cow {
        find_variant(enum_type.variants.as_slice(), name)
    } else {
        None
    }
}

// The first variant of that name.
fn find_variant<'a>(variants: &'a [Variant], name: &str) -> Option<&'a Variant>
    ensures { option_copied result ≡ variant_named name.now variants.now }
{
    variants
        .iter()
        .find(|variant| variant.name.as_str() == name)
}

/// Builds an enum. Contracts see the enum so far.
#[derive(Drop)]
pub struct EnumTypeBuilder {
    built: EnumType,
}

impl Model for EnumTypeBuilder {
    ghost use Rattle.facet_desc.specs.declared.enum_type.EnumType.{EnumType};

    ghost Value = { EnumType };

    ghost view = { λ b. b.built };
}

impl EnumTypeBuilder {
    /// The enum of this discriminant type and these variants, in C's representation, whose values aren't borrowed or owned.
    pub fn new(enum_repr: EnumRepr, variants: Many<Variant>) -> EnumTypeBuilder
        ensures { result ≡ record { repr = Repr.C; enum_repr = enum_repr; variants = variants; is_cow = false } }
    {
        EnumTypeBuilder {
            built: EnumType {
                repr: Repr::C,
                enum_repr,
                variants,
                is_cow: false,
            },
        }
    }

    /// Sets its representation.
    pub fn repr(mut self, value: Repr) -> Self
        ensures { result ≡ record self { repr = value } }
    {
        self.built.repr = value;
        self
    }

    /// Says that its values are borrowed or owned.
    pub fn cow(mut self) -> Self
        ensures { result ≡ record self { is_cow = true } }
    {
        self.built.is_cow = true;
        self
    }

    /// The enum as it was built.
    pub fn build(self) -> EnumType
        ensures { result ≡ self }
    {
        self.built
    }
}
