use super::{field_with, list_of_one, lists};
use facet_base::{Many, Text};
use facet_desc::{
    EnumRepr, EnumType, EnumTypeBuilder, Repr, StructKind, StructType, Variant, VariantBuilder,
};
use std::alloc::{AllocError, Global};
use std::test::Fail;

// A variant of which every member is set, with one field.
fn tuple_variant(alloc: Global) -> Result<Variant, AllocError> {
    let (name, rename) = (Text::new(alloc, "A")?, Text::new(alloc, "b")?);
    let (attributes, doc) = lists(alloc)?;
    let fields = list_of_one(alloc, field_with(alloc, Many::new(alloc))?)?;
    let builder = VariantBuilder::tuple(alloc, name, fields)
        .rename(rename)
        .attributes(attributes)
        .doc(doc)
        .discriminant(-1);
    Ok(builder.build())
}

// Whether it goes by a name; how many fields, attributes and lines of description it has; its body's kind and
// representation; and its discriminant.
type VariantSummary = (bool, [usize; 3], StructKind, Repr, Option<i64>);

fn summary(variant: &Variant, name: &str) -> VariantSummary {
    let counts = [
        variant.body.fields.len(),
        variant.attributes.len(),
        variant.doc.len(),
    ];
    let is_named = variant.effective_name() == name;
    let (kind, repr) = (variant.body.kind, variant.body.repr);
    (is_named, counts, kind, repr, variant.discriminant)
}

fn unit_summary(alloc: Global) -> Result<VariantSummary, AllocError> {
    let name = Text::new(alloc, "A")?;
    Ok(summary(&VariantBuilder::unit(alloc, name).build(), "A"))
}

fn tuple_summary(alloc: Global) -> Result<VariantSummary, AllocError> {
    Ok(summary(&tuple_variant(alloc)?, "b"))
}

#[test]
fn a_variant_has_its_body_and_what_was_set(rt: HostRuntime) -> Result<(), Fail> {
    let unit = unit_summary(rt.alloc())?;
    assert!(rt; unit == (true, [0; 3], StructKind::Unit, Repr::C, None));
    let tuple = tuple_summary(rt.alloc())?;
    assert!(rt; tuple == (true, [1; 3], StructKind::TupleStruct, Repr::RUST, Some(-1)));
    Ok(())
}

fn numbered_variant(alloc: Global, name: &str, discriminant: i64) -> Result<Variant, AllocError> {
    let name = Text::new(alloc, name)?;
    let builder = VariantBuilder::new(alloc, name, StructType::unit(alloc));
    Ok(builder.discriminant(discriminant).build())
}

// Two variants of each name.
fn cow_variants(alloc: Global) -> Result<Many<Variant>, AllocError> {
    let mut variants = Many::new(alloc);
    for (name, discriminant) in [("Borrowed", 1), ("Owned", 2), ("Owned", 3), ("Borrowed", 4)] {
        variants.push(numbered_variant(alloc, name, discriminant)?)?;
    }
    Ok(variants)
}

fn discriminant_of(variant: Option<&Variant>) -> Option<i64> {
    variant?.discriminant
}

// An enum's representation, and the discriminants of its borrowed and its owned variant.
fn parts(enum_type: &EnumType) -> (Repr, [Option<i64>; 2]) {
    let borrowed = discriminant_of(enum_type.borrowed_variant());
    let owned = discriminant_of(enum_type.owned_variant());
    (enum_type.repr, [borrowed, owned])
}

// The same of an enum of these variants, whose values are borrowed or owned, or aren't.
fn parts_of(variants: Many<Variant>, cow: bool) -> (Repr, [Option<i64>; 2]) {
    let builder = EnumTypeBuilder::new(EnumRepr::U8, variants);
    let enum_type = if cow {
        builder.repr(Repr::RUST).cow().build()
    } else {
        builder.build()
    };
    parts(&enum_type)
}

#[test]
fn an_enum_has_its_two_variants_where_it_is_borrowed_or_owned(rt: HostRuntime) -> Result<(), Fail> {
    let (repr, found) = parts_of(cow_variants(rt.alloc())?, false);
    assert!(rt; repr == Repr::C);
    assert!(rt; found == [None, None]);
    let (repr, found) = parts_of(cow_variants(rt.alloc())?, true);
    assert!(rt; repr == Repr::RUST);
    assert!(rt; found == [Some(1), Some(2)]);
    Ok(())
}
