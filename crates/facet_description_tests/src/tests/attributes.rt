use super::{attribute, field_with, one_attribute, true_at, variant_with};
use facet_base::{Many, ShapeId, Text};
use facet_desc::{Attr, AttrData, AttrKind, Field, Variant};
use std::alloc::{AllocError, Global};
use std::test::Fail;

// What is asked of a field by its attributes: the constants below are the indices.
fn field_questions(field: &Field) -> [bool; 9] {
    [
        field.is_text(),
        field.is_elements(),
        field.is_element(),
        field.is_attribute(),
        field.is_tag(),
        field.is_doctype(),
        field.is_other(),
        field.is_variant_tag(),
        field.is_variant_content(),
    ]
}

// What is asked of a variant by its attributes.
fn variant_questions(variant: &Variant) -> [bool; 3] {
    [
        variant.is_text(),
        variant.is_custom_element(),
        variant.is_other(),
    ]
}

// The same of a field that has one attribute.
fn questions_in_field(alloc: Global, ns: Option<&str>, key: &str) -> Result<[bool; 9], AllocError> {
    let attributes = one_attribute(alloc, ns, key)?;
    match field_with(alloc, attributes) {
        Ok(field) => Ok(field_questions(&field)),
        Err(error) => Err(error),
    }
}

// The same of a variant that has one attribute.
fn questions_in_variant(
    alloc: Global,
    ns: Option<&str>,
    key: &str,
) -> Result<[bool; 3], AllocError> {
    let attributes = one_attribute(alloc, ns, key)?;
    match variant_with(alloc, attributes) {
        Ok(variant) => Ok(variant_questions(&variant)),
        Err(error) => Err(error),
    }
}

// Indices of the questions about a field, and one past them.
const TEXT: usize = 0;

const ELEMENTS: usize = 1;

const ELEMENT: usize = 2;

const ATTRIBUTE: usize = 3;

const TAG: usize = 4;

const DOCTYPE: usize = 5;

const OTHER: usize = 6;

const VARIANT_TAG: usize = 7;

const VARIANT_CONTENT: usize = 8;

const NONE: usize = 9;

// Indices of the questions about a variant, and one past them.
const VARIANT_TEXT: usize = 0;

const CUSTOM_ELEMENT: usize = 1;

const VARIANT_OTHER: usize = 2;

const NOT_ONE: usize = 3;

// Attributes, and what alone holds of a field and of a variant that has that attribute alone.
fn rows() -> [(Option<&'static str>, &'static str, usize, usize, usize); 19] {
    [
        (None, "text", TEXT, NONE, VARIANT_TEXT),
        (Some("xml"), "text", TEXT, NONE, VARIANT_TEXT),
        (Some("html"), "text", TEXT, NONE, VARIANT_TEXT),
        (Some("json"), "text", NONE, NONE, NOT_ONE),
        (None, "elements", ELEMENTS, NONE, NOT_ONE),
        (Some("html"), "element", ELEMENT, NONE, NOT_ONE),
        (Some("xml"), "attribute", ATTRIBUTE, NONE, NOT_ONE),
        (None, "tag", TAG, VARIANT_TAG, NOT_ONE),
        (Some("xml"), "tag", TAG, NONE, NOT_ONE),
        (Some("html"), "tag", TAG, NONE, NOT_ONE),
        (Some("xml"), "doctype", DOCTYPE, NONE, NOT_ONE),
        (None, "doctype", NONE, NONE, NOT_ONE),
        (None, "other", OTHER, NONE, VARIANT_OTHER),
        (Some("xml"), "other", NONE, NONE, NOT_ONE),
        (None, "content", VARIANT_CONTENT, NONE, NOT_ONE),
        (None, "custom_element", NONE, NONE, CUSTOM_ELEMENT),
        (Some("xml"), "custom_element", NONE, NONE, CUSTOM_ELEMENT),
        (Some("json"), "custom_element", NONE, NONE, NOT_ONE),
        (None, "Text", NONE, NONE, NOT_ONE),
    ]
}

#[test]
fn fields_and_variants_are_classed_by_their_attribute(rt: HostRuntime) -> Result<(), Fail> {
    for (ns, key, first, second, of_variant) in rows() {
        let in_field = questions_in_field(rt.alloc(), ns, key)?;
        assert!(rt; in_field == true_at(first, second));
        let in_variant = questions_in_variant(rt.alloc(), ns, key)?;
        let expected = [of_variant == 0, of_variant == 1, of_variant == 2];
        assert!(rt; in_variant == expected);
    }
    Ok(())
}

// `a` under xml, then builtin twice.
fn three_attributes(alloc: Global) -> Result<Many<Attr>, AllocError> {
    let mut attributes = Many::new(alloc);
    for (ns, number) in [(Some("xml"), 1), (None, 2), (None, 3)] {
        attributes.push(attribute(alloc, ns, "a", number)?)?;
    }
    Ok(attributes)
}

// The number in an attribute, and 0 where none is found.
fn number_in(found: Option<&Attr>) -> i128 {
    match found {
        Some(attribute) => match attribute.payload {
            AttrData::Int(number) => number,
            _ => 0,
        },
        None => 0,
    }
}

// What is found by namespace and key, and builtin by key; and whether each is.
type Found = ([i128; 2], [bool; 2]);

fn found_by_field(field: &Field, ns: Option<&str>, key: &str) -> Found {
    let named = number_in(field.get_attr(ns, key));
    let builtin = number_in(field.get_builtin_attr(key));
    let there = [field.has_attr(ns, key), field.has_builtin_attr(key)];
    ([named, builtin], there)
}

fn found_by_variant(variant: &Variant, ns: Option<&str>, key: &str) -> Found {
    let named = number_in(variant.get_attr(ns, key));
    let builtin = number_in(variant.get_builtin_attr(key));
    let there = [variant.has_attr(ns, key), variant.has_builtin_attr(key)];
    ([named, builtin], there)
}

// The same of a field that has the three attributes.
fn found_in_field(alloc: Global, ns: Option<&str>, key: &str) -> Result<Found, AllocError> {
    let attributes = three_attributes(alloc)?;
    match field_with(alloc, attributes) {
        Ok(field) => Ok(found_by_field(&field, ns, key)),
        Err(error) => Err(error),
    }
}

// The same of a variant that has the three attributes.
fn found_in_variant(alloc: Global, ns: Option<&str>, key: &str) -> Result<Found, AllocError> {
    let attributes = three_attributes(alloc)?;
    match variant_with(alloc, attributes) {
        Ok(variant) => Ok(found_by_variant(&variant, ns, key)),
        Err(error) => Err(error),
    }
}

#[test]
fn the_first_attribute_of_a_namespace_and_key_is_found(rt: HostRuntime) -> Result<(), Fail> {
    for (ns, key, named, builtin) in [
        (None, "a", 2, 2),
        (Some("xml"), "a", 1, 2),
        (Some("html"), "a", 0, 2),
        (None, "b", 0, 0),
    ] {
        let expected = ([named, builtin], [named != 0, builtin != 0]);
        assert!(rt; found_in_field(rt.alloc(), ns, key)? == expected);
        assert!(rt; found_in_variant(rt.alloc(), ns, key)? == expected);
    }
    Ok(())
}

// The builtin attribute `k` that holds the kind at an index.
fn attribute_of_kind(alloc: Global, index: usize) -> Result<Attr, AllocError> {
    let key = Text::new(alloc, "k")?;
    match index {
        0 => Ok(Attr::new(None, key, AttrData::Unit)),
        1 => Ok(Attr::new(None, key, AttrData::Bool(true))),
        2 => Ok(Attr::new(None, key, AttrData::Int(-1))),
        3 => Ok(Attr::new(None, key, AttrData::Text(Text::new(alloc, "v")?))),
        _ => Ok(Attr::new_shape(None, key, ShapeId(6))),
    }
}

// Whether the payload of an attribute is had as each kind.
fn kinds_of(attribute: &Attr) -> [bool; 5] {
    [
        attribute.get_as(AttrKind::Unit).is_some(),
        attribute.get_as(AttrKind::Bool).is_some(),
        attribute.get_as(AttrKind::Int).is_some(),
        attribute.get_as(AttrKind::Text).is_some(),
        attribute.get_as(AttrKind::Shape).is_some(),
    ]
}

fn kinds_at(alloc: Global, index: usize) -> Result<[bool; 5], AllocError> {
    Ok(kinds_of(&attribute_of_kind(alloc, index)?))
}

#[test]
fn a_payload_is_had_as_its_own_kind_alone(rt: HostRuntime) -> Result<(), Fail> {
    for index in 0..5 {
        let expected = [index == 0, index == 1, index == 2, index == 3, index == 4];
        assert!(rt; kinds_at(rt.alloc(), index)? == expected);
    }
    Ok(())
}

// Whether an attribute is equal to another, and that one to it; and whether that one is builtin.
fn compared(one: &Attr, other: &Attr) -> [bool; 3] {
    [*one == *other, *other == *one, other.is_builtin()]
}

// The same of `a` under xml and another attribute.
fn compared_to_one(
    alloc: Global,
    ns: Option<&str>,
    key: &str,
    number: i128,
) -> Result<[bool; 3], AllocError> {
    let one = attribute(alloc, Some("xml"), "a", 1)?;
    let other = attribute(alloc, ns, key, number)?;
    Ok(compared(&one, &other))
}

#[test]
fn attributes_are_equal_by_namespace_and_key(rt: HostRuntime) -> Result<(), Fail> {
    for (ns, key, number, equal, builtin) in [
        (Some("xml"), "a", 2, true, false),
        (Some("xml"), "b", 1, false, false),
        (Some("html"), "a", 1, false, false),
        (None, "a", 1, false, true),
    ] {
        let compared = compared_to_one(rt.alloc(), ns, key, number)?;
        assert!(rt; compared == [equal, equal, builtin]);
    }
    Ok(())
}
