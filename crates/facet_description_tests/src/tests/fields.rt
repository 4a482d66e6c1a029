use super::{lists, true_at};
use facet_base::{FieldFlags, HookId, ShapeId, Text};
use facet_desc::{DefaultSource, Field, FieldBuilder};
use std::alloc::{AllocError, Global};
use std::test::Fail;

// A new name, an alias and a kind of metadata.
fn texts(alloc: Global) -> Result<(Text, Text, Text), AllocError> {
    let rename = Text::new(alloc, "b")?;
    let alias = Text::new(alloc, "c")?;
    Ok((rename, alias, Text::new(alloc, "span")?))
}

// A field of which nothing but a default value is set, which its type makes.
fn fresh_field(alloc: Global) -> Result<Field, AllocError> {
    let name = Text::new(alloc, "a")?;
    let builder = FieldBuilder::new_lazy(alloc, name, ShapeId(6), 8);
    Ok(builder.default_from_trait().build())
}

// A field of which every member but flags and proxies is set.
fn full_field(alloc: Global) -> Result<Field, AllocError> {
    let name = Text::new(alloc, "a")?;
    let (rename, alias, metadata) = texts(alloc)?;
    let (attributes, doc) = lists(alloc)?;
    let builder = FieldBuilder::new(alloc, name, ShapeId(6), 8)
        .rename(rename)
        .alias(alias)
        .metadata(metadata)
        .attributes(attributes)
        .doc(doc)
        .skip_serializing_if(HookId(2))
        .invariants(HookId(3))
        .default_custom(HookId(4));
    Ok(builder.build())
}

// Whether it has metadata of a kind.
fn has_kind(field: &Field, kind: &str) -> bool {
    match field.metadata_kind() {
        Some(metadata) => metadata == kind,
        None => false,
    }
}

// Whether a field has: a name that it goes by, the shape, the offset and no flags; then a new name, an alias,
// metadata, metadata of the kind `span`, an attribute, a line of description.
fn members(field: &Field, name: &str) -> [bool; 10] {
    [
        field.effective_name() == name,
        field.shape() == ShapeId(6),
        field.offset == 8,
        field.flags.bits == 0,
        field.rename.is_some(),
        field.alias.is_some(),
        field.is_metadata(),
        has_kind(field, "span"),
        field.attributes.len() == 1,
        field.doc.len() == 1,
    ]
}

fn hook_number(hook: Option<HookId>) -> u32 {
    match hook {
        Some(hook) => hook.0,
        None => 0,
    }
}

// The hook that makes the default value, 1 where its type makes it, and 0 where it has none.
fn default_number(field: &Field) -> u32 {
    match field.default_source() {
        Some(DefaultSource::Custom(hook)) => hook.0,
        Some(DefaultSource::FromTrait) => 1,
        None => 0,
    }
}

// The hooks that it was given, and the default value.
fn hooks(field: &Field) -> [u32; 3] {
    [
        hook_number(field.skip_serializing_if),
        hook_number(field.invariants),
        default_number(field),
    ]
}

type Summary = ([bool; 10], [u32; 3]);

fn fresh_summary(alloc: Global) -> Result<Summary, AllocError> {
    let field = fresh_field(alloc)?;
    Ok((members(&field, "a"), hooks(&field)))
}

fn full_summary(alloc: Global) -> Result<Summary, AllocError> {
    let field = full_field(alloc)?;
    Ok((members(&field, "b"), hooks(&field)))
}

#[test]
fn a_field_has_what_was_set_and_nothing_else(rt: HostRuntime) -> Result<(), Fail> {
    let (members, hooks) = fresh_summary(rt.alloc())?;
    let named = [
        true, true, true, true, false, false, false, false, false, false,
    ];
    assert!(rt; members == named);
    assert!(rt; hooks == [0, 0, 1]);
    let (members, hooks) = full_summary(rt.alloc())?;
    assert!(rt; members == [true; 10]);
    assert!(rt; hooks == [2, 3, 4]);
    Ok(())
}

// What is asked of a field by its flags, and at the last three indices by its other members.
fn flag_questions(field: &Field) -> [bool; 9] {
    [
        field.is_flattened(),
        field.is_sensitive(),
        field.is_child(),
        field.is_recursive_type(),
        field.should_skip_deserializing(),
        field.should_skip_serializing_unconditional(),
        field.has_default(),
        field.is_metadata(),
        field.has_any_proxy(),
    ]
}

// The same of a field of which only the flags are set.
fn questions_by(alloc: Global, flags: FieldFlags) -> Result<[bool; 9], AllocError> {
    let name = Text::new(alloc, "a")?;
    let builder = FieldBuilder::new(alloc, name, ShapeId(6), 8);
    Ok(flag_questions(&builder.flags(flags).build()))
}

// Flags, and the indices of what alone holds of a field that has them; at an index of 9 there is none.
fn flag_rows() -> [(FieldFlags, usize, usize); 8] {
    [
        (FieldFlags { bits: 0 }, 9, 9),
        (FieldFlags::FLATTEN, 0, 9),
        (FieldFlags::SENSITIVE, 1, 9),
        (FieldFlags::CHILD, 2, 9),
        (FieldFlags::RECURSIVE_TYPE, 3, 9),
        (FieldFlags::SKIP_DESERIALIZING, 4, 9),
        (FieldFlags::SKIP_SERIALIZING, 5, 9),
        (FieldFlags::SKIP, 4, 5),
    ]
}

#[test]
fn a_field_reads_its_flags(rt: HostRuntime) -> Result<(), Fail> {
    for (flags, first, second) in flag_rows() {
        assert!(rt; questions_by(rt.alloc(), flags)? == true_at(first, second));
    }
    Ok(())
}
