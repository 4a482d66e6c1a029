use crate::fields::read_field;
use crate::variants::read_variant;
use facet_desc::StructKind;
use std::alloc::Global;
use std::test::Fail;

// Whether a text is a field with these members.
fn is_field(
    alloc: Global,
    text: &str,
    name: &str,
    shape: u32,
    offset: u32,
    sensitive: bool,
) -> Result<bool, Fail> {
    match read_field(alloc, text)? {
        Some(field) => Ok(
            field.name.as_str() == name
                && field.shape.0 == shape
                && field.offset == offset
                && field.sensitive == sensitive,
        ),
        None => Ok(false),
    }
}

#[test]
fn fields_have_a_name_a_shape_and_an_offset(rt: HostRuntime) -> Result<(), Fail> {
    let alloc = rt.alloc();
    assert!(rt; is_field(alloc, "x:#6@4", "x", 6, 4, false)?);
    assert!(rt; is_field(alloc, "x:#6@4!", "x", 6, 4, true)?);
    assert!(rt; is_field(alloc, "0:#999999999@0", "0", 999_999_999, 0, false)?);
    Ok(())
}

#[test]
fn other_words_are_no_fields(rt: HostRuntime) -> Result<(), Fail> {
    for text in [
        "",
        "x",
        "x:#6",
        "x:#6@",
        "x:#6@!",
        "x:#6@4!!",
        "x:#6!@4",
        "x:6@4",
        ":#6@4",
        "x:#06@4",
        "x:#6@04",
        "x:#6@1000000000",
        "x:#6@4 ",
        "x::#6@4",
        "x:#6@4,",
    ] {
        let field = read_field(rt.alloc(), text)?;
        assert!(rt; field.is_none());
    }
    Ok(())
}

// Whether a text is a variant with these members and as many fields.
fn is_variant(
    alloc: Global,
    text: &str,
    name: &str,
    discriminant: Option<i64>,
    kind: StructKind,
    fields: usize,
) -> Result<bool, Fail> {
    match read_variant(alloc, text)? {
        Some(variant) => Ok(
            variant.name.as_str() == name
                && variant.discriminant == discriminant
                && variant.kind == kind
                && variant.fields.len() == fields,
        ),
        None => Ok(false),
    }
}

#[test]
fn variants_may_have_a_discriminant_and_fields(rt: HostRuntime) -> Result<(), Fail> {
    let alloc = rt.alloc();
    assert!(rt; is_variant(alloc, "X", "X", None, StructKind::Unit, 0)?);
    assert!(rt; is_variant(alloc, "X=-1", "X", Some(-1), StructKind::Unit, 0)?);
    assert!(rt; is_variant(alloc, "X(0:#6@4)", "X", None, StructKind::TupleStruct, 1)?);
    assert!(rt;
        is_variant(
            alloc,
            "X=1{a:#6@0,b:#7@8!}",
            "X",
            Some(1),
            StructKind::Struct,
            2
        )?
    );
    Ok(())
}

#[test]
fn other_words_are_no_variants(rt: HostRuntime) -> Result<(), Fail> {
    for text in [
        "",
        "X=",
        "X=-0",
        "X=01",
        "X=9223372036854775808",
        "=1",
        "X()",
        "X{}",
        "(a:#6@0)",
        "X(a:#6@0,)",
        "X(a:#6@0 ,b:#6@4)",
        "X(a:#6@0}",
        "X{a:#6@0)",
        "X(a:#6@0",
        "X(a:#6@0)=1",
        "X(a:#6@0)(b:#6@4)",
    ] {
        let variant = read_variant(rt.alloc(), text)?;
        assert!(rt; variant.is_none());
    }
    Ok(())
}

// A variant with this many fields and one more.
fn with_fields(alloc: Global, count: usize) -> Result<String, Fail> {
    let mut text = String::from_str(alloc, "X(a:#6@0")?;
    for _ in 0..count {
        text.push_str(",a:#6@0")?;
    }
    text.push_str(")")?;
    Ok(text)
}

#[test]
fn a_variant_of_100000_fields_is_read(rt: HostRuntime) -> Result<(), Fail> {
    let alloc = rt.alloc();
    let text = with_fields(alloc, 99_999)?;
    assert!(rt;
        is_variant(
            alloc,
            text.as_str(),
            "X",
            None,
            StructKind::TupleStruct,
            100_000
        )?
    );
    Ok(())
}
