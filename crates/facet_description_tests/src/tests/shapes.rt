use super::{attribute, begin, proxy};
use facet_base::{HookId, Many, ScalarType, ShapeId, Text};
use facet_desc::{Attr, AttrData, FormatProxy, ProxyDef};
use facet_shape::{Shape, ShapeBuilder, try_from_shape};
use std::alloc::{AllocError, Global};
use std::test::Fail;

// Two builtin attributes `default`, with the numbers 1 and 2.
fn attributes(alloc: Global) -> Result<Many<Attr>, AllocError> {
    let mut attributes = Many::new(alloc);
    for number in [1, 2] {
        attributes.push(attribute(alloc, None, "default", number)?)?;
    }
    Ok(attributes)
}

// Two proxies for one format, by the shapes 21 and 22.
fn format_proxies(alloc: Global) -> Result<Many<FormatProxy>, AllocError> {
    let mut proxies = Many::new(alloc);
    for shape in [21, 22] {
        proxies.push(FormatProxy {
            format: Text::new(alloc, "json")?,
            proxy: proxy(shape),
        })?;
    }
    Ok(proxies)
}

// The length of a text, where there is one.
fn length(text: Option<&str>) -> Option<usize> {
    match text {
        Some(text) => Some(text.len()),
        None => None,
    }
}

// The lengths of the shape's name, tag and content.
fn lengths(shape: &Shape) -> [Option<usize>; 3] {
    [
        Some(shape.effective_name().len()),
        length(shape.get_tag_attr()),
        length(shape.get_content_attr()),
    ]
}

// Its lengths, and its kind of scalar, which is read in two ways.
type Members = ([Option<usize>; 3], [Option<ScalarType>; 2]);

fn members(builder: ShapeBuilder) -> Option<Members> {
    match builder.build() {
        Ok(shape) => {
            let kinds = [shape.scalar_type(), try_from_shape(&shape)];
            Some((lengths(&shape), kinds))
        }
        Err(_) => None,
    }
}

fn fresh_members(alloc: Global) -> Result<Option<Members>, AllocError> {
    let identifier = Text::new(alloc, "Point")?;
    Ok(members(begin(alloc, identifier)))
}

fn named_members(alloc: Global) -> Result<Option<Members>, AllocError> {
    let (identifier, name) = (Text::new(alloc, "Point")?, Text::new(alloc, "P")?);
    let (tag, content) = (Text::new(alloc, "kind")?, Text::new(alloc, "content")?);
    let builder = begin(alloc, identifier).rename(name).tag(tag);
    let builder = builder.content(content).scalar(ScalarType::U32);
    Ok(members(builder))
}

#[test]
fn a_shape_has_the_names_and_the_scalar_that_were_set(rt: HostRuntime) -> Result<(), Fail> {
    let fresh = fresh_members(rt.alloc())?;
    assert!(rt; fresh == Some(([Some(5), None, None], [None; 2])));
    let named = named_members(rt.alloc())?;
    let kinds = [Some(ScalarType::U32); 2];
    assert!(rt; named == Some(([Some(1), Some(4), Some(7)], kinds)));
    Ok(())
}

// The shape of a proxy, where there is one.
fn shape_of(proxy: Option<&ProxyDef>) -> Option<ShapeId> {
    match proxy {
        Some(proxy) => Some(proxy.shape),
        None => None,
    }
}

// The shapes of the proxies that are found for a format, listed or not, and for no format.
fn proxies(shape: &Shape, format: &str) -> [Option<ShapeId>; 3] {
    [
        shape_of(shape.format_proxy(format)),
        shape_of(shape.effective_proxy(Some(format))),
        shape_of(shape.effective_proxy(None)),
    ]
}

// The proxies that are found where one is general and two are for `json`.
fn found_proxies(alloc: Global, format: &str) -> Result<Option<[Option<ShapeId>; 3]>, AllocError> {
    let identifier = Text::new(alloc, "Point")?;
    let listed = format_proxies(alloc)?;
    let builder = begin(alloc, identifier).proxy(proxy(20));
    match builder.format_proxies(listed).build() {
        Ok(shape) => Ok(Some(proxies(&shape, format))),
        Err(_) => Ok(None),
    }
}

#[test]
fn the_first_listed_proxy_for_the_format_goes_before_the_general_one(
    rt: HostRuntime,
) -> Result<(), Fail> {
    let (general, first) = (Some(ShapeId(20)), Some(ShapeId(21)));
    let for_json = found_proxies(rt.alloc(), "json")?;
    assert!(rt; for_json == Some([first, first, general]));
    let for_xml = found_proxies(rt.alloc(), "xml")?;
    assert!(rt; for_xml == Some([None, general, general]));
    Ok(())
}

// The number in the first attribute of a key.
fn number(shape: &Shape, key: &str) -> Option<i128> {
    match shape.get_builtin_attr_value(key) {
        Some(AttrData::Int(number)) => Some(*number),
        _ => None,
    }
}

// The number that is found under a key in two attributes `default`.
fn found_number(alloc: Global, key: &str) -> Result<Option<i128>, AllocError> {
    let identifier = Text::new(alloc, "Point")?;
    let attributes = attributes(alloc)?;
    match begin(alloc, identifier).attributes(attributes).build() {
        Ok(shape) => Ok(number(&shape, key)),
        Err(_) => Ok(None),
    }
}

#[test]
fn the_value_of_the_first_attribute_of_a_key_is_found(rt: HostRuntime) -> Result<(), Fail> {
    assert!(rt; found_number(rt.alloc(), "default")? == Some(1));
    assert!(rt; found_number(rt.alloc(), "tag")? == None);
    Ok(())
}
