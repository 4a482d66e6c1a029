use super::proxy;
use facet_base::{HookId, Many, ShapeId, Text};
use facet_desc::{Field, FieldBuilder, FormatProxy, ProxyDef};
use std::alloc::{AllocError, Global};
use std::test::Fail;

fn format_proxy(alloc: Global, format: &str, shape: u32) -> Result<FormatProxy, AllocError> {
    Ok(FormatProxy {
        format: Text::new(alloc, format)?,
        proxy: proxy(shape),
    })
}

// Two proxies for json and between them one for xml, of the shapes 2 to 4; or none.
fn listed_proxies(alloc: Global, listed: bool) -> Result<Many<FormatProxy>, AllocError> {
    let mut proxies = Many::new(alloc);
    if listed {
        for (format, shape) in [("json", 2), ("xml", 3), ("json", 4)] {
            proxies.push(format_proxy(alloc, format, shape)?)?;
        }
    }
    Ok(proxies)
}

// A field with the general proxy, of the shape 1, or without, and with the listed ones or without.
fn field_with(alloc: Global, general: bool, listed: bool) -> Result<Field, AllocError> {
    let name = Text::new(alloc, "a")?;
    let proxies = listed_proxies(alloc, listed)?;
    let builder = FieldBuilder::new(alloc, name, ShapeId(6), 0).format_proxies(proxies);
    if general {
        Ok(builder.proxy(proxy(1)).build())
    } else {
        Ok(builder.build())
    }
}

// The shape of a proxy, and 0 where there is none.
fn shape_of(proxy: Option<&ProxyDef>) -> u32 {
    match proxy {
        Some(proxy) => proxy.shape.0,
        None => 0,
    }
}

// The shapes of the proxy for a format, which may be no format, of the one listed for json, and of the general one.
fn shapes_for(
    alloc: Global,
    general: bool,
    listed: bool,
    format: Option<&str>,
) -> Result<[u32; 3], AllocError> {
    let field = field_with(alloc, general, listed)?;
    Ok([
        shape_of(field.effective_proxy(format)),
        shape_of(field.format_proxy("json")),
        shape_of(field.proxy()),
    ])
}

// Whether there is a general proxy and there are listed ones, a format, and the shapes for it and for json.
fn rows() -> [(bool, bool, Option<&'static str>, u32, u32); 9] {
    [
        (true, true, None, 1, 2),
        (true, true, Some("json"), 2, 2),
        (true, true, Some("xml"), 3, 2),
        (true, true, Some("toml"), 1, 2),
        (false, true, None, 0, 2),
        (false, true, Some("json"), 2, 2),
        (false, true, Some("toml"), 0, 2),
        (true, false, Some("json"), 1, 0),
        (false, false, Some("json"), 0, 0),
    ]
}

#[test]
fn the_first_proxy_for_the_format_goes_before_the_general_one(rt: HostRuntime) -> Result<(), Fail> {
    for (general, listed, format, effective, for_json) in rows() {
        let shapes = shapes_for(rt.alloc(), general, listed, format)?;
        let without_format = if general { 1 } else { 0 };
        assert!(rt; shapes == [effective, for_json, without_format]);
    }
    Ok(())
}

// The shape and the hooks of the general proxy, where there is one; whether there is one, and whether there is any.
type General = (Option<ShapeId>, [Option<HookId>; 2], [bool; 2]);

fn general_parts(alloc: Global, general: bool, listed: bool) -> Result<General, AllocError> {
    let field = field_with(alloc, general, listed)?;
    let hooks = [field.proxy_convert_in_fn(), field.proxy_convert_out_fn()];
    let there = [field.has_proxy(), field.has_any_proxy()];
    Ok((field.proxy_shape(), hooks, there))
}

fn expected_parts(general: bool, listed: bool) -> General {
    if general {
        let hooks = [Some(HookId(10)), Some(HookId(11))];
        (Some(ShapeId(1)), hooks, [true, true])
    } else {
        (None, [None, None], [false, listed])
    }
}

#[test]
fn a_field_has_the_proxies_that_were_set(rt: HostRuntime) -> Result<(), Fail> {
    for (general, listed) in [(true, true), (true, false), (false, true), (false, false)] {
        let parts = general_parts(rt.alloc(), general, listed)?;
        assert!(rt; parts == expected_parts(general, listed));
    }
    Ok(())
}
