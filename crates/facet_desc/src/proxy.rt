ghost use Rattle.std.specs.Prelude.{◌≡◌};
ghost use Rattle.std.specs.Option.{option_copied};
ghost use Rattle.facet_desc.specs.Proxy.{effective_proxy_of, has_some_proxy, listed_proxy};

use facet_base::{HookId, ShapeId, Text};

/// A shape whose values stand for those of another, and the hooks that convert from it and into it.
#[derive(Clone, Copy)]
pub struct ProxyDef {
    pub shape: ShapeId,
    pub convert_in: HookId,
    pub convert_out: HookId,
}

/// A proxy for one format.
#[derive(Drop)]
pub struct FormatProxy {
    pub format: Text,
    pub proxy: ProxyDef,
}

/// The hooks that write and read a value which nothing else looks into.
#[derive(Clone, Copy)]
pub struct OpaqueAdapterDef {
    pub serialize: HookId,
    pub deserialize: HookId,
}

/// The first proxy that is listed for a format.
pub fn first_proxy<'a>(format_proxies: &'a [FormatProxy], format: &str) -> Option<&'a ProxyDef>
    ensures { option_copied result ≡ listed_proxy format.now format_proxies.now }
{
    let listed = format_proxies
        .iter()
        .find(|listed| listed.format.as_str() == format)?;
    Some(&listed.proxy)
}

/// The first proxy that is listed for the format where there is one, else the general one, which may be absent.
pub fn effective_proxy<'a>(
    proxy: Option<&'a ProxyDef>,
    format_proxies: &'a [FormatProxy],
    format: Option<&str>,
) -> Option<&'a ProxyDef>
    ensures { option_copied result ≡ effective_proxy_of (option_copied format.entry) format_proxies.now (option_copied proxy.entry) }
{
    match format {
        Some(format) => first_proxy(format_proxies, format).or(proxy),
        None => proxy,
    }
}

/// Whether there is a general proxy or one for a format.
pub fn has_any_proxy(proxy: Option<&ProxyDef>, format_proxies: &[FormatProxy]) -> bool
    ensures { result ≡ has_some_proxy format_proxies.now (option_copied proxy.entry) }
{
    proxy.is_some() || !format_proxies.is_empty()
}
