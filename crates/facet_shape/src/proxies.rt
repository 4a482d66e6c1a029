ghost use Rattle.std.specs.Prelude.{◌≡◌, is_some};
ghost use Rattle.std.specs.Option.{option_copied};
ghost use Rattle.facet_desc.specs.Proxy.{effective_proxy_of, has_some_proxy, listed_proxy};

use crate::shape::Shape;
use facet_desc::{ProxyDef, effective_proxy, first_proxy, has_any_proxy};

impl Shape {
    /// The first proxy that is listed for a format.
    pub fn format_proxy(&self, format: &str) -> Option<&ProxyDef>
        ensures { option_copied result ≡ listed_proxy format.now self.now.format_proxies.items }
    {
        first_proxy(self.format_proxies.as_slice(), format)
    }

    /// The first proxy that is listed for the format where there is one, else the general one, which may be absent.
    pub fn effective_proxy(&self, format: Option<&str>) -> Option<&ProxyDef>
        ensures { option_copied result ≡ effective_proxy_of (option_copied format.entry) self.now.format_proxies.items self.now.proxy }
    {
        effective_proxy(self.proxy.as_ref(), self.format_proxies.as_slice(), format)
    }

    /// Whether there is a general proxy or one for a format.
    pub fn has_any_proxy(&self) -> bool
        ensures { result ≡ has_some_proxy self.now.format_proxies.items self.now.proxy }
    {
        has_any_proxy(self.proxy.as_ref(), self.format_proxies.as_slice())
    }

    /// Whether hooks write and read its values.
    pub fn has_opaque_adapter(&self) -> bool
        ensures { result ≡ is_some self.now.opaque_adapter }
    {
        self.opaque_adapter.is_some()
    }
}
