ghost use Rattle.std.specs.Prelude.{◌≡◌, ◌||◌, is_some, option_map, unwrap_or};
ghost use Rattle.std.specs.Option.{option_copied};
ghost use Rattle.facet_base.specs.Flags.{contains_flag};
ghost use Rattle.facet_desc.specs.Proxy.{effective_proxy_of, has_some_proxy, listed_proxy};

use crate::attribute::Attr;
use crate::name::effective_name;
use crate::proxy::{FormatProxy, ProxyDef, effective_proxy, first_proxy, has_any_proxy};
use facet_base::{FieldFlags, Flags, HookId, Many, ShapeId, Text};

/// A field of a struct. Its offset is in bytes.
#[derive(Drop)]
pub struct Field {
    pub name: Text,
    pub rename: Option<Text>,
    pub alias: Option<Text>,
    pub shape: ShapeId,
    pub offset: usize,
    pub flags: FieldFlags,
    pub attributes: Many<Attr>,
    pub doc: Many<Text>,
    pub default: Option<DefaultSource>,
    pub skip_serializing_if: Option<HookId>,
    pub invariants: Option<HookId>,
    pub proxy: Option<ProxyDef>,
    pub format_proxies: Many<FormatProxy>,
    pub metadata: Option<Text>,
}

/// Where a field's default value comes from: its type, or a hook.
#[derive(Clone, Copy)]
pub enum DefaultSource {
    FromTrait,
    Custom(HookId),
}

impl Field {
    /// Whether its value's own fields stand in its place.
    pub fn is_flattened(&self) -> bool
        ensures { result ≡ contains_flag self.now.flags.bits FieldFlags.FLATTEN.bits }
    {
        self.flags.contains(FieldFlags::FLATTEN)
    }

    /// Whether its value is not to be shown.
    pub fn is_sensitive(&self) -> bool
        ensures { result ≡ contains_flag self.now.flags.bits FieldFlags.SENSITIVE.bits }
    {
        self.flags.contains(FieldFlags::SENSITIVE)
    }

    /// Whether its value is a child node.
    pub fn is_child(&self) -> bool
        ensures { result ≡ contains_flag self.now.flags.bits FieldFlags.CHILD.bits }
    {
        self.flags.contains(FieldFlags::CHILD)
    }

    /// Whether its type leads back to the struct.
    pub fn is_recursive_type(&self) -> bool
        ensures { result ≡ contains_flag self.now.flags.bits FieldFlags.RECURSIVE_TYPE.bits }
    {
        self.flags.contains(FieldFlags::RECURSIVE_TYPE)
    }

    /// Whether it is left out where values are read.
    pub fn should_skip_deserializing(&self) -> bool
        ensures { result ≡ (contains_flag self.now.flags.bits FieldFlags.SKIP.bits || contains_flag self.now.flags.bits FieldFlags.SKIP_DESERIALIZING.bits) }
    {
        self.flags.contains(FieldFlags::SKIP) || self.flags.contains(FieldFlags::SKIP_DESERIALIZING)
    }

    /// Whether it is left out where values are written, whatever its value.
    pub fn should_skip_serializing_unconditional(&self) -> bool
        ensures { result ≡ (contains_flag self.now.flags.bits FieldFlags.SKIP.bits || contains_flag self.now.flags.bits FieldFlags.SKIP_SERIALIZING.bits) }
    {
        self.flags.contains(FieldFlags::SKIP) || self.flags.contains(FieldFlags::SKIP_SERIALIZING)
    }

    /// Whether it has a default value.
    pub fn has_default(&self) -> bool
        ensures { result ≡ is_some self.now.default }
    {
        self.default.is_some()
    }

    /// Where its default value comes from.
    pub fn default_source(&self) -> Option<&DefaultSource>
        ensures { option_copied result ≡ self.now.default }
    {
        self.default.as_ref()
    }

    /// Whether it holds metadata, and none of the value's own data.
    pub fn is_metadata(&self) -> bool
        ensures { result ≡ is_some self.now.metadata }
    {
        self.metadata.is_some()
    }

    /// The kind of metadata that it holds.
    pub fn metadata_kind(&self) -> Option<&str>
        ensures { option_copied result ≡ self.now.metadata }
    {
        self.metadata.as_ref().map(Text::as_str)
    }

    /// The shape of its values.
    pub fn shape(&self) -> ShapeId
        ensures { result ≡ self.now.shape }
    {
        self.shape
    }

    /// The name it was renamed to, else its own.
    pub fn effective_name(&self) -> &str
        ensures { result.now ≡ unwrap_or self.now.rename self.now.name }
    {
        effective_name(self.rename.as_ref(), &self.name)
    }

    /// The general proxy.
    pub fn proxy(&self) -> Option<&ProxyDef>
        ensures { option_copied result ≡ self.now.proxy }
    {
        self.proxy.as_ref()
    }

    /// Whether there is a general proxy.
    pub fn has_proxy(&self) -> bool
        ensures { result ≡ is_some self.now.proxy }
    {
        self.proxy.is_some()
    }

    /// The shape of the general proxy.
    pub fn proxy_shape(&self) -> Option<ShapeId>
        ensures { result ≡ option_map (λ p. p.shape) self.now.proxy }
    {
        self.proxy.map(|proxy| proxy.shape)
    }

    /// The hook that converts from the general proxy.
    pub fn proxy_convert_in_fn(&self) -> Option<HookId>
        ensures { result ≡ option_map (λ p. p.convert_in) self.now.proxy }
    {
        self.proxy.map(|proxy| proxy.convert_in)
    }

    /// The hook that converts into the general proxy.
    pub fn proxy_convert_out_fn(&self) -> Option<HookId>
        ensures { result ≡ option_map (λ p. p.convert_out) self.now.proxy }
    {
        self.proxy.map(|proxy| proxy.convert_out)
    }

    /// The first proxy that is listed for a format.
    pub fn format_proxy(&self, format: &str) -> Option<&ProxyDef>
        ensures { option_copied result ≡ listed_proxy format.now self.now.format_proxies.items }
    {
        first_proxy(self.format_proxies.as_slice(), format)
    }

    /// The first proxy that is listed for the format where there is one, else the general one.
    pub fn effective_proxy(&self, format: Option<&str>) -> Option<&ProxyDef>
        ensures { option_copied result ≡ effective_proxy_of (option_copied format.entry) self.now.format_proxies.items self.now.proxy }
    {
        effective_proxy(self.proxy.as_ref(), self.format_proxies.as_slice(), format)
    }

    /// Whether there is a general proxy or one for a format.
    pub fn has_any_proxy(&self) -> bool
        ensures { result ≡ has_some_proxy self.now.format_proxies.items self.now.proxy }
    {
        has_any_proxy(self.proxy.as_ref(), self.format_proxies.as_slice())
    }
}
