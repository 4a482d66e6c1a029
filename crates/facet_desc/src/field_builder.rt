ghost use Rattle.std.specs.Prelude.{◌≡◌};
ghost use Rattle.facet_desc.specs.Field.{fresh_field};
ghost use Rattle.facet_desc.specs.WithoutSpare.{field_without_spare};

use crate::attribute::Attr;
use crate::field::{DefaultSource, Field};
use crate::proxy::{FormatProxy, ProxyDef};
use facet_base::{FieldFlags, Flags, HookId, Many, ShapeId, Text};
use std::alloc::Global;
use std::marker::Model;

/// Builds a field. Contracts see the field so far.
#[derive(Drop)]
pub struct FieldBuilder {
    field: Field,
}

impl Model for FieldBuilder {
    ghost use Rattle.facet_desc.specs.declared.field.Field.{Field};

    ghost Value = { Field };

    ghost view = { λ b. b.field };
}

impl FieldBuilder {
    /// The field of this name and shape at this offset in bytes, with nothing else set. It takes no memory.
    #[tactic(auto, unfolding(crate::specs::Field::fresh_field, crate::specs::WithoutSpare::field_without_spare))]
    pub fn new(alloc: Global, name: Text, shape: ShapeId, offset: usize) -> FieldBuilder
        ensures { field_without_spare result ≡ fresh_field name shape offset }
    {
        FieldBuilder {
            field: Field {
                name,
                rename: None,
                alias: None,
                shape,
                offset,
                flags: FieldFlags::empty(),
                attributes: Many::new(alloc),
                doc: Many::new(alloc),
                default: None,
                skip_serializing_if: None,
                invariants: None,
                proxy: None,
                format_proxies: Many::new(alloc),
                metadata: None,
            },
        }
    }

    /// The same as `new`.
    pub fn new_lazy(alloc: Global, name: Text, shape: ShapeId, offset: usize) -> FieldBuilder
        ensures { field_without_spare result ≡ fresh_field name shape offset }
    {
        FieldBuilder::new(alloc, name, shape, offset)
    }

    /// Sets the name that stands in place of its own.
    pub fn rename(mut self, value: Text) -> Self
        ensures { result ≡ record self { rename = Some value } }
    {
        self.field.rename = Some(value);
        self
    }

    /// Sets its alias.
    pub fn alias(mut self, value: Text) -> Self
        ensures { result ≡ record self { alias = Some value } }
    {
        self.field.alias = Some(value);
        self
    }

    /// Sets the flags.
    pub fn flags(mut self, value: FieldFlags) -> Self
        ensures { result ≡ record self { flags = value } }
    {
        self.field.flags = value;
        self
    }

    /// Sets the attributes.
    pub fn attributes(mut self, value: Many<Attr>) -> Self
        ensures { result ≡ record self { attributes = value } }
    {
        self.field.attributes = value;
        self
    }

    /// Sets the lines of its description.
    pub fn doc(mut self, value: Many<Text>) -> Self
        ensures { result ≡ record self { doc = value } }
    {
        self.field.doc = value;
        self
    }

    /// Sets the hook by which a value is left out where it is written.
    pub fn skip_serializing_if(mut self, value: HookId) -> Self
        ensures { result ≡ record self { skip_serializing_if = Some value } }
    {
        self.field.skip_serializing_if = Some(value);
        self
    }

    /// Sets the hook that checks its invariants.
    pub fn invariants(mut self, value: HookId) -> Self
        ensures { result ≡ record self { invariants = Some value } }
    {
        self.field.invariants = Some(value);
        self
    }

    /// Sets the general proxy.
    pub fn proxy(mut self, value: ProxyDef) -> Self
        ensures { result ≡ record self { proxy = Some value } }
    {
        self.field.proxy = Some(value);
        self
    }

    /// Sets the proxies for formats.
    pub fn format_proxies(mut self, value: Many<FormatProxy>) -> Self
        ensures { result ≡ record self { format_proxies = value } }
    {
        self.field.format_proxies = value;
        self
    }

    /// Sets the kind of metadata that it holds.
    pub fn metadata(mut self, value: Text) -> Self
        ensures { result ≡ record self { metadata = Some value } }
    {
        self.field.metadata = Some(value);
        self
    }

    /// Says that the default value is that of its type.
    pub fn default_from_trait(mut self) -> Self
        ensures { result ≡ record self { default = Some DefaultSource.FromTrait } }
    {
        self.field.default = Some(DefaultSource::FromTrait);
        self
    }

    /// Sets the hook that makes the default value.
    pub fn default_custom(mut self, h: HookId) -> Self
        ensures { result ≡ record self { default = Some (DefaultSource.Custom h) } }
    {
        self.field.default = Some(DefaultSource::Custom(h));
        self
    }

    /// The field as it was built.
    pub fn build(self) -> Field
        ensures { result ≡ self }
    {
        self.field
    }
}
