ghost use Rattle.std.specs.Prelude.{◌≡◌, None, codes, option_map, unwrap_or};
ghost use Rattle.std.specs.Option.{option_copied};
ghost use Rattle.facet_desc.specs.Attribute.{first_attribute, has_attribute};

use crate::shape::Shape;
use facet_base::Text;
use facet_desc::{AttrData, effective_name, find_attr, has_attr};

impl Shape {
    /// The name it was renamed to, else its identifier.
    pub fn effective_name(&self) -> &str
        ensures { result.now ≡ unwrap_or self.now.rename self.now.type_identifier }
    {
        effective_name(self.rename.as_ref(), &self.type_identifier)
    }

    /// Whether it has a builtin attribute of a key.
    pub fn has_builtin_attr(&self, key: &str) -> bool
        ensures { result ≡ has_attribute None key.now self.now.attributes.items }
    {
        has_attr(self.attributes.as_slice(), None, key)
    }

    /// What the first builtin attribute of a key holds.
    pub fn get_builtin_attr_value(&self, key: &str) -> Option<&AttrData>
        ensures { option_copied result ≡ option_map (λ a. a.payload) (first_attribute None key.now self.now.attributes.items) }
    {
        let attribute = find_attr(self.attributes.as_slice(), None, key)?;
        Some(&attribute.payload)
    }

    /// Whether it has the builtin attribute `deny_unknown_fields`.
    pub fn has_deny_unknown_fields_attr(&self) -> bool
        ensures { result ≡ has_attribute None (codes "deny_unknown_fields") self.now.attributes.items }
    {
        self.has_builtin_attr("deny_unknown_fields")
    }

    /// Whether it has the builtin attribute `default`.
    pub fn has_default_attr(&self) -> bool
        ensures { result ≡ has_attribute None (codes "default") self.now.attributes.items }
    {
        self.has_builtin_attr("default")
    }

    /// The name of the field that holds the tag of an enum.
    pub fn get_tag_attr(&self) -> Option<&str>
        ensures { option_copied result ≡ self.now.tag }
    {
        self.tag.as_ref().map(Text::as_str)
    }

    /// The name of the field that holds the content of an enum beside its tag.
    pub fn get_content_attr(&self) -> Option<&str>
        ensures { option_copied result ≡ self.now.content }
    {
        self.content.as_ref().map(Text::as_str)
    }
}
