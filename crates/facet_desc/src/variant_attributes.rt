ghost use Rattle.std.specs.Prelude.{◌≡◌, codes};
ghost use Rattle.std.specs.Option.{option_copied};
ghost use Rattle.facet_desc.specs.Attribute.{first_attribute, has_attribute, has_markup_attribute};

use crate::attribute::{Attr, find_attr, has_attr, has_markup_attr};
use crate::variant::Variant;

impl Variant {
    /// The first attribute of a namespace, or builtin where none is given, and a key.
    pub fn get_attr(&self, ns: Option<&str>, key: &str) -> Option<&Attr>
        ensures { option_copied result ≡ first_attribute (option_copied ns.entry) key.now self.now.attributes.items }
    {
        find_attr(self.attributes.as_slice(), ns, key)
    }

    /// Whether it has an attribute of a namespace, or builtin where none is given, and a key.
    pub fn has_attr(&self, ns: Option<&str>, key: &str) -> bool
        ensures { result ≡ has_attribute (option_copied ns.entry) key.now self.now.attributes.items }
    {
        has_attr(self.attributes.as_slice(), ns, key)
    }

    /// The first builtin attribute of a key.
    pub fn get_builtin_attr(&self, key: &str) -> Option<&Attr>
        ensures { option_copied result ≡ first_attribute None key.now self.now.attributes.items }
    {
        self.get_attr(None, key)
    }

    /// Whether it has a builtin attribute of a key.
    pub fn has_builtin_attr(&self, key: &str) -> bool
        ensures { result ≡ has_attribute None key.now self.now.attributes.items }
    {
        self.has_attr(None, key)
    }

    /// Whether it has the attribute `text`, builtin or of XML or HTML.
    pub fn is_text(&self) -> bool
        ensures { result ≡ has_markup_attribute (codes "text") self.now.attributes.items }
    {
        has_markup_attr(self.attributes.as_slice(), "text")
    }

    /// Whether it has the attribute `custom_element`, builtin or of XML or HTML.
    pub fn is_custom_element(&self) -> bool
        ensures { result ≡ has_markup_attribute (codes "custom_element") self.now.attributes.items }
    {
        has_markup_attr(self.attributes.as_slice(), "custom_element")
    }

    /// Whether it has the builtin attribute `other`.
    pub fn is_other(&self) -> bool
        ensures { result ≡ has_attribute None (codes "other") self.now.attributes.items }
    {
        self.has_builtin_attr("other")
    }
}
