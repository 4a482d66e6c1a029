ghost use Rattle.std.specs.Prelude.{◌≡◌, codes};
ghost use Rattle.std.specs.Option.{option_copied};
ghost use Rattle.facet_desc.specs.Attribute.{first_attribute, has_attribute, has_markup_attribute};

use crate::attribute::{Attr, find_attr, has_attr, has_markup_attr};
use crate::field::Field;

impl Field {
    /// The first attribute of a namespace, or builtin where none is given, and a key.
    pub fn get_attr(&self, ns: Option<&str>, key: &str) -> Option<&Attr>
        ensures { option_copied result ≡ first_attribute (option_copied ns.entry) key.now self.now.attributes.items }
    {
        find_attr(self.attributes.as_slice(), ns, key)
    }

    /// Whether it has an attribute of a namespace, or builtin where none is given, and a key.
    pub fn has_attr(&self, ns: Option<&str>, key: &str) -> bool
        ensures { result ≡ has_attribute (option_copied ns.entry) key.now self.now.attributes.items }
    {
        has_attr(self.attributes.as_slice(), ns, key)
    }

    /// The first builtin attribute of a key.
    pub fn get_builtin_attr(&self, key: &str) -> Option<&Attr>
        ensures { option_copied result ≡ first_attribute None key.now self.now.attributes.items }
    {
        self.get_attr(None, key)
    }

    /// Whether it has a builtin attribute of a key.
    pub fn has_builtin_attr(&self, key: &str) -> bool
        ensures { result ≡ has_attribute None key.now self.now.attributes.items }
    {
        self.has_attr(None, key)
    }

    /// Whether it has the attribute `text`, builtin or of XML or HTML.
    pub fn is_text(&self) -> bool
        ensures { result ≡ has_markup_attribute (codes "text") self.now.attributes.items }
    {
        has_markup_attr(self.attributes.as_slice(), "text")
    }

    /// Whether it has the attribute `elements`, builtin or of XML or HTML.
    pub fn is_elements(&self) -> bool
        ensures { result ≡ has_markup_attribute (codes "elements") self.now.attributes.items }
    {
        has_markup_attr(self.attributes.as_slice(), "elements")
    }

    /// Whether it has the attribute `element`, builtin or of XML or HTML.
    pub fn is_element(&self) -> bool
        ensures { result ≡ has_markup_attribute (codes "element") self.now.attributes.items }
    {
        has_markup_attr(self.attributes.as_slice(), "element")
    }

    /// Whether it has the attribute `attribute`, builtin or of XML or HTML.
    pub fn is_attribute(&self) -> bool
        ensures { result ≡ has_markup_attribute (codes "attribute") self.now.attributes.items }
    {
        has_markup_attr(self.attributes.as_slice(), "attribute")
    }

    /// Whether it has the attribute `tag`, builtin or of XML or HTML.
    pub fn is_tag(&self) -> bool
        ensures { result ≡ has_markup_attribute (codes "tag") self.now.attributes.items }
    {
        has_markup_attr(self.attributes.as_slice(), "tag")
    }

    /// Whether it has the attribute `doctype` of XML.
    pub fn is_doctype(&self) -> bool
        ensures { result ≡ has_attribute (Some (codes "xml")) (codes "doctype") self.now.attributes.items }
    {
        self.has_attr(Some("xml"), "doctype")
    }

    /// Whether it has the builtin attribute `other`.
    pub fn is_other(&self) -> bool
        ensures { result ≡ has_attribute None (codes "other") self.now.attributes.items }
    {
        self.has_builtin_attr("other")
    }

    /// Whether it has the builtin attribute `tag`.
    pub fn is_variant_tag(&self) -> bool
        ensures { result ≡ has_attribute None (codes "tag") self.now.attributes.items }
    {
        self.has_builtin_attr("tag")
    }

    /// Whether it has the builtin attribute `content`.
    pub fn is_variant_content(&self) -> bool
        ensures { result ≡ has_attribute None (codes "content") self.now.attributes.items }
    {
        self.has_builtin_attr("content")
    }
}
