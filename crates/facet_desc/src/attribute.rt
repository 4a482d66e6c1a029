ghost use Rattle.std.specs.Prelude.{◌≡◌, ◌==◌, ◌&&◌, bytes_eq, is_none, is_some, if◌then◌else◌};
ghost use Rattle.std.specs.Option.{option_copied, option_eq};
ghost use Rattle.facet_desc.specs.Attribute.{first_attribute, has_attribute, has_markup_attribute, is_named, same_kind};

use facet_base::{ShapeId, Text};

/// A note on a shape, a field or a variant: a payload under a namespace, which a builtin one lacks, and a key.
#[derive(Drop)]
pub struct Attr {
    pub ns: Option<Text>,
    pub key: Text,
    pub payload: AttrData,
}

/// What an attribute holds.
#[derive(Drop)]
pub enum AttrData {
    Unit,
    Bool(bool),
    Int(i128),
    Text(Text),
    Shape(ShapeId),
}

/// The kinds of what attributes hold.
#[derive(Drop)]
pub enum AttrKind {
    Unit,
    Bool,
    Int,
    Text,
    Shape,
}

/// An attribute of a shape.
pub type ShapeAttribute = Attr;

/// An attribute of a field.
pub type FieldAttribute = Attr;

/// An attribute of a variant.
pub type VariantAttribute = Attr;

impl Attr {
    /// The attribute of these members.
    pub fn new(ns: Option<Text>, key: Text, payload: AttrData) -> Attr
        ensures { result ≡ record { ns = ns; key = key; payload = payload } }
    {
        Attr { ns, key, payload }
    }

    /// The attribute that holds a shape.
    pub fn new_shape(ns: Option<Text>, key: Text, shape: ShapeId) -> Attr
        ensures { result ≡ record { ns = ns; key = key; payload = AttrData.Shape shape } }
    {
        Attr::new(ns, key, AttrData::Shape(shape))
    }

    /// Whether it has no namespace.
    pub fn is_builtin(&self) -> bool
        ensures { result ≡ is_none self.now.ns }
    {
        self.ns.is_none()
    }

    /// The payload, and none exactly where it is of another kind.
    pub fn get_as(&self, kind: AttrKind) -> Option<&AttrData>
        ensures { option_copied result ≡ (if same_kind kind self.now.payload then Some self.now.payload else None) }
    {
        match (&self.payload, kind) {
            (AttrData::Unit, AttrKind::Unit)
            | (AttrData::Bool(_), AttrKind::Bool)
            | (AttrData::Int(_), AttrKind::Int)
            | (AttrData::Text(_), AttrKind::Text)
            | (AttrData::Shape(_), AttrKind::Shape) => Some(&self.payload),
            _ => None,
        }
    }
}

// Two attributes are equal where their namespaces and keys are, whatever they hold.
impl PartialEq for Attr {
    ghost use Rattle.std.specs.Cmp.Lexicographic.{nat_list_eq_equiv, options_equiv};
    ghost use Rattle.std.specs.Cmp.{partial_equiv_from_equiv, and_equiv, on_equiv};
    ghost use Rattle.facet_desc.specs.Attribute.{same_name};

    ghost eq = { same_name };

    ghost laws = { partial_equiv_from_equiv (and_equiv (on_equiv (λ a. a.ns) (options_equiv nat_list_eq_equiv)) (on_equiv (λ a. a.key) nat_list_eq_equiv)) };

    fn eq(&self, other: &Attr) -> bool {
        has_name(other, namespace(self), self.key.as_str())
    }
}

/// The first attribute of a namespace, or builtin where none is given, and a key.
pub fn find_attr<'a>(attributes: &'a [Attr], ns: Option<&str>, key: &str) -> Option<&'a Attr>
    ensures { option_copied result ≡ first_attribute (option_copied ns.entry) key.now attributes.now }
{
    attributes
        .iter()
        .find(|attribute| has_name(attribute, ns, key))
}

/// Whether one has that namespace, or is builtin where none is given, and that key.
pub fn has_attr(attributes: &[Attr], ns: Option<&str>, key: &str) -> bool
    ensures { result ≡ has_attribute (option_copied ns.entry) key.now attributes.now }
{
    find_attr(attributes, ns, key).is_some()
}

/// Whether one has that key and is builtin or of XML or HTML.
pub fn has_markup_attr(attributes: &[Attr], key: &str) -> bool
    ensures { result ≡ has_markup_attribute key.now attributes.now }
{
    has_attr(attributes, None, key)
        || has_attr(attributes, Some("xml"), key)
        || has_attr(attributes, Some("html"), key)
}

// Whether it has that namespace, or is builtin where none is given, and that key.
fn has_name(attribute: &Attr, ns: Option<&str>, key: &str) -> bool
    ensures { result ≡ is_named (option_copied ns.entry) key.now attribute.now }
{
    ns == namespace(attribute) && key == attribute.key.as_str()
}

// Its namespace, and none for a builtin one.
fn namespace(attribute: &Attr) -> Option<&str>
    ensures { option_copied result ≡ attribute.now.ns }
{
    attribute.ns.as_ref().map(Text::as_str)
}
