ghost use Rattle.std.specs.Prelude.{◌≡◌, unwrap_or};

use crate::attribute::Attr;
use crate::name::effective_name;
use crate::struct_type::StructType;
use facet_base::{Many, Text};

/// A variant of an enum. What it holds is the struct `body`.
#[derive(Drop)]
pub struct Variant {
    pub name: Text,
    pub rename: Option<Text>,
    pub discriminant: Option<i64>,
    pub attributes: Many<Attr>,
    pub body: StructType,
    pub doc: Many<Text>,
}

impl Variant {
    /// The name it was renamed to, else its own.
    pub fn effective_name(&self) -> &str
        ensures { result.now ≡ unwrap_or self.now.rename self.now.name }
    {
        effective_name(self.rename.as_ref(), &self.name)
    }
}
