//! The kinds of tokens as parts of a form, by the names that the grammar gives them.

use crate::token::{Kind, Part};

pub const NAME: Part = Part::Token(Kind::Name);

pub const NUM: Part = Part::Token(Kind::Number);

pub const REF: Part = Part::Token(Kind::Reference);

pub const CAPS: Part = Part::Token(Kind::Caps);

pub const REPR: Part = Part::Token(Kind::Repr);

pub const KIND: Part = Part::Token(Kind::Scalar);

pub const TEXT: Part = Part::Token(Kind::Rest);

pub const REFS: Part = Part::Token(Kind::References);

pub const OPTIONS: Part = Part::Token(Kind::Options);

pub const OPAQUE_OPTIONS: Part = Part::Token(Kind::OpaqueOptions);

pub const FIELDS: Part = Part::Token(Kind::Fields);

pub const VARIANTS: Part = Part::Token(Kind::Variants);
