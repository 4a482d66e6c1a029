ghost use Rattle.std.specs.Prelude.{◌≡◌};
ghost use Rattle.facet_grammar.specs.Tokens.{is_single as is_single_kind, takes as taken_by, is_dotted as is_dotted_piece};

use crate::keyword::Keyword;
use facet_base::{ScalarType, ShapeId, Text};
use facet_declaration::{FieldDecl, VariantDecl};
use facet_desc::EnumRepr;
use facet_words::{Caps, Opt};
use sqlite_items::Items;

/// A part of a form, which says how a command is written.
#[derive(Clone, Copy)]
pub enum Part {
    /// This word.
    Keyword(Keyword),
    /// A token of this kind.
    Token(Kind),
}

/// A kind of token.
#[derive(Clone, Copy)]
pub enum Kind {
    /// 1 to 32 letters, digits and underscores.
    Name,
    /// At most nine digits without a leading zero.
    Number,
    /// A `#` and a number.
    Reference,
    /// `-`, or letters of `epohgdcsf` in this order.
    Caps,
    /// The word of an enum's representation.
    Repr,
    /// The word of a kind of scalars.
    Scalar,
    /// The text behind the space, perhaps empty. It takes all that follows.
    Rest,
    /// Any number of names. It takes all that follows.
    Names,
    /// 1 to 12 references. It takes all that follows.
    References,
    /// Options in their order. It takes the pieces that begin with a dot.
    Options,
    /// Options that may stand on an opaque, in their order. It takes the pieces that begin with a dot.
    OpaqueOptions,
    /// Any number of fields. It takes all that follows.
    Fields,
    /// Any number of variants. It takes all that follows.
    Variants,
}

impl Kind {
    /// Whether a token of this kind is one piece.
    pub fn is_single(self) -> bool
        ensures { result ≡ is_single_kind self }
    {
        match self {
            Kind::Name | Kind::Number | Kind::Reference => true,
            Kind::Caps | Kind::Repr | Kind::Scalar => true,
            _ => false,
        }
    }

    /// Whether a token of this kind, which takes several pieces, takes this one where it took those before.
    pub fn takes(self, piece: &str) -> bool
        ensures { result ≡ taken_by self piece.now }
    {
        match self {
            Kind::Options | Kind::OpaqueOptions => is_dotted(piece),
            _ => !self.is_single(),
        }
    }
}

// Whether a piece begins with a dot.
fn is_dotted(piece: &str) -> bool
    ensures { result ≡ is_dotted_piece piece.now }
{
    match piece.as_bytes() {
        [first, ..] => *first == b'.',
        [] => false,
    }
}

/// A token of a kind.
#[derive(Drop)]
pub enum Token {
    /// The name.
    Name(Text),
    /// The number.
    Number(u32),
    /// The id behind the `#`.
    Reference(ShapeId),
    /// The capabilities.
    Caps(Caps),
    /// The representation.
    Repr(EnumRepr),
    /// The kind of scalars.
    Scalar(ScalarType),
    /// The text, without a newline.
    Rest(Text),
    /// The names, in order.
    Names(Items<Text>),
    /// The ids, in order.
    References(Items<ShapeId>),
    /// The options, in order.
    Options(Items<Opt>),
    /// The options of an opaque, in order.
    OpaqueOptions(Items<Opt>),
    /// The fields, in order.
    Fields(Items<FieldDecl>),
    /// The variants, in order.
    Variants(Items<VariantDecl>),
}
