ghost use Rattle.std.specs.Prelude.{◌≡◌, true};
ghost use Rattle.facet_grammar.specs.Forms.{kinds_are};
ghost use Rattle.facet_grammar.specs.Declarations.{declaration_form, row_of_declaration, tokens_of_declaration};

use crate::cursor::{
    next_caps, next_fields, next_name, next_number, next_opaque_options, next_options,
    next_reference, next_references, next_repr, next_scalar, next_variants,
};
use crate::keyword::Keyword;
use crate::part::{
    CAPS, FIELDS, KIND, NAME, NUM, OPAQUE_OPTIONS, OPTIONS, REF, REFS, REPR, VARIANTS,
};
use crate::token::{Part, Token};
use facet_declaration::Decl;
use std::collections::VecDeque;

/// A row of the table of declarations. Each begins with the word `shape`.
#[derive(Clone, Copy)]
pub enum DeclRow {
    /// `option REF`
    OptionOf,
    /// `list REF`
    ListOf,
    /// `set REF`
    SetOf,
    /// `slice REF`
    SliceOf,
    /// `box REF`
    BoxOf,
    /// `boxed_slice REF`
    BoxedSliceOf,
    /// `array REF NUM`
    ArrayOf,
    /// `map REF REF`
    MapOf,
    /// `result REF REF`
    ResultOf,
    /// `tuple REF..`
    TupleOf,
    /// `struct NAME NUM NUM CAPS OPT* FIELD*`
    Struct,
    /// `tuple_struct NAME NUM NUM CAPS OPT* FIELD*`
    TupleStruct,
    /// `enum NAME NUM NUM REPR CAPS OPT* VARIANT*`
    Enum,
    /// `opaque NAME NUM NUM OPT*`
    Opaque,
    /// `opaque NAME unsized OPT*`
    OpaqueUnsized,
    /// `scalar NAME KIND NUM NUM CAPS`
    Scalar,
}

const SHAPE: Part = Part::Keyword(Keyword::Shape);

impl DeclRow {
    /// The keywords and the kinds of tokens, in order.
    pub fn form(self) -> &'static [Part]
        ensures { result.now ≡ declaration_form self }
    {
        match self {
            DeclRow::OptionOf => &[SHAPE, Part::Keyword(Keyword::Option), REF],
            DeclRow::ListOf => &[SHAPE, Part::Keyword(Keyword::List), REF],
            DeclRow::SetOf => &[SHAPE, Part::Keyword(Keyword::Set), REF],
            DeclRow::SliceOf => &[SHAPE, Part::Keyword(Keyword::Slice), REF],
            DeclRow::BoxOf => &[SHAPE, Part::Keyword(Keyword::Box), REF],
            DeclRow::BoxedSliceOf => &[SHAPE, Part::Keyword(Keyword::BoxedSlice), REF],
            DeclRow::ArrayOf => &[SHAPE, Part::Keyword(Keyword::Array), REF, NUM],
            DeclRow::MapOf => &[SHAPE, Part::Keyword(Keyword::Map), REF, REF],
            DeclRow::ResultOf => &[SHAPE, Part::Keyword(Keyword::Result), REF, REF],
            DeclRow::TupleOf => &[SHAPE, Part::Keyword(Keyword::Tuple), REFS],
            DeclRow::Struct => &[
                SHAPE,
                Part::Keyword(Keyword::Struct),
                NAME,
                NUM,
                NUM,
                CAPS,
                OPTIONS,
                FIELDS,
            ],
            DeclRow::TupleStruct => &[
                SHAPE,
                Part::Keyword(Keyword::TupleStruct),
                NAME,
                NUM,
                NUM,
                CAPS,
                OPTIONS,
                FIELDS,
            ],
            DeclRow::Enum => &[
                SHAPE,
                Part::Keyword(Keyword::Enum),
                NAME,
                NUM,
                NUM,
                REPR,
                CAPS,
                OPTIONS,
                VARIANTS,
            ],
            DeclRow::Opaque => &[
                SHAPE,
                Part::Keyword(Keyword::Opaque),
                NAME,
                NUM,
                NUM,
                OPAQUE_OPTIONS,
            ],
            DeclRow::OpaqueUnsized => &[
                SHAPE,
                Part::Keyword(Keyword::Opaque),
                NAME,
                Part::Keyword(Keyword::Unsized),
                OPAQUE_OPTIONS,
            ],
            DeclRow::Scalar => &[
                SHAPE,
                Part::Keyword(Keyword::Scalar),
                NAME,
                KIND,
                NUM,
                NUM,
                CAPS,
            ],
        }
    }
}

/// The declaration of a row that has these tokens.
pub fn declaration_from(row: DeclRow, mut tokens: VecDeque<Token>) -> Decl
    requires { kinds_are (declaration_form row) tokens.items ≡ true }
    ensures row { row_of_declaration result ≡ row }
    ensures tokens { tokens_of_declaration result ≡ tokens.items }
{
    let t = &mut tokens;
    match row {
        DeclRow::OptionOf => Decl::OptionOf(next_reference(t)),
        DeclRow::ListOf => Decl::ListOf(next_reference(t)),
        DeclRow::SetOf => Decl::SetOf(next_reference(t)),
        DeclRow::SliceOf => Decl::SliceOf(next_reference(t)),
        DeclRow::BoxOf => Decl::BoxOf(next_reference(t)),
        DeclRow::BoxedSliceOf => Decl::BoxedSliceOf(next_reference(t)),
        DeclRow::ArrayOf => Decl::ArrayOf(next_reference(t), next_number(t)),
        DeclRow::MapOf => Decl::MapOf(next_reference(t), next_reference(t)),
        DeclRow::ResultOf => Decl::ResultOf(next_reference(t), next_reference(t)),
        DeclRow::TupleOf => Decl::TupleOf(next_references(t)),
        DeclRow::Struct => Decl::Struct(
            next_name(t),
            next_number(t),
            next_number(t),
            next_caps(t),
            next_options(t),
            next_fields(t),
        ),
        DeclRow::TupleStruct => Decl::TupleStruct(
            next_name(t),
            next_number(t),
            next_number(t),
            next_caps(t),
            next_options(t),
            next_fields(t),
        ),
        DeclRow::Enum => Decl::Enum(
            next_name(t),
            next_number(t),
            next_number(t),
            next_repr(t),
            next_caps(t),
            next_options(t),
            next_variants(t),
        ),
        DeclRow::Opaque => Decl::Opaque(
            next_name(t),
            next_number(t),
            next_number(t),
            next_opaque_options(t),
        ),
        DeclRow::OpaqueUnsized => Decl::OpaqueUnsized(next_name(t), next_opaque_options(t)),
        DeclRow::Scalar => Decl::Scalar(
            next_name(t),
            next_scalar(t),
            next_number(t),
            next_number(t),
            next_caps(t),
        ),
    }
}
