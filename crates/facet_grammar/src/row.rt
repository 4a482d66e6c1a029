ghost use Rattle.std.specs.Prelude.{◌≡◌, true};
ghost use Rattle.facet_grammar.specs.Forms.{kinds_are};
ghost use Rattle.facet_grammar.specs.Rows.{form_of, row_of, tokens_of};

use crate::command::Command;
use crate::cursor::{next_name, next_reference, next_rest};
use crate::declaration_row::{DeclRow, declaration_from};
use crate::keyword::Keyword;
use crate::part::{NAME, REF, TEXT};
use crate::token::{Part, Token};
use std::collections::VecDeque;

/// A row of the table of commands.
#[derive(Clone, Copy)]
pub enum Row {
    /// A declaration.
    Shape(DeclRow),
    /// `seal`
    Seal,
    /// `put NAME REF TEXT`
    Put,
    /// `default NAME REF`
    Default,
}

/// The rows, in the order in which they are tried.
pub const ROWS: [Row; 19] = [
    Row::Put,
    Row::Seal,
    Row::Default,
    Row::Shape(DeclRow::OptionOf),
    Row::Shape(DeclRow::ListOf),
    Row::Shape(DeclRow::SetOf),
    Row::Shape(DeclRow::SliceOf),
    Row::Shape(DeclRow::BoxOf),
    Row::Shape(DeclRow::BoxedSliceOf),
    Row::Shape(DeclRow::ArrayOf),
    Row::Shape(DeclRow::MapOf),
    Row::Shape(DeclRow::ResultOf),
    Row::Shape(DeclRow::TupleOf),
    Row::Shape(DeclRow::Struct),
    Row::Shape(DeclRow::TupleStruct),
    Row::Shape(DeclRow::Enum),
    Row::Shape(DeclRow::Opaque),
    Row::Shape(DeclRow::OpaqueUnsized),
    Row::Shape(DeclRow::Scalar),
];

impl Row {
    /// The keywords and the kinds of tokens, in order.
    pub fn form(self) -> &'static [Part]
        ensures { result.now ≡ form_of self }
    {
        match self {
            Row::Shape(row) => row.form(),
            Row::Seal => &[Part::Keyword(Keyword::Seal)],
            Row::Put => &[Part::Keyword(Keyword::Put), NAME, REF, TEXT],
            Row::Default => &[Part::Keyword(Keyword::Default), NAME, REF],
        }
    }
}

/// The command of a row that has these tokens.
pub fn command_from(row: Row, mut tokens: VecDeque<Token>) -> Command
    requires { kinds_are (form_of row) tokens.items ≡ true }
    ensures row { row_of result ≡ row }
    ensures tokens { tokens_of result ≡ tokens.items }
{
    match row {
        Row::Shape(row) => Command::Shape(declaration_from(row, tokens)),
        Row::Seal => Command::Seal,
        Row::Put => put_from(&mut tokens),
        Row::Default => default_from(&mut tokens),
    }
}

// The `put` that has these tokens.
fn put_from(tokens: &mut VecDeque<Token>) -> Command
    requires { kinds_are (form_of Row.Put) tokens.old.items ≡ true }
    ensures row { row_of result ≡ Row.Put }
    ensures tokens { tokens_of result ≡ tokens.old.items }
{
    Command::Put(next_name(tokens), next_reference(tokens), next_rest(tokens))
}

// The `default` that has these tokens.
fn default_from(tokens: &mut VecDeque<Token>) -> Command
    requires { kinds_are (form_of Row.Default) tokens.old.items ≡ true }
    ensures row { row_of result ≡ Row.Default }
    ensures tokens { tokens_of result ≡ tokens.old.items }
{
    Command::Default(next_name(tokens), next_reference(tokens))
}
