ghost use Rattle.std.specs.Prelude.{◌≡◌, IfOk, option_map};
ghost use Rattle.std.specs.Option.{option_copied};
ghost use Rattle.facet_grammar.specs.declared.token.Kind.TheVariants as kind;
ghost use Rattle.facet_grammar.specs.Pieces.{pieces_of, pieces_behind};
ghost use Rattle.facet_grammar.specs.Tokens.{read_piece as piece_read, read_first as first_read, read_token as token_read, read_words as words_read, is_tuple as is_a_tuple, are_opaque_options as are_options_of_opaque};

use crate::piece::next_taken;
use crate::token::{Kind, Token};
use crate::word::Word;
use facet_base::{ShapeId, Text};
use facet_declaration::first_piece;
use facet_words::{
    Opt, are_for_opaque, are_ordered, has_newline, read_caps, read_kind, read_number, read_repr,
};
use sqlite_items::Items;
use std::alloc::{AllocError, Global};

/// The first token, which is of a kind, and the text behind it.
pub fn read_token<'a>(
    alloc: Global,
    kind: Kind,
    behind: Option<&'a str>,
) -> Result<Option<(Token, Option<&'a str>)>, AllocError>
    ensures { IfOk result (λ found. option_map (λ first. (first.0, pieces_behind (option_copied first.1))) found ≡ token_read kind (pieces_behind (option_copied behind.entry))) }
{
    match kind {
        Kind::Rest => match behind {
            Some(text) => read_rest(alloc, text),
            None => Ok(None),
        },
        Kind::Names => read_names(alloc, behind),
        Kind::References => read_references(alloc, behind),
        Kind::Options => read_options(alloc, behind),
        Kind::OpaqueOptions => read_opaque_options(alloc, behind),
        Kind::Fields => read_fields(alloc, behind),
        Kind::Variants => read_variants(alloc, behind),
        _ => read_first(alloc, kind, behind),
    }
}

// The token that the first piece is, and the text behind it.
fn read_first<'a>(
    alloc: Global,
    kind: Kind,
    behind: Option<&'a str>,
) -> Result<Option<(Token, Option<&'a str>)>, AllocError>
    ensures { IfOk result (λ found. option_map (λ first. (first.0, pieces_behind (option_copied first.1))) found ≡ first_read kind (pieces_behind (option_copied behind.entry))) }
{
    let Some(text) = behind else {
        return Ok(None);
    };
    let (piece, after) = first_piece(text, ' ');
    match read_piece(alloc, kind, piece)? {
        Some(token) => Ok(Some((token, after))),
        None => Ok(None),
    }
}

// The token of a kind that one piece is.
fn read_piece(alloc: Global, kind: Kind, piece: &str) -> Result<Option<Token>, AllocError>
    ensures { IfOk result (λ found. found ≡ piece_read kind piece.now) }
{
    match kind {
        Kind::Name => Ok(Text::read(alloc, piece)?.map(|name| Token::Name(name))),
        Kind::Number => Ok(read_number(piece).map(|n| Token::Number(n))),
        Kind::Reference => Ok(ShapeId::read(alloc, piece)?.map(|shape| Token::Reference(shape))),
        Kind::Caps => Ok(read_caps(piece).map(|caps| Token::Caps(caps))),
        Kind::Repr => Ok(read_repr(piece).map(|repr| Token::Repr(repr))),
        Kind::Scalar => Ok(read_kind(piece).map(|scalar| Token::Scalar(scalar))),
        _ => Ok(None),
    }
}

// The token that all of a text is, unless it has a newline.
fn read_rest<'a>(
    alloc: Global,
    text: &'a str,
) -> Result<Option<(Token, Option<&'a str>)>, AllocError>
    ensures { IfOk result (λ found. option_map (λ first. (first.0, pieces_behind (option_copied first.1))) found ≡ token_read kind.Rest (pieces_of text.now)) }
{
    if has_newline(text) {
        return Ok(None);
    }
    Ok(Some((Token::Rest(Text::new(alloc, text)?), None)))
}

// The names that all pieces are.
fn read_names<'a>(
    alloc: Global,
    behind: Option<&'a str>,
) -> Result<Option<(Token, Option<&'a str>)>, AllocError>
    ensures { IfOk result (λ found. option_map (λ first. (first.0, pieces_behind (option_copied first.1))) found ≡ token_read kind.Names (pieces_behind (option_copied behind.entry))) }
{
    match read_words(alloc, Kind::Names, behind)? {
        Some((names, after)) => Ok(Some((Token::Names(names), after))),
        None => Ok(None),
    }
}

// The 1 to 12 references that all pieces are.
fn read_references<'a>(
    alloc: Global,
    behind: Option<&'a str>,
) -> Result<Option<(Token, Option<&'a str>)>, AllocError>
    ensures { IfOk result (λ found. option_map (λ first. (first.0, pieces_behind (option_copied first.1))) found ≡ token_read kind.References (pieces_behind (option_copied behind.entry))) }
{
    match read_words(alloc, Kind::References, behind)? {
        Some((shapes, after)) => {
            if is_tuple(shapes.as_slice()) {
                Ok(Some((Token::References(shapes), after)))
            } else {
                Ok(None)
            }
        }
        None => Ok(None),
    }
}

// The options that the pieces are which begin with a dot.
fn read_options<'a>(
    alloc: Global,
    behind: Option<&'a str>,
) -> Result<Option<(Token, Option<&'a str>)>, AllocError>
    ensures { IfOk result (λ found. option_map (λ first. (first.0, pieces_behind (option_copied first.1))) found ≡ token_read kind.Options (pieces_behind (option_copied behind.entry))) }
{
    match read_words(alloc, Kind::Options, behind)? {
        Some((options, after)) => {
            if are_ordered(options.as_slice()) {
                Ok(Some((Token::Options(options), after)))
            } else {
                Ok(None)
            }
        }
        None => Ok(None),
    }
}

// The options of an opaque that the pieces are which begin with a dot.
fn read_opaque_options<'a>(
    alloc: Global,
    behind: Option<&'a str>,
) -> Result<Option<(Token, Option<&'a str>)>, AllocError>
    ensures { IfOk result (λ found. option_map (λ first. (first.0, pieces_behind (option_copied first.1))) found ≡ token_read kind.OpaqueOptions (pieces_behind (option_copied behind.entry))) }
{
    match read_words(alloc, Kind::OpaqueOptions, behind)? {
        Some((options, after)) => {
            if are_opaque_options(options.as_slice()) {
                Ok(Some((Token::OpaqueOptions(options), after)))
            } else {
                Ok(None)
            }
        }
        None => Ok(None),
    }
}

// The fields that all pieces are.
fn read_fields<'a>(
    alloc: Global,
    behind: Option<&'a str>,
) -> Result<Option<(Token, Option<&'a str>)>, AllocError>
    ensures { IfOk result (λ found. option_map (λ first. (first.0, pieces_behind (option_copied first.1))) found ≡ token_read kind.Fields (pieces_behind (option_copied behind.entry))) }
{
    match read_words(alloc, Kind::Fields, behind)? {
        Some((fields, after)) => Ok(Some((Token::Fields(fields), after))),
        None => Ok(None),
    }
}

// The variants that all pieces are.
fn read_variants<'a>(
    alloc: Global,
    behind: Option<&'a str>,
) -> Result<Option<(Token, Option<&'a str>)>, AllocError>
    ensures { IfOk result (λ found. option_map (λ first. (first.0, pieces_behind (option_copied first.1))) found ≡ token_read kind.Variants (pieces_behind (option_copied behind.entry))) }
{
    match read_words(alloc, Kind::Variants, behind)? {
        Some((variants, after)) => Ok(Some((Token::Variants(variants), after))),
        None => Ok(None),
    }
}

// Whether a tuple may have these parts: 1 to 12.
fn is_tuple(shapes: &[ShapeId]) -> bool
    ensures { result ≡ is_a_tuple shapes.now }
{
    1 <= shapes.len() && shapes.len() <= 12
}

// Whether options are those of an opaque, in their order.
fn are_opaque_options(options: &[Opt]) -> bool
    ensures { result ≡ are_options_of_opaque options.now }
{
    are_ordered(options) && are_for_opaque(options)
}

// The words that the pieces are which a token of a kind takes, and the text behind them.
fn read_words<'a, W: Word>(
    alloc: Global,
    kind: Kind,
    behind: Option<&'a str>,
) -> Result<Option<(Items<W>, Option<&'a str>)>, AllocError>
    ensures { IfOk result (λ found. option_map (λ first. (first.0, pieces_behind (option_copied first.1))) found ≡ words_read kind W.of (pieces_behind (option_copied behind.entry))) }
{
    let mut words = Items::new(alloc);
    let mut rest = behind;
    while let Some((piece, after)) = next_taken(kind, rest) {
        match W::read(alloc, piece)? {
            Some(word) => words.push(word)?,
            None => return Ok(None),
        }
        rest = after;
    }
    Ok(Some((words, rest)))
}
