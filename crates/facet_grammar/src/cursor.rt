ghost use Rattle.std.specs.Prelude.{◌≡◌, ◌∷◌, true};
ghost use Rattle.facet_grammar.specs.declared.token.Token.TheVariants as token;
ghost use Rattle.facet_grammar.specs.declared.token.Kind.TheVariants as kind;
ghost use Rattle.facet_grammar.specs.Forms.{starts_with};

use crate::token::Token;
use facet_base::{ScalarType, ShapeId, Text};
use facet_declaration::{FieldDecl, VariantDecl};
use facet_desc::EnumRepr;
use facet_words::{Caps, Opt};
use sqlite_items::Items;
use std::collections::VecDeque;

/// Takes the name that the tokens begin with.
pub fn next_name(tokens: &mut VecDeque<Token>) -> Text
    requires { starts_with kind.Name tokens.old.items ≡ true }
    ensures { tokens.old.items ≡ token.Name result ∷ tokens.new.items }
{
    match tokens.pop_front() {
        Some(Token::Name(name)) => name,
        _ => unreachable!(),
    }
}

/// Takes the reference that the tokens begin with.
pub fn next_reference(tokens: &mut VecDeque<Token>) -> ShapeId
    requires { starts_with kind.Reference tokens.old.items ≡ true }
    ensures { tokens.old.items ≡ token.Reference result ∷ tokens.new.items }
{
    match tokens.pop_front() {
        Some(Token::Reference(shape)) => shape,
        _ => unreachable!(),
    }
}

/// Takes the text that the tokens begin with.
pub fn next_rest(tokens: &mut VecDeque<Token>) -> Text
    requires { starts_with kind.Rest tokens.old.items ≡ true }
    ensures { tokens.old.items ≡ token.Rest result ∷ tokens.new.items }
{
    match tokens.pop_front() {
        Some(Token::Rest(text)) => text,
        _ => unreachable!(),
    }
}

/// Takes the number that the tokens begin with.
pub fn next_number(tokens: &mut VecDeque<Token>) -> u32
    requires { starts_with kind.Number tokens.old.items ≡ true }
    ensures { tokens.old.items ≡ token.Number result ∷ tokens.new.items }
{
    match tokens.pop_front() {
        Some(Token::Number(number)) => number,
        _ => unreachable!(),
    }
}

/// Takes the capabilities that the tokens begin with.
pub fn next_caps(tokens: &mut VecDeque<Token>) -> Caps
    requires { starts_with kind.Caps tokens.old.items ≡ true }
    ensures { tokens.old.items ≡ token.Caps result ∷ tokens.new.items }
{
    match tokens.pop_front() {
        Some(Token::Caps(caps)) => caps,
        _ => unreachable!(),
    }
}

/// Takes the representation that the tokens begin with.
pub fn next_repr(tokens: &mut VecDeque<Token>) -> EnumRepr
    requires { starts_with kind.Repr tokens.old.items ≡ true }
    ensures { tokens.old.items ≡ token.Repr result ∷ tokens.new.items }
{
    match tokens.pop_front() {
        Some(Token::Repr(repr)) => repr,
        _ => unreachable!(),
    }
}

/// Takes the kind of scalars that the tokens begin with.
pub fn next_scalar(tokens: &mut VecDeque<Token>) -> ScalarType
    requires { starts_with kind.Scalar tokens.old.items ≡ true }
    ensures { tokens.old.items ≡ token.Scalar result ∷ tokens.new.items }
{
    match tokens.pop_front() {
        Some(Token::Scalar(scalar)) => scalar,
        _ => unreachable!(),
    }
}

/// Takes the references that the tokens begin with.
pub fn next_references(tokens: &mut VecDeque<Token>) -> Items<ShapeId>
    requires { starts_with kind.References tokens.old.items ≡ true }
    ensures { tokens.old.items ≡ token.References result ∷ tokens.new.items }
{
    match tokens.pop_front() {
        Some(Token::References(shapes)) => shapes,
        _ => unreachable!(),
    }
}

/// Takes the options that the tokens begin with.
pub fn next_options(tokens: &mut VecDeque<Token>) -> Items<Opt>
    requires { starts_with kind.Options tokens.old.items ≡ true }
    ensures { tokens.old.items ≡ token.Options result ∷ tokens.new.items }
{
    match tokens.pop_front() {
        Some(Token::Options(options)) => options,
        _ => unreachable!(),
    }
}

/// Takes the options of an opaque that the tokens begin with.
pub fn next_opaque_options(tokens: &mut VecDeque<Token>) -> Items<Opt>
    requires { starts_with kind.OpaqueOptions tokens.old.items ≡ true }
    ensures { tokens.old.items ≡ token.OpaqueOptions result ∷ tokens.new.items }
{
    match tokens.pop_front() {
        Some(Token::OpaqueOptions(options)) => options,
        _ => unreachable!(),
    }
}

/// Takes the fields that the tokens begin with.
pub fn next_fields(tokens: &mut VecDeque<Token>) -> Items<FieldDecl>
    requires { starts_with kind.Fields tokens.old.items ≡ true }
    ensures { tokens.old.items ≡ token.Fields result ∷ tokens.new.items }
{
    match tokens.pop_front() {
        Some(Token::Fields(fields)) => fields,
        _ => unreachable!(),
    }
}

/// Takes the variants that the tokens begin with.
pub fn next_variants(tokens: &mut VecDeque<Token>) -> Items<VariantDecl>
    requires { starts_with kind.Variants tokens.old.items ≡ true }
    ensures { tokens.old.items ≡ token.Variants result ∷ tokens.new.items }
{
    match tokens.pop_front() {
        Some(Token::Variants(variants)) => variants,
        _ => unreachable!(),
    }
}
