ghost use Rattle.std.specs.Prelude.{◌≡◌, ◌≢◌, IsTrue, IfOk, OnErr, Some, false, ok_or, true};
ghost use Rattle.facet_leaf.specs.scalars.Scalar.{scalar_can, scalar_default, scalar_kind};
ghost use Rattle.facet_leaf.specs.scalars.ScalarTexts.{has_minus, scalar_parsed, scalar_parsed_bytes, whole_parsed};

use crate::scalars::convert::{signed_whole, whole_at_least_zero};
use crate::scalars::scalar::Scalar;
use facet_base::{Characteristic, ParseError, ScalarType, Text};
use std::alloc::{AllocError, Global};
use std::str::from_utf8;

/// The scalar of a kind that a text is, where it is one. Only a String takes memory.
pub(crate) fn parse_scalar(
    alloc: Global,
    kind: ScalarType,
    text: &str,
) -> Result<Result<Scalar, ParseError>, AllocError>
    ensures memory { OnErr result (kind ≡ ScalarType.String) }
    ensures parsed { IfOk result (λ parsed. parsed ≡ ok_or (scalar_parsed kind text.now) (record { kind = kind })) }
{
    match kind {
        ScalarType::String => Ok(Ok(Scalar::String(Text::new(alloc, text)?))),
        _ => Ok(parse_non_string(kind, text).ok_or(ParseError { kind })),
    }
}

/// The String that bytes are, where they are UTF-8. No other kind is parsed from bytes, and none but a String takes memory.
pub(crate) fn parse_scalar_bytes(
    alloc: Global,
    kind: ScalarType,
    bytes: &[u8],
) -> Result<Result<Scalar, ParseError>, AllocError>
    ensures memory { OnErr result (kind ≡ ScalarType.String) }
    ensures parsed { IfOk result (λ parsed. parsed ≡ ok_or (scalar_parsed_bytes kind bytes.now) (record { kind = kind })) }
{
    match kind {
        ScalarType::String => match from_utf8(bytes) {
            Ok(text) => Ok(Ok(Scalar::String(Text::new(alloc, text)?))),
            Err(_) => Ok(Err(ParseError { kind })),
        },
        _ => Ok(Err(ParseError { kind })),
    }
}

/// The default of a kind. Only a String takes memory.
pub(crate) fn default_scalar(alloc: Global, kind: ScalarType) -> Result<Scalar, AllocError>
    requires { IsTrue (scalar_can kind Characteristic.Default) }
    ensures memory { OnErr result (kind ≡ ScalarType.String) }
    ensures made { IfOk result (λ leaf. scalar_default kind ≡ Some leaf) }
{
    match kind {
        ScalarType::Bool => Ok(Scalar::Bool(false)),
        ScalarType::Char => Ok(Scalar::Char('\0')),
        ScalarType::String => Ok(Scalar::String(Text::new(alloc, "")?)),
        _ => Ok(whole_at_least_zero(kind, 0).unwrap()),
    }
}

/// The same scalar once more. Only a String takes memory.
pub(crate) fn clone_scalar(leaf: &Scalar, alloc: Global) -> Result<Scalar, AllocError>
    ensures memory { OnErr result (scalar_kind leaf.now ≡ ScalarType.String) }
    ensures copied { IfOk result (λ copy. copy ≡ leaf.now) }
{
    match leaf {
        Scalar::Bool(b) => Ok(Scalar::Bool(*b)),
        Scalar::Char(c) => Ok(Scalar::Char(*c)),
        Scalar::String(text) => Ok(Scalar::String(text.try_clone(alloc)?)),
        Scalar::U8(n) => Ok(Scalar::U8(*n)),
        Scalar::U16(n) => Ok(Scalar::U16(*n)),
        Scalar::U32(n) => Ok(Scalar::U32(*n)),
        Scalar::U64(n) => Ok(Scalar::U64(*n)),
        Scalar::U128(n) => Ok(Scalar::U128(*n)),
        Scalar::USize(n) => Ok(Scalar::USize(*n)),
        Scalar::I8(n) => Ok(Scalar::I8(*n)),
        Scalar::I16(n) => Ok(Scalar::I16(*n)),
        Scalar::I32(n) => Ok(Scalar::I32(*n)),
        Scalar::I64(n) => Ok(Scalar::I64(*n)),
        Scalar::I128(n) => Ok(Scalar::I128(*n)),
        Scalar::ISize(n) => Ok(Scalar::ISize(*n)),
    }
}

// The scalar of a kind other than String that a text is, where it is one.
fn parse_non_string(kind: ScalarType, text: &str) -> Option<Scalar>
    requires { kind ≢ ScalarType.String }
    ensures { result ≡ scalar_parsed kind text.now }
{
    match kind {
        ScalarType::Bool => parse_bool(text),
        ScalarType::Char => parse_char(text),
        _ => parse_whole(kind, text),
    }
}

fn parse_bool(text: &str) -> Option<Scalar>
    ensures { result ≡ scalar_parsed ScalarType.Bool text.now }
{
    Some(Scalar::Bool(text.parse().ok()?))
}

fn parse_char(text: &str) -> Option<Scalar>
    ensures { result ≡ scalar_parsed ScalarType.Char text.now }
{
    Some(Scalar::Char(text.parse().ok()?))
}

// The whole number of a kind that a text is, where it is one.
fn parse_whole(kind: ScalarType, text: &str) -> Option<Scalar>
    ensures { result ≡ whole_parsed kind text.now }
{
    if text.starts_with('-') {
        parse_with_minus(kind, text)
    } else {
        parse_without_minus(kind, text)
    }
}

fn parse_with_minus(kind: ScalarType, text: &str) -> Option<Scalar>
    requires { has_minus text.now ≡ true }
    ensures { result ≡ whole_parsed kind text.now }
{
    let number: i128 = text.parse().ok()?;
    signed_whole(kind, number)
}

fn parse_without_minus(kind: ScalarType, text: &str) -> Option<Scalar>
    requires { has_minus text.now ≡ false }
    ensures { result ≡ whole_parsed kind text.now }
{
    let number: u128 = text.parse().ok()?;
    whole_at_least_zero(kind, number)
}
