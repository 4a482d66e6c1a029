//! The debug text and the display text of a scalar.

ghost use Rattle.std.specs.Prelude.{◌≡◌, ◌↔◌, ◌<◌, ◌∷◌, ◌++◌, [], codes, encode_utf8, false};
ghost use Rattle.std.specs.Fmt.{digits, digit_glyph};
ghost use Rattle.std.specs.Str.{IsUtf8};
ghost use Rattle.facet_base.specs.Write.{HoldsText};
ghost use Rattle.facet_leaf.specs.scalars.ScalarTexts.{escaped, quoted, truth_text, scalar_debug, scalar_display};

use crate::scalars::scalar::Scalar;
use facet_base::Write;
use itoa::{Buffer, Integer};
use std::alloc::AllocError;

// Writes the debug text. A refusal leaves the beginning of it.
pub(crate) fn write_debug_of<W: Write>(leaf: &Scalar, out: &mut W) -> Result<(), AllocError>
    ensures written { HoldsText (W.contents out.old) (W.contents out.new) (scalar_debug leaf.now) result }
    ensures utf8 { IsUtf8 (scalar_debug leaf.now) }
{
    match leaf {
        Scalar::Char(c) => {
            let mut buffer = [0; 4];
            let text = c.encode_utf8(&mut buffer);
            write_quoted(text.as_bytes(), b'\'', out)
        }
        Scalar::String(text) => write_quoted(text.as_str().as_bytes(), b'"', out),
        _ => write_display_of(leaf, out),
    }
}

// Writes the display text. A refusal leaves the beginning of it.
pub(crate) fn write_display_of<W: Write>(leaf: &Scalar, out: &mut W) -> Result<(), AllocError>
    ensures written { HoldsText (W.contents out.old) (W.contents out.new) (scalar_display leaf.now) result }
    ensures utf8 { IsUtf8 (scalar_display leaf.now) }
{
    match leaf {
        Scalar::Bool(truth) => write_truth(*truth, out),
        Scalar::Char(c) => write_char(*c, out),
        Scalar::String(text) => out.write(text.as_str().as_bytes()),
        Scalar::U8(number) => write_number(*number, out),
        Scalar::U16(number) => write_number(*number, out),
        Scalar::U32(number) => write_number(*number, out),
        Scalar::U64(number) => write_number(*number, out),
        Scalar::U128(number) => write_number(*number, out),
        Scalar::USize(number) => write_number(*number, out),
        Scalar::I8(number) => write_number(*number, out),
        Scalar::I16(number) => write_number(*number, out),
        Scalar::I32(number) => write_number(*number, out),
        Scalar::I64(number) => write_number(*number, out),
        Scalar::I128(number) => write_number(*number, out),
        Scalar::ISize(number) => write_number(*number, out),
    }
}

// Writes `true` or `false`.
fn write_truth<W: Write>(truth: bool, out: &mut W) -> Result<(), AllocError>
    ensures written { HoldsText (W.contents out.old) (W.contents out.new) (truth_text truth) result }
    ensures utf8 { IsUtf8 (truth_text truth) }
{
    if truth {
        out.write(b"true")
    } else {
        out.write(b"false")
    }
}

// Writes the UTF-8 of a character.
fn write_char<W: Write>(c: char, out: &mut W) -> Result<(), AllocError>
    ensures written { HoldsText (W.contents out.old) (W.contents out.new) (encode_utf8 c) result }
    ensures utf8 { IsUtf8 (encode_utf8 c) }
{
    let mut buffer = [0; 4];
    let text = c.encode_utf8(&mut buffer);
    out.write(text.as_bytes())
}

// Writes a number in decimal digits.
fn write_number<N: Integer, W: Write>(number: N, out: &mut W) -> Result<(), AllocError>
    ensures written { HoldsText (W.contents out.old) (W.contents out.new) (N.text number) result }
    ensures utf8 { IsUtf8 (N.text number) }
{
    let mut buffer = Buffer::new();
    out.write(buffer.format(number).as_bytes())
}

// Writes bytes between two quotes, those that can't stand there escaped.
fn write_quoted<W: Write>(bytes: &[u8], quote: u8, out: &mut W) -> Result<(), AllocError>
    ensures { HoldsText (W.contents out.old) (W.contents out.new) (quoted quote bytes.now) result }
{
    out.write(&[quote])?;
    let mut start = 0;
    for (end, byte) in bytes.iter().enumerate() {
        if is_escaped(*byte, quote) {
            out.write(&bytes[start..end])?;
            write_escaped(*byte, quote, out)?;
            start = end + 1;
        }
    }
    out.write(&bytes[start..])?;
    out.write(&[quote])
}

// Whether a byte is escaped between two quotes.
fn is_escaped(byte: u8, quote: u8) -> bool
    ensures { (result ≡ false) ↔ (escaped quote byte ≡ byte ∷ []) }
{
    byte < 32 || byte == 127 || byte == b'\\' || byte == quote
}

// Writes a byte as it stands between two quotes.
fn write_escaped<W: Write>(byte: u8, quote: u8, out: &mut W) -> Result<(), AllocError>
    ensures { HoldsText (W.contents out.old) (W.contents out.new) (escaped quote byte) result }
{
    if byte == b'\t' {
        out.write(b"\\t")
    } else if byte == b'\r' {
        out.write(b"\\r")
    } else if byte == b'\n' {
        out.write(b"\\n")
    } else if byte == 0 {
        out.write(b"\\0")
    } else if byte == b'\\' || byte == quote {
        out.write(&[b'\\', byte])
    } else if byte < 32 || byte == 127 {
        write_code(byte, out)
    } else {
        out.write(&[byte])
    }
}

// Writes an ASCII byte by its code, in hexadecimal digits without a leading zero.
fn write_code<W: Write>(byte: u8, out: &mut W) -> Result<(), AllocError>
    ensures { HoldsText (W.contents out.old) (W.contents out.new) (codes "\\u{" ++ digits 16 false byte ++ codes "}") result }
{
    let last = hex_digit(byte % 16);
    if byte < 16 {
        out.write(&[b'\\', b'u', b'{', last, b'}'])
    } else {
        out.write(&[b'\\', b'u', b'{', hex_digit(byte / 16), last, b'}'])
    }
}

// The lower-case hexadecimal digit of a number.
fn hex_digit(number: u8) -> u8
    requires { number < 16 }
    ensures { result ≡ digit_glyph false number }
{
    if number < 10 {
        b'0' + number
    } else {
        b'a' + (number - 10)
    }
}
