ghost use Rattle.std.specs.Prelude.{◌≡◌, IsTrue};

use crate::conversion::Conversion;
use crate::hook::LeafHook;
use crate::leaf::Leaf;
use crate::scalars::convert::convert_scalar;
use crate::scalars::kinds::scalar_kind_of;
use crate::scalars::order::order_scalars;
use crate::scalars::parse::parse_scalar;
use crate::scalars::scalar::Scalar;
use crate::scalars::texts::{write_debug_of, write_display_of};
use facet_base::{Characteristic, ScalarType, Text};
use std::alloc::{AllocError, Global};
use std::cmp::Ordering;
use std::test::Fail;

mod hashing;
mod laws_used;

// Whether a leaf meets the invariants of its type, asked through the bound. No kind of `Scalar` has the hook.
fn meets_its_invariants<L: Leaf>(leaf: &L) -> bool
    requires { IsTrue (L.model.hook (L.model.kind leaf.now) LeafHook.Invariants) }
    ensures { result ≡ L.model.holds leaf.now }
{
    leaf.invariants()
}

// The debug text of a leaf, and then its display text.
fn texts_of(alloc: Global, leaf: &Scalar) -> Result<Vec<u8>, AllocError> {
    let mut texts = Vec::new(alloc);
    write_debug_of(leaf, &mut texts)?;
    write_display_of(leaf, &mut texts)?;
    Ok(texts)
}

#[test]
fn a_text_is_parsed_copied_and_shown(rt: HostRuntime) -> Result<(), Fail> {
    let alloc = rt.alloc();
    let leaf = Scalar::parse(alloc, ScalarType::String, "a\"\n")?
        .ok()
        .ok_or("a String")?;
    let copy = leaf.clone_leaf(alloc)?;
    assert_eq!(rt;
        texts_of(alloc, &copy)?.as_slice(),
        b"\"a\\\"\\n\"a\"\n".as_slice()
    );
    Ok(())
}

#[test]
fn bytes_are_a_string_where_they_are_utf8(rt: HostRuntime) -> Result<(), Fail> {
    let alloc = rt.alloc();
    let leaf = Scalar::parse_bytes(alloc, ScalarType::String, b"\xc3\xa9")?
        .ok()
        .ok_or("a String")?;
    assert_eq!(rt; texts_of(alloc, &leaf)?.as_slice(), "\"é\"é".as_bytes());
    let refused = Scalar::parse_bytes(alloc, ScalarType::String, b"\xc3")?;
    assert!(rt; refused.is_err());
    Ok(())
}

#[test]
fn a_kind_has_its_default(rt: HostRuntime) -> Result<(), Fail> {
    let alloc = rt.alloc();
    let leaf = Scalar::default_of(alloc, ScalarType::String)?;
    assert_eq!(rt; texts_of(alloc, &leaf)?.as_slice(), b"\"\"".as_slice());
    let leaf = Scalar::default_of(alloc, ScalarType::I8)?;
    assert_eq!(rt; texts_of(alloc, &leaf)?.as_slice(), b"00".as_slice());
    Ok(())
}

#[test]
fn the_method_converts(rt: HostRuntime) -> Result<(), Fail> {
    match Scalar::convert(rt.alloc(), ScalarType::I8, Scalar::U16(127)) {
        Ok(Conversion::Converted(Scalar::I8(number))) => assert_eq!(rt; number, 127),
        _ => assert!(rt; false, "127 is an i8"),
    }
    Ok(())
}

// How a conversion ended, and the leaf in it.
fn end_of(conversion: Conversion<Scalar>) -> (&'static str, Scalar) {
    match conversion {
        Conversion::Converted(leaf) => ("converted", leaf),
        Conversion::Unsupported(leaf) => ("unsupported", leaf),
        Conversion::Failed(leaf) => ("failed", leaf),
    }
}

#[test]
fn a_number_is_converted_where_the_kind_has_it(rt: HostRuntime) -> Result<(), Fail> {
    let alloc = rt.alloc();
    for (source, text, target, how, kind) in [
        (
            ScalarType::U16,
            "255",
            ScalarType::U8,
            "converted",
            ScalarType::U8,
        ),
        (
            ScalarType::U16,
            "256",
            ScalarType::U8,
            "failed",
            ScalarType::U16,
        ),
        (
            ScalarType::I8,
            "-1",
            ScalarType::U128,
            "failed",
            ScalarType::I8,
        ),
        (
            ScalarType::I128,
            "-129",
            ScalarType::I8,
            "failed",
            ScalarType::I128,
        ),
        (
            ScalarType::I64,
            "-128",
            ScalarType::I8,
            "converted",
            ScalarType::I8,
        ),
        (
            ScalarType::U8,
            "1",
            ScalarType::Bool,
            "failed",
            ScalarType::U8,
        ),
        (
            ScalarType::Bool,
            "true",
            ScalarType::U8,
            "unsupported",
            ScalarType::Bool,
        ),
    ] {
        let from = parse_scalar(alloc, source, text)?.ok().ok_or("a scalar")?;
        let (end, leaf) = end_of(convert_scalar(target, from));
        assert_eq!(rt; end, how, "at {text}");
        assert_eq!(rt; scalar_kind_of(&leaf), kind, "at {text}");
    }
    Ok(())
}

#[test]
fn leaves_are_ordered_by_value(rt: HostRuntime) -> Result<(), Fail> {
    let alloc = rt.alloc();
    for (kind, less, greater) in [
        (ScalarType::Bool, "false", "true"),
        (ScalarType::U8, "9", "10"),
        (ScalarType::I128, "-10", "-9"),
        (ScalarType::ISize, "-1", "0"),
        (ScalarType::Char, "\u{ff}", "\u{100}"),
        (ScalarType::String, "abz", "b"),
        (ScalarType::String, "a", "a\0"),
        (ScalarType::String, "\u{ffff}", "\u{10000}"),
    ] {
        let a = parse_scalar(alloc, kind, less)?.ok().ok_or("a scalar")?;
        let b = parse_scalar(alloc, kind, greater)?.ok().ok_or("a scalar")?;
        assert_eq!(rt; scalar_kind_of(&a), scalar_kind_of(&b));
        assert_eq!(rt; order_scalars(&a, &b), Ordering::Less, "at {less}");
    }
    Ok(())
}

#[test]
fn a_kind_has_its_capabilities_and_hooks(rt: HostRuntime) {
    assert!(rt; Scalar::can(ScalarType::I8, Characteristic::Ord));
    assert!(rt; !Scalar::can(ScalarType::Str, Characteristic::Ord));
    assert!(rt; Scalar::can(ScalarType::Unit, Characteristic::Debug));
    assert!(rt; Scalar::hook(ScalarType::String, LeafHook::ParseBytes));
    assert!(rt; !Scalar::hook(ScalarType::Char, LeafHook::TryFrom));
    assert!(rt; !Scalar::hook(ScalarType::U8, LeafHook::Invariants));
}
