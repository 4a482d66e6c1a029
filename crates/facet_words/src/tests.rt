use crate::caps::read_caps;
use crate::fixed::{is_unsized, read_base, read_kind, read_repr, read_variance};
use crate::integer::read_integer;
use crate::options::{Opt, are_for_opaque, are_ordered, read_option};
use crate::path::is_path;
use crate::word::{read_number, read_reference};
use facet_base::{ScalarType, ShapeId, Variance, VariancePosition};
use facet_desc::{BaseRepr, EnumRepr};
use std::alloc::Global;
use std::test::Fail;

#[test]
fn numbers_have_nine_digits(rt: HostRuntime) -> Result<(), Fail> {
    assert!(rt; read_number("999999999") == Some(999_999_999));
    assert!(rt; read_number("1000000000").is_none());
    assert!(rt; read_number("00").is_none());
    assert!(rt; read_reference("#3") == Some(3));
    Ok(())
}

#[test]
fn integers_have_the_range_of_i64(rt: HostRuntime) -> Result<(), Fail> {
    assert!(rt; read_integer("-9223372036854775808") == Some(i64::MIN));
    assert!(rt; read_integer("9223372036854775807") == Some(i64::MAX));
    assert!(rt; read_integer("0") == Some(0));
    for text in [
        "9223372036854775808",
        "-9223372036854775809",
        "-0",
        "-01",
        "01",
        "+1",
        "-",
        "",
    ] {
        assert!(rt; read_integer(text).is_none());
    }
    Ok(())
}

#[test]
fn paths_are_names_joined_by_two_colons(rt: HostRuntime) -> Result<(), Fail> {
    for text in ["a", "alloc::collections::btree_map"] {
        assert!(rt; is_path(text));
    }
    for text in ["", "a:b", "a:::b", "a::", "::a", "a::::b", "a b"] {
        assert!(rt; !is_path(text));
    }
    Ok(())
}

#[test]
fn letters_stand_in_order(rt: HostRuntime) -> Result<(), Fail> {
    for text in ["-", "e", "eo", "epohgdcsf", "cf"] {
        assert!(rt; read_caps(text).is_some());
    }
    for text in ["", "oe", "ee", "e-", "-e", "x", "ex", "epohgdcsff"] {
        assert!(rt; read_caps(text).is_none());
    }
    Ok(())
}

// The capabilities that a text is, in the order of the letters.
fn members(text: &str) -> Option<[bool; 9]> {
    match read_caps(text) {
        Some(c) => Some([
            c.partial_eq,
            c.partial_cmp,
            c.cmp,
            c.hash,
            c.debug,
            c.default_in_place,
            c.clone_into,
            c.display,
            c.parse,
        ]),
        None => None,
    }
}

// No two letters stand in the same of these words.
#[test]
fn each_letter_is_its_own_capability(rt: HostRuntime) -> Result<(), Fail> {
    let (y, n) = (true, false);
    assert!(rt; members("eogcf") == Some([y, n, y, n, y, n, y, n, y]));
    assert!(rt; members("podc") == Some([n, y, y, n, n, y, y, n, n]));
    assert!(rt; members("hgdc") == Some([n, n, n, y, y, y, y, n, n]));
    assert!(rt; members("sf") == Some([n, n, n, n, n, n, n, y, y]));
    Ok(())
}

#[test]
fn words_stand_for_values(rt: HostRuntime) -> Result<(), Fail> {
    assert!(rt; read_repr("isize") == Some(EnumRepr::ISize));
    assert!(rt; read_repr("u128").is_none());
    assert!(rt; read_kind("unit") == Some(ScalarType::Unit));
    assert!(rt; read_kind("str").is_none());
    assert!(rt; read_base("c") == Some(BaseRepr::C));
    assert!(rt; read_variance("v") == Some(Variance::Contravariant));
    assert!(rt; read_variance("c") == Some(Variance::Covariant));
    assert!(rt; is_unsized("unsized"));
    Ok(())
}

// Whether a text is an option.
fn is_option(alloc: Global, text: &str) -> Result<bool, Fail> {
    Ok(read_option(alloc, text)?.is_some())
}

#[test]
fn options_are_read(rt: HostRuntime) -> Result<(), Fail> {
    for text in [
        ".repr=transparent",
        ".packed",
        ".id=0",
        ".mod=a::b",
        ".param=T:#6",
        ".base=v",
        ".dep=+#3",
        ".dep=-#3",
        ".dep==#3",
    ] {
        assert!(rt; is_option(rt.alloc(), text)?);
    }
    Ok(())
}

// The position of the dependency that a text is.
fn position(alloc: Global, text: &str) -> Result<Option<VariancePosition>, Fail> {
    match read_option(alloc, text)? {
        Some(Opt::Dep(position, _)) => Ok(Some(position)),
        _ => Ok(None),
    }
}

#[test]
fn a_sign_says_the_position(rt: HostRuntime) -> Result<(), Fail> {
    assert!(rt; position(rt.alloc(), ".dep=+#3")? == Some(VariancePosition::Covariant));
    assert!(rt; position(rt.alloc(), ".dep=-#3")? == Some(VariancePosition::Contravariant));
    assert!(rt; position(rt.alloc(), ".dep==#3")? == Some(VariancePosition::Invariant));
    Ok(())
}

#[test]
fn other_words_are_no_options(rt: HostRuntime) -> Result<(), Fail> {
    for text in [
        "",
        ".repr=u8",
        ".packed=",
        ".id=01",
        ".mod=",
        ".param=T#6",
        ".param=T:6",
        ".param=T:#6:#6",
        ".base=x",
        ".dep=#3",
        "packed",
    ] {
        assert!(rt; !is_option(rt.alloc(), text)?);
    }
    Ok(())
}

#[test]
fn options_stand_in_order(rt: HostRuntime) -> Result<(), Fail> {
    let dep = Opt::Dep(VariancePosition::Invariant, ShapeId(3));
    let more = Opt::Dep(VariancePosition::Covariant, ShapeId(3));
    assert!(rt; are_ordered(&[Opt::Repr(BaseRepr::C), Opt::Packed, Opt::Id(0)]));
    assert!(rt; !are_ordered(&[Opt::Packed, Opt::Packed]));
    assert!(rt; are_ordered(&[Opt::Base(Variance::Bivariant), dep, more]));
    assert!(rt; !are_for_opaque(&[Opt::Id(0), Opt::Packed]));
    Ok(())
}
