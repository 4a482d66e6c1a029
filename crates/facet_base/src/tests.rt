use crate::{
    DeclId, Layout, MAX_VARIANCE_DEPTH, Many, ParseError, ScalarType, ShapeId, ShapeLayout, Text,
    TryBorrowInnerError, TryIntoInnerError, TypeNameOpts, UnsizedError, Variance, VarianceDep,
    VarianceDesc, VariancePosition, Write, decl_id_hash, decl_id_hash_extern,
};
use bytes::BytesMut;
use std::alloc::{AllocError, Global};
use std::fmt;
use std::test::Fail;

#[test]
fn hashes_are_those_of_the_standard(rt: HostRuntime) {
    for (text, hash) in [
        ("", 144066263297769815596495629667062367629),
        ("a", 279349696671665264231447081680185756004),
        ("foobar", 0x343e1662793c64bf6f0d3597ba446f18),
    ] {
        assert_eq!(rt; decl_id_hash(text), hash, "at {text}");
    }
    assert_eq!(rt;
        decl_id_hash_extern("alloc::vec", "struct", "Vec"),
        49987748937225939927979691961606443783
    );
}

#[test]
fn a_declaration_is_printed_with_32_digits(rt: HostRuntime) -> Result<(), Fail> {
    let alloc = rt.alloc();
    for (hash, printed) in [
        (0, "DeclId(0x00000000000000000000000000000000)"),
        (
            144066263297769815596495629667062367629,
            "DeclId(0x6c62272e07bb014262b821756295c58d)",
        ),
        (u128::MAX, "DeclId(0xffffffffffffffffffffffffffffffff)"),
    ] {
        let id = DeclId::new(hash);
        assert_eq!(rt; format!(in alloc; "{id:?}")?.as_str(), printed);
    }
    Ok(())
}

// The kinds of scalars in their order, with the identifiers of their types.
fn kinds() -> [(ScalarType, &'static str); 17] {
    [
        (ScalarType::Unit, "()"),
        (ScalarType::Bool, "bool"),
        (ScalarType::Char, "char"),
        (ScalarType::Str, "str"),
        (ScalarType::String, "String"),
        (ScalarType::U8, "u8"),
        (ScalarType::U16, "u16"),
        (ScalarType::U32, "u32"),
        (ScalarType::U64, "u64"),
        (ScalarType::U128, "u128"),
        (ScalarType::USize, "usize"),
        (ScalarType::I8, "i8"),
        (ScalarType::I16, "i16"),
        (ScalarType::I32, "i32"),
        (ScalarType::I64, "i64"),
        (ScalarType::I128, "i128"),
        (ScalarType::ISize, "isize"),
    ]
}

#[test]
fn scalar_kinds_are_in_order_and_a_refused_parse_prints_them(rt: HostRuntime) -> Result<(), Fail> {
    let alloc = rt.alloc();
    let mut last = None;
    for (kind, identifier) in kinds() {
        assert!(rt; last < Some(kind));
        last = Some(kind);
        let wanted = format!(in alloc; "failed to parse {identifier}")?;
        assert_eq!(rt; ParseError { kind }.to_string(alloc)?, wanted);
    }
    Ok(())
}

// Whether `{}` prints an error as this text.
fn prints<E: fmt::Display>(alloc: Global, error: &E, text: &str) -> Result<bool, AllocError> {
    Ok(error.to_string(alloc)?.as_str() == text)
}

#[test]
fn errors_print_what_is_missing_or_their_text(rt: HostRuntime) -> Result<(), AllocError> {
    let alloc = rt.alloc();
    assert!(rt; prints(alloc, &UnsizedError, "Not a Sized type")?);
    let error = TryIntoInnerError::NotSupported;
    assert!(rt; prints(alloc, &error, "try_into_inner not supported")?);
    let error = TryIntoInnerError::Generic(Text::new(alloc, "moved")?);
    assert!(rt; prints(alloc, &error, "moved")?);
    let error = TryBorrowInnerError::NotSupported;
    assert!(rt; prints(alloc, &error, "try_borrow_inner not supported")?);
    let error = TryBorrowInnerError::Generic(Text::new(alloc, "borrowed")?);
    assert!(rt; prints(alloc, &error, "borrowed")?);
    Ok(())
}

#[test]
fn only_a_sized_type_has_a_layout(rt: HostRuntime) {
    let layout = Layout { size: 24, align: 8 };
    assert!(rt; ShapeLayout::Sized(layout).sized_layout() == Ok(layout));
    assert!(rt; ShapeLayout::Unsized.sized_layout() == Err(UnsizedError));
}

#[test]
fn names_show_one_level_less_for_children(rt: HostRuntime) {
    for (levels, children) in [
        (TypeNameOpts::none().recurse_ttl, None),
        (TypeNameOpts::one().recurse_ttl, Some(0)),
        (5, Some(4)),
        (TypeNameOpts::infinite().recurse_ttl, Some(-1)),
        (TypeNameOpts::default().recurse_ttl, Some(-1)),
        (-7, Some(-7)),
    ] {
        let opts = TypeNameOpts {
            recurse_ttl: levels,
        };
        let shown = opts.for_children().map(|opts| opts.recurse_ttl);
        assert_eq!(rt; shown, children, "at {levels}");
    }
}

// Each variance, flipped, joined with `Covariant`, and whether lifetimes may shrink and may grow.
fn variances() -> [(Variance, Variance, Variance, bool, bool); 4] {
    [
        (
            Variance::BIVARIANT,
            Variance::Bivariant,
            Variance::Covariant,
            true,
            true,
        ),
        (
            Variance::COVARIANT,
            Variance::Contravariant,
            Variance::Covariant,
            true,
            false,
        ),
        (
            Variance::CONTRAVARIANT,
            Variance::Covariant,
            Variance::Invariant,
            false,
            true,
        ),
        (
            Variance::INVARIANT,
            Variance::Invariant,
            Variance::Invariant,
            false,
            false,
        ),
    ]
}

#[test]
fn variances_are_flipped_and_joined(rt: HostRuntime) {
    for (variance, flipped, joined, shrinks, grows) in variances() {
        assert!(rt; variance.flip() == flipped);
        assert!(rt; variance.combine(Variance::Covariant) == joined);
        assert!(rt; variance.can_shrink() == shrinks);
        assert!(rt; variance.can_grow() == grows);
    }
    assert!(rt; Variance::default() == Variance::Invariant);
    assert!(rt; MAX_VARIANCE_DEPTH == 32);
}

#[test]
fn a_variance_is_described_by_its_members(rt: HostRuntime) -> Result<(), Fail> {
    let alloc = rt.alloc();
    let mut deps = Many::new(alloc);
    deps.push(VarianceDep::covariant(ShapeId(16)))?;
    deps.push(VarianceDep::contravariant(ShapeId(17)))?;
    deps.push(VarianceDep::invariant(ShapeId(18)))?;
    let desc = VarianceDesc::new(Variance::Covariant, deps);
    assert!(rt; desc.base == Variance::Covariant);
    for (dep, position) in desc.deps.as_slice().iter().zip([
        VariancePosition::Covariant,
        VariancePosition::Contravariant,
        VariancePosition::Invariant,
    ]) {
        assert!(rt; dep.position == position);
    }
    assert!(rt; VarianceDesc::bivariant(alloc).base == Variance::Bivariant);
    assert!(rt; VarianceDesc::invariant(alloc).base == Variance::Invariant);
    Ok(())
}

#[test]
fn texts_and_lists_keep_what_they_are_given(rt: HostRuntime) -> Result<(), Fail> {
    let alloc = rt.alloc();
    let text = Text::new(alloc, "ab")?;
    assert!(rt; text.try_clone(alloc)?.as_str() == "ab");
    let mut list = Many::new(alloc);
    list.push(ShapeId(6))?;
    list.reserve(2)?;
    assert!(rt; list.spare() >= 2);
    assert!(rt; list.as_slice() == [ShapeId(6)].as_slice());
    Ok(())
}

// Writes a text in two parts.
fn write_abc<W: Write>(out: &mut W) -> Result<(), AllocError> {
    out.reserve(3)?;
    out.write(b"ab")?;
    out.write(b"c")
}

#[test]
fn outputs_append_what_is_written(rt: HostRuntime) -> Result<(), Fail> {
    let alloc = rt.alloc();
    let mut list = b"x".to_vec(alloc)?;
    write_abc(&mut list)?;
    assert_eq!(rt; list.as_slice(), b"xabc".as_slice());
    let mut bytes = BytesMut::new(alloc);
    write_abc(&mut bytes)?;
    assert_eq!(rt; bytes.as_slice(), b"abc".as_slice());
    Ok(())
}
