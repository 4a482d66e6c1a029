ghost use Rattle.std.specs.Prelude.{◌≡◌, ◌↔◌, ◌++◌, Any, IfOk, IsTrue, OnOk};
ghost use Rattle.facet_outline.specs.Discriminant.{AreOutsideRepr, HasDiscriminantOutside, IsOfRepr, discriminants, discriminants_of_kind, is_rust_repr, repr_of_kind, tag_width};

use crate::value_kind::ValueKind;
use facet_desc::{EnumRepr, Ty, UserType, Variant};
use std::alloc::AllocError;

/// Adds the discriminants of an enum's variants: where none is given, the index of the variant is one.
pub fn push_discriminants(variants: &[Variant], to: &mut Vec<i64>) -> Result<(), AllocError>
    ensures { OnOk result (to.new.items ≡ to.old.items ++ discriminants variants.now) }
{
    for (i, variant) in variants.iter().enumerate() {
        to.push(variant.discriminant.unwrap_or(i as i64))?;
    }
    Ok(())
}

/// Adds the discriminants of the values of a kind, which is an enum where there are any.
pub fn push_discriminants_of_kind(
    kind: ValueKind,
    ty: &Ty,
    to: &mut Vec<i64>,
) -> Result<(), AllocError>
    ensures { OnOk result (to.new.items ≡ to.old.items ++ discriminants_of_kind kind ty.now) }
{
    match (kind, ty) {
        (ValueKind::Enum, Ty::User(UserType::Enum(enum_type))) => {
            push_discriminants(enum_type.variants.as_slice(), to)
        }
        _ => Ok(()),
    }
}

/// How many bytes the tag of an enum takes.
pub fn tag_width(repr: EnumRepr) -> usize
    ensures { result ≡ tag_width repr }
{
    match repr {
        EnumRepr::Rust | EnumRepr::RustNPO | EnumRepr::U8 | EnumRepr::I8 => 1,
        EnumRepr::U16 | EnumRepr::I16 => 2,
        EnumRepr::U32 | EnumRepr::I32 => 4,
        EnumRepr::U64 | EnumRepr::I64 | EnumRepr::USize | EnumRepr::ISize => 8,
    }
}

/// Whether a discriminant is a number of the representation's type, which for Rust's own representations is `i64`.
pub fn is_of_repr(discriminant: i64, repr: EnumRepr) -> bool
    ensures { IsTrue result ↔ IsOfRepr repr discriminant }
{
    match repr {
        EnumRepr::U8 => 0 <= discriminant && discriminant < 256,
        EnumRepr::U16 => 0 <= discriminant && discriminant < 65_536,
        EnumRepr::U32 => 0 <= discriminant && discriminant < 4_294_967_296,
        EnumRepr::U64 | EnumRepr::USize => 0 <= discriminant,
        EnumRepr::I8 => -128 <= discriminant && discriminant < 128,
        EnumRepr::I16 => -32_768 <= discriminant && discriminant < 32_768,
        EnumRepr::I32 => -2_147_483_648 <= discriminant && discriminant < 2_147_483_648,
        EnumRepr::Rust | EnumRepr::RustNPO | EnumRepr::I64 | EnumRepr::ISize => true,
    }
}

/// Whether a discriminant of the values of a kind isn't of the representation's type, or an enum has more variants than
/// one byte can tell apart in a representation that Rust chooses. The buffer is written over.
pub fn has_discriminant_outside(
    kind: ValueKind,
    ty: &Ty,
    buffer: &mut Vec<i64>,
) -> Result<bool, AllocError>
    ensures { IfOk result (λ outside. IsTrue outside ↔ HasDiscriminantOutside kind ty.now) }
{
    buffer.clear();
    push_discriminants_of_kind(kind, ty, buffer)?;
    Ok(are_outside_repr(repr_of_kind(kind, ty), buffer))
}

// How the tag of the values of a kind is stored, as Rust chooses where there is none.
fn repr_of_kind(kind: ValueKind, ty: &Ty) -> EnumRepr
    ensures { result ≡ repr_of_kind kind ty.now }
{
    match (kind, ty) {
        (ValueKind::Enum, Ty::User(UserType::Enum(enum_type))) => enum_type.enum_repr,
        _ => EnumRepr::Rust,
    }
}

// Whether a discriminant isn't of the representation's type, or there are too many for one that Rust chooses.
fn are_outside_repr(repr: EnumRepr, discriminants: &[i64]) -> bool
    ensures { IsTrue result ↔ AreOutsideRepr repr discriminants.now }
{
    if one_is_outside(repr, discriminants) {
        return true;
    }
    is_rust_repr(repr) && discriminants.len() > 256
}

// Whether one of the discriminants isn't of the representation's type.
fn one_is_outside(repr: EnumRepr, discriminants: &[i64]) -> bool
    ensures { IsTrue result ↔ Any (λ z. ¬ IsOfRepr repr z) discriminants.now }
{
    discriminants.iter().any(|z| !is_of_repr(*z, repr))
}

// Whether the representation is one that Rust chooses.
fn is_rust_repr(repr: EnumRepr) -> bool
    ensures { result ≡ is_rust_repr repr }
{
    matches!(repr, EnumRepr::Rust | EnumRepr::RustNPO)
}
