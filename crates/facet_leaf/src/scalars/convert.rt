ghost use Rattle.std.specs.Prelude.{◌≡◌, None, negsuc, pos, if◌then◌else◌};
ghost use Rattle.facet_leaf.specs.scalars.Scalar.{has_negative, scalar_converted, signed_of, whole_of};

use crate::conversion::Conversion;
use crate::scalars::kinds::{is_whole_kind, scalar_kind_of};
use crate::scalars::number::read_number;
use crate::scalars::scalar::Scalar;
use facet_base::ScalarType;

// What a scalar becomes in a kind.
pub(crate) fn convert_scalar(kind: ScalarType, from: Scalar) -> Conversion<Scalar>
    ensures { result ≡ scalar_converted kind from }
{
    if !is_whole_kind(scalar_kind_of(&from)) {
        return Conversion::Unsupported(from);
    }
    let whole = match read_number(&from) {
        (false, n) => whole_at_least_zero(kind, n),
        (true, n) => whole_below_zero(kind, n),
    };
    match whole {
        Some(leaf) => Conversion::Converted(leaf),
        None => Conversion::Failed(from),
    }
}

// The whole number n of a kind, where there is one.
pub(crate) fn whole_at_least_zero(kind: ScalarType, n: u128) -> Option<Scalar>
    ensures { result ≡ whole_of kind (pos n) }
{
    match kind {
        ScalarType::U8 => Some(Scalar::U8(u8::try_from(n).ok()?)),
        ScalarType::U16 => Some(Scalar::U16(u16::try_from(n).ok()?)),
        ScalarType::U32 => Some(Scalar::U32(u32::try_from(n).ok()?)),
        ScalarType::U64 => Some(Scalar::U64(u64::try_from(n).ok()?)),
        ScalarType::U128 => Some(Scalar::U128(n)),
        ScalarType::USize => Some(Scalar::USize(usize::try_from(n).ok()?)),
        ScalarType::I8 => Some(Scalar::I8(i8::try_from(n).ok()?)),
        ScalarType::I16 => Some(Scalar::I16(i16::try_from(n).ok()?)),
        ScalarType::I32 => Some(Scalar::I32(i32::try_from(n).ok()?)),
        ScalarType::I64 => Some(Scalar::I64(i64::try_from(n).ok()?)),
        ScalarType::I128 => Some(Scalar::I128(i128::try_from(n).ok()?)),
        ScalarType::ISize => Some(Scalar::ISize(isize::try_from(n).ok()?)),
        _ => None,
    }
}

// The whole number -1 - n of a kind, where there is one.
fn whole_below_zero(kind: ScalarType, n: u128) -> Option<Scalar>
    ensures { result ≡ whole_of kind (negsuc n) }
{
    let number = complement(n)?;
    signed_whole(kind, number)
}

// The number -1 - n, where an i128 has it.
fn complement(n: u128) -> Option<i128>
    ensures { result ≡ signed_of 127 (negsuc n) }
{
    Some(-1 - i128::try_from(n).ok()?)
}

// The whole number z of a kind that has numbers below zero, where there is one.
pub(crate) fn signed_whole(kind: ScalarType, z: i128) -> Option<Scalar>
    ensures { result ≡ (if has_negative kind then whole_of kind z else None) }
{
    match kind {
        ScalarType::I8 => Some(Scalar::I8(i8::try_from(z).ok()?)),
        ScalarType::I16 => Some(Scalar::I16(i16::try_from(z).ok()?)),
        ScalarType::I32 => Some(Scalar::I32(i32::try_from(z).ok()?)),
        ScalarType::I64 => Some(Scalar::I64(i64::try_from(z).ok()?)),
        ScalarType::I128 => Some(Scalar::I128(z)),
        ScalarType::ISize => Some(Scalar::ISize(isize::try_from(z).ok()?)),
        _ => None,
    }
}
