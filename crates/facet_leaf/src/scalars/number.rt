ghost use Rattle.std.specs.Prelude.{◌≡◌};
ghost use Rattle.std.specs.Int.{complement_if};
ghost use Rattle.facet_leaf.specs.scalars.Scalar.{number_of, scalar_truthy};

use crate::scalars::scalar::Scalar;

// Whether a scalar is other than false, zero and the empty text.
pub(crate) fn is_truthy(leaf: &Scalar) -> bool
    ensures { result ≡ scalar_truthy leaf.now }
{
    match leaf {
        Scalar::String(text) => !text.as_str().is_empty(),
        _ => {
            let (is_negative, n) = read_number(leaf);
            is_negative || n != 0
        }
    }
}

// The number that a scalar is, as a flag and n, which stand for n, or for -1 - n where the flag is set.
pub(crate) fn read_number(leaf: &Scalar) -> (bool, u128)
    ensures { complement_if result.0 result.1 ≡ number_of leaf.now }
{
    match leaf {
        Scalar::Bool(b) => (false, u128::from(*b)),
        Scalar::Char(c) => (false, u128::from(*c)),
        Scalar::String(_) => (false, 0),
        Scalar::U8(n) => (false, u128::from(*n)),
        Scalar::U16(n) => (false, u128::from(*n)),
        Scalar::U32(n) => (false, u128::from(*n)),
        Scalar::U64(n) => (false, u128::from(*n)),
        Scalar::U128(n) => (false, *n),
        Scalar::USize(n) => (false, *n as u128),
        Scalar::I8(z) => split(i128::from(*z)),
        Scalar::I16(z) => split(i128::from(*z)),
        Scalar::I32(z) => split(i128::from(*z)),
        Scalar::I64(z) => split(i128::from(*z)),
        Scalar::I128(z) => split(*z),
        Scalar::ISize(z) => split(*z as i128),
    }
}

// A signed number in that form.
fn split(z: i128) -> (bool, u128)
    ensures { complement_if result.0 result.1 ≡ z }
{
    if z < 0 {
        (true, (-1 - z) as u128)
    } else {
        (false, z as u128)
    }
}
