ghost use Rattle.std.specs.Prelude.{◌≡◌, bytes_eq};
ghost use Rattle.std.specs.Ordering.{int_cmp, int_eq};
ghost use Rattle.facet_leaf.specs.scalars.Scalar.{bytes_of, number_of, same_value, scalar_kind, scalar_order, scalar_same};

use crate::scalars::number::read_number;
use crate::scalars::scalar::Scalar;
use std::cmp::Ordering;

// Whether two scalars of one kind are equal.
pub(crate) fn same_scalars(a: &Scalar, b: &Scalar) -> bool
    requires { scalar_kind a.now ≡ scalar_kind b.now }
    ensures { result ≡ scalar_same a.now b.now }
{
    same_values(a, b)
}

// Whether two scalars of one kind have the same number and the same text.
fn same_values(a: &Scalar, b: &Scalar) -> bool
    requires { scalar_kind a.now ≡ scalar_kind b.now }
    ensures { result ≡ same_value a.now b.now }
{
    same_numbers(a, b) && same_texts(a, b)
}

// How two scalars of one kind are ordered.
pub(crate) fn order_scalars(a: &Scalar, b: &Scalar) -> Ordering
    requires { scalar_kind a.now ≡ scalar_kind b.now }
    ensures { result ≡ scalar_order a.now b.now }
{
    match order_numbers(a, b) {
        Ordering::Equal => text_of(a).cmp(text_of(b)),
        unequal => unequal,
    }
}

fn same_numbers(a: &Scalar, b: &Scalar) -> bool
    ensures { result ≡ int_eq (number_of a.now) (number_of b.now) }
{
    let (a_negative, n) = read_number(a);
    let (b_negative, m) = read_number(b);
    a_negative == b_negative && n == m
}

fn order_numbers(a: &Scalar, b: &Scalar) -> Ordering
    ensures { result ≡ int_cmp (number_of a.now) (number_of b.now) }
{
    let (a_negative, n) = read_number(a);
    let (b_negative, m) = read_number(b);
    match (a_negative, b_negative) {
        (false, false) => n.cmp(&m),
        (false, true) => Ordering::Greater,
        (true, false) => Ordering::Less,
        (true, true) => m.cmp(&n),
    }
}

fn same_texts(a: &Scalar, b: &Scalar) -> bool
    requires { scalar_kind a.now ≡ scalar_kind b.now }
    ensures { result ≡ bytes_eq (bytes_of a.now) (bytes_of b.now) }
{
    match (a, b) {
        (Scalar::String(a), Scalar::String(b)) => a.is_same(b),
        _ => true,
    }
}

// The text of a String, and of another scalar the empty one.
fn text_of(leaf: &Scalar) -> &str
    ensures { result.now ≡ bytes_of leaf.now }
{
    match leaf {
        Scalar::String(text) => text.as_str(),
        _ => "",
    }
}
