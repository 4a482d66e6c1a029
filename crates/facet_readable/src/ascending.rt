ghost use Rattle.std.specs.Prelude.{◌≡◌, ◌↔◌, ◌<◌, IsSomeAnd, IsTrue, Some, length, slice_get};
ghost use Rattle.facet_causes.specs.Causes.{IsWellFormed};
ghost use Rattle.facet_readable.specs.KeyPlaces.{AreSeen, HoldsLess, key_places};
ghost use Rattle.facet_trees.specs.Ascending.{IsInOrder};
ghost use Rattle.facet_trees.specs.Structure.{structure_at};
ghost use Rattle.facet_values.specs.Place as values;
ghost use Rattle.facet_values.specs.Reading.{IsReadable, value_at, values_by};
ghost use Rattle.facet_values.specs.Seen.{a_node, seen};
ghost use Rattle.facet_walk.specs.Look.{AreReadable, IsInside, place_of, places_of};

use facet_compare::call_cmp;
use facet_leaf::Leaf;
use facet_registry::Shapes;
use facet_trees::Form;
use facet_walk::{Parts, Place};
use std::cmp::Ordering;

/// Whether the keys of a map or the items of a set ascend, of which these are the parts. Of all other forms true.
pub(crate) fn is_in_order<L: Leaf>(shapes: &Shapes<L>, form: Form, parts: Parts<L>) -> bool
    requires well_formed { IsWellFormed L.model shapes.now.sealed }
    requires seen { AreSeen shapes.now.sealed form (places_of parts) }
    requires readable { AreReadable L.model shapes.now.sealed 100 (places_of parts) }
    ensures { (p : values.Place L) → a_node form (places_of parts.entry) ≡ seen shapes.now.sealed p
        → (IsTrue result ↔ IsInOrder L.model shapes.now.sealed (structure_at shapes.now.sealed p.shape) (values_by (value_at shapes.now.sealed 100) (places_of parts.entry))) }
{
    for i in 1..key_count(form, parts) {
        if !is_less(shapes, key_at(form, parts, i - 1), key_at(form, parts, i)) {
            return false;
        }
    }
    true
}

// The number of keys of a map or of items of a set, and else 0.
fn key_count<L>(form: Form, parts: Parts<L>) -> u128
    ensures { result ≡ length (key_places form (places_of parts.entry)) }
{
    match form {
        Form::Map => parts.len().div_ceil(2),
        Form::Set => parts.len(),
        _ => 0,
    }
}

// The place of key or item `i`.
fn key_at<'a, L>(form: Form, parts: Parts<'a, L>, i: u128) -> Place<'a, L>
    requires { IsSomeAnd (slice_get (key_places form (places_of parts)) i) IsInside }
    ensures { slice_get (key_places form (places_of parts.entry)) i ≡ Some (place_of result) }
{
    // proof: the number of parts is a u128, and so is twice the index of a key
    let _count = parts.len();
    match form {
        Form::Map => parts.part(2 * i),
        Form::Set => parts.part(i),
        _ => unreachable!(),
    }
}

// Whether the value at a place is less than that at another of the same shape.
fn is_less<L: Leaf>(shapes: &Shapes<L>, a: Place<L>, b: Place<L>) -> bool
    requires sealed { a.shape.0 < length shapes.now.sealed }
    requires first { IsReadable L.model shapes.now.sealed (place_of a) }
    requires second { IsReadable L.model shapes.now.sealed (place_of b) }
    requires same { a.shape.0 ≡ b.shape.0 }
    ensures { IsTrue result ↔ HoldsLess L.model shapes.now.sealed (place_of a.entry) (place_of b.entry) }
{
    match call_cmp(shapes, a.shape, a.at, b.at) {
        Some(Ordering::Less) => true,
        Some(Ordering::Equal) => false,
        Some(Ordering::Greater) => false,
        None => false,
    }
}
