ghost use Rattle.std.specs.Prelude.{◌≡◌, ◌<◌, IfSome, Some, length, option_map, true};
ghost use Rattle.facet_causes.specs.Causes.{IsWellFormed};
ghost use Rattle.facet_compare.specs.Leaves.{IsOfLeaves};
ghost use Rattle.facet_compare.specs.Walks.{HaveSameShapes, ordering_of_places, which_of};
ghost use Rattle.facet_leaf.specs.LeafLaws.{Have};
ghost use Rattle.facet_registry.specs.Registry.{offers};
ghost use Rattle.facet_trees.specs.Order.{by_partial, by_total, capability_of, order_of_leaves, ordering};
ghost use Rattle.facet_trees.specs.Value.{Value};
ghost use Rattle.facet_values.specs.Reading.{IsReadable, IsReadableWithin, Reads, value_at};
ghost use Rattle.facet_walk.specs.Look.{AreReadable, place_of, places_of, pointed};

use crate::answered::is_answered;
use crate::leaves::leaves_among;
use crate::look::see_value;
use crate::ranks::rank_of;
use facet_base::{Characteristic, ShapeId};
use facet_block::PtrConst;
use facet_leaf::Leaf;
use facet_registry::Shapes;
use facet_walk::{MAX_LEVELS, Parts, Place, Seen};
use std::cmp::Ordering;

/// How the values at two places are ordered by the partial order: Some(None) where they are unordered, and None where
/// their shape, or that of a part that is asked, has no such order. Requires that the shape is sealed and both places
/// hold a value of it.
pub fn call_partial_cmp<L: Leaf>(
    shapes: &Shapes<L>,
    s: ShapeId,
    a: PtrConst<L>,
    b: PtrConst<L>,
) -> Option<Option<Ordering>>
    requires sealed { s.0 < length shapes.now.sealed }
    requires first { IsReadable L.model shapes.now.sealed (pointed s a) }
    requires second { IsReadable L.model shapes.now.sealed (pointed s b) }
    ensures values { (v w : Value L) → Reads L.model shapes.now.sealed (pointed s a.entry) v → Reads L.model shapes.now.sealed (pointed s b.entry) w
        → result ≡ ordering L.model shapes.now.sealed by_partial s.0 v w }
    ensures found { result ≡ ordering L.model shapes.now.sealed by_partial s.0
        (value_at shapes.now.sealed 100 (pointed s a.entry)) (value_at shapes.now.sealed 100 (pointed s b.entry)) }
{
    // proof: no sealed shape meets a cause
    let _sealed = shapes.sealed();
    let a = Place { shape: s, at: a };
    let b = Place { shape: s, at: b };
    order_at(shapes, Which::Partial, None, a, b, MAX_LEVELS)
}

/// How the values at two places are ordered by the total order, and None where their shape, or that of a part that is
/// asked, has none. Requires that the shape is sealed and both places hold a value of it.
pub fn call_cmp<L: Leaf>(
    shapes: &Shapes<L>,
    s: ShapeId,
    a: PtrConst<L>,
    b: PtrConst<L>,
) -> Option<Ordering>
    requires sealed { s.0 < length shapes.now.sealed }
    requires first { IsReadable L.model shapes.now.sealed (pointed s a) }
    requires second { IsReadable L.model shapes.now.sealed (pointed s b) }
    ensures values { (v w : Value L) → Reads L.model shapes.now.sealed (pointed s a.entry) v → Reads L.model shapes.now.sealed (pointed s b.entry) w
        → option_map Some result ≡ ordering L.model shapes.now.sealed by_total s.0 v w }
    ensures found { option_map Some result ≡ ordering L.model shapes.now.sealed by_total s.0
        (value_at shapes.now.sealed 100 (pointed s a.entry)) (value_at shapes.now.sealed 100 (pointed s b.entry)) }
{
    // proof: no sealed shape meets a cause
    let _sealed = shapes.sealed();
    let a = Place { shape: s, at: a };
    let b = Place { shape: s, at: b };
    match order_at(shapes, Which::Total, None, a, b, MAX_LEVELS) {
        Some(Some(order)) => Some(order),
        Some(None) => unreachable!(),
        None => None,
    }
}

/// Which of the two orders is asked for.
#[derive(Clone, Copy)]
pub enum Which {
    Partial,
    Total,
}

// The capability that is asked for.
fn capability_of(which: Which) -> Characteristic
    ensures { result ≡ capability_of (which_of which) }
{
    match which {
        Which::Partial => Characteristic::PartialOrd,
        Which::Total => Characteristic::Ord,
    }
}

// How two leaves of one kind are ordered, where they are.
fn order_of_leaves<L: Leaf>(which: Which, x: &L, y: &L) -> Option<Ordering>
    requires { Have L.model (capability_of (which_of which)) x.now y.now }
    ensures { result ≡ order_of_leaves L.model (which_of which) x.now y.now }
{
    match which {
        Which::Partial => x.partial_order(y),
        Which::Total => Some(x.order(y)),
    }
}

// How the values at two places of one shape are ordered, without a look at the shape where it is the given one, whose leaves
// have the order.
#[cycle(order)]
fn order_at<L: Leaf>(
    shapes: &Shapes<L>,
    which: Which,
    leaves: Option<ShapeId>,
    a: Place<L>,
    b: Place<L>,
    levels: u32,
) -> Option<Option<Ordering>>
    requires well_formed { IsWellFormed L.model shapes.now.sealed }
    requires sealed { a.shape.0 < length shapes.now.sealed }
    requires first { IsReadableWithin L.model shapes.now.sealed levels (place_of a) }
    requires second { IsReadableWithin L.model shapes.now.sealed levels (place_of b) }
    requires same { a.shape ≡ b.shape }
    requires leaves { IfSome leaves (λ known. IsOfLeaves shapes.now.sealed known.0) }
    requires offered { IfSome leaves (λ known. offers shapes.now.sealed known.0 (capability_of (which_of which)) ≡ true) }
    ensures { result ≡ ordering L.model shapes.now.sealed (which_of which) a.entry.shape.0
        (value_at shapes.now.sealed levels (place_of a.entry)) (value_at shapes.now.sealed levels (place_of b.entry)) }
{
    if !is_answered(shapes, leaves, a.shape, capability_of(which)) {
        return None;
    }
    match (see_value(shapes, leaves, a), see_value(shapes, leaves, b)) {
        (Seen::Leaf(x), Seen::Leaf(y)) => Some(order_of_leaves(which, x, y)),
        (Seen::Node(form, xs), Seen::Node(other, ys)) => {
            let ours = rank_of(shapes, a.shape, form);
            let theirs = rank_of(shapes, a.shape, other);
            match ours.cmp(&theirs) {
                Ordering::Less => Some(Some(Ordering::Less)),
                Ordering::Greater => Some(Some(Ordering::Greater)),
                Ordering::Equal => order_parts(shapes, which, xs, ys, levels - 1),
            }
        }
        (Seen::Leaf(_), Seen::Node(_, _)) => Some(Some(Ordering::Less)),
        (Seen::Node(_, _), Seen::Leaf(_)) => Some(Some(Ordering::Greater)),
    }
}

// How the values at the places of two lists are ordered, pair by pair: as the first two that aren't equal, and else the shorter list is less.
#[cycle(order)]
fn order_parts<L: Leaf>(
    shapes: &Shapes<L>,
    which: Which,
    a: Parts<L>,
    b: Parts<L>,
    levels: u32,
) -> Option<Option<Ordering>>
    requires well_formed { IsWellFormed L.model shapes.now.sealed }
    requires first { AreReadable L.model shapes.now.sealed levels (places_of a) }
    requires second { AreReadable L.model shapes.now.sealed levels (places_of b) }
    requires same { HaveSameShapes (places_of a) (places_of b) }
    ensures { result ≡ ordering_of_places L.model shapes.now.sealed (which_of which) levels (places_of a.entry) (places_of b.entry) }
{
    let leaves = leaves_among(shapes, a, capability_of(which), levels);
    let others = b.len();
    for i in 0..a.len() {
        if others <= i {
            return Some(Some(Ordering::Greater));
        }
        match order_at(shapes, which, leaves, a.part(i), b.part(i), levels) {
            Some(Some(Ordering::Equal)) => {}
            Some(Some(Ordering::Less)) => return Some(Some(Ordering::Less)),
            Some(Some(Ordering::Greater)) => return Some(Some(Ordering::Greater)),
            Some(None) => return Some(None),
            None => return None,
        }
    }
    if a.len() < others {
        return Some(Some(Ordering::Less));
    }
    Some(Some(Ordering::Equal))
}
