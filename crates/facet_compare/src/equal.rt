ghost use Rattle.std.specs.Prelude.{◌≡◌, ◌<◌, IfSome, length, true};
ghost use Rattle.facet_base.specs.declared.characteristic.Characteristic.TheVariants as trait;
ghost use Rattle.facet_causes.specs.Causes.{IsWellFormed};
ghost use Rattle.facet_compare.specs.Leaves.{IsOfLeaves};
ghost use Rattle.facet_compare.specs.Walks.{equality_of_places, HaveSameShapes};
ghost use Rattle.facet_registry.specs.Registry.{offers};
ghost use Rattle.facet_trees.specs.Equal.{equality};
ghost use Rattle.facet_trees.specs.Value.{Value};
ghost use Rattle.facet_values.specs.Reading.{IsReadable, IsReadableWithin, Reads, value_at};
ghost use Rattle.facet_walk.specs.Look.{AreReadable, place_of, places_of, pointed};

use crate::answered::is_answered;
use crate::leaves::leaves_among;
use crate::look::see_value;
use crate::ranks::rank_of;
use facet_base::{Characteristic, ShapeId};
use facet_block::PtrConst;
use facet_leaf::Leaf;
use facet_registry::Shapes;
use facet_walk::{MAX_LEVELS, Parts, Place, Seen};

/// Whether the values at two places are equal, and None where their shape, or that of a part that is asked, has no
/// equality. Requires that the shape is sealed and both places hold a value of it.
pub fn call_partial_eq<L: Leaf>(
    shapes: &Shapes<L>,
    s: ShapeId,
    a: PtrConst<L>,
    b: PtrConst<L>,
) -> Option<bool>
    requires sealed { s.0 < length shapes.now.sealed }
    requires first { IsReadable L.model shapes.now.sealed (pointed s a) }
    requires second { IsReadable L.model shapes.now.sealed (pointed s b) }
    ensures values { (v w : Value L) → Reads L.model shapes.now.sealed (pointed s a.entry) v → Reads L.model shapes.now.sealed (pointed s b.entry) w
        → result ≡ equality L.model shapes.now.sealed s.0 v w }
    ensures found { result ≡ equality L.model shapes.now.sealed s.0
        (value_at shapes.now.sealed 100 (pointed s a.entry)) (value_at shapes.now.sealed 100 (pointed s b.entry)) }
{
    // proof: no sealed shape meets a cause
    let _sealed = shapes.sealed();
    let a = Place { shape: s, at: a };
    let b = Place { shape: s, at: b };
    equal_at(shapes, None, a, b, MAX_LEVELS)
}

// Whether the values at two places of one shape are equal, without a look at the shape where it is the given one, whose
// leaves have equality.
#[cycle(equal)]
fn equal_at<L: Leaf>(
    shapes: &Shapes<L>,
    leaves: Option<ShapeId>,
    a: Place<L>,
    b: Place<L>,
    levels: u32,
) -> Option<bool>
    requires well_formed { IsWellFormed L.model shapes.now.sealed }
    requires sealed { a.shape.0 < length shapes.now.sealed }
    requires first { IsReadableWithin L.model shapes.now.sealed levels (place_of a) }
    requires second { IsReadableWithin L.model shapes.now.sealed levels (place_of b) }
    requires same { a.shape ≡ b.shape }
    requires leaves { IfSome leaves (λ known. IsOfLeaves shapes.now.sealed known.0) }
    requires offered { IfSome leaves (λ known. offers shapes.now.sealed known.0 trait.PartialEq ≡ true) }
    ensures { result ≡ equality L.model shapes.now.sealed a.entry.shape.0
        (value_at shapes.now.sealed levels (place_of a.entry)) (value_at shapes.now.sealed levels (place_of b.entry)) }
{
    if !is_answered(shapes, leaves, a.shape, Characteristic::PartialEq) {
        return None;
    }
    match (see_value(shapes, leaves, a), see_value(shapes, leaves, b)) {
        (Seen::Leaf(x), Seen::Leaf(y)) => Some(x.same(y)),
        (Seen::Node(form, xs), Seen::Node(other, ys)) => {
            let ours = rank_of(shapes, a.shape, form);
            let theirs = rank_of(shapes, a.shape, other);
            if ours != theirs {
                return Some(false);
            }
            if xs.len() != ys.len() {
                return Some(false);
            }
            equal_parts(shapes, xs, ys, levels - 1)
        }
        (Seen::Leaf(_), Seen::Node(_, _)) => Some(false),
        (Seen::Node(_, _), Seen::Leaf(_)) => Some(false),
    }
}

// Whether the values at the places of two lists are equal, pair by pair, up to the first two that aren't, or that have no answer.
#[cycle(equal)]
fn equal_parts<L: Leaf>(shapes: &Shapes<L>, a: Parts<L>, b: Parts<L>, levels: u32) -> Option<bool>
    requires well_formed { IsWellFormed L.model shapes.now.sealed }
    requires first { AreReadable L.model shapes.now.sealed levels (places_of a) }
    requires second { AreReadable L.model shapes.now.sealed levels (places_of b) }
    requires same { HaveSameShapes (places_of a) (places_of b) }
    requires long { length (places_of a) ≡ length (places_of b) }
    ensures { result ≡ equality_of_places L.model shapes.now.sealed levels (places_of a.entry) (places_of b.entry) }
{
    let leaves = leaves_among(shapes, a, Characteristic::PartialEq, levels);
    for i in 0..a.len() {
        match equal_at(shapes, leaves, a.part(i), b.part(i), levels) {
            Some(true) => {}
            Some(false) => return Some(false),
            None => return None,
        }
    }
    Some(true)
}
