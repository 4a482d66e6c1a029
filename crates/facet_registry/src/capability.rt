ghost use Rattle.std.specs.Prelude.{◌≡◌, ◌<◌, length, not};
ghost use Rattle.std.specs.List.{list_all, list_any};
ghost use Rattle.facet_registry.specs.Registry.{all_shapes, offers};

use crate::reading::offers;
use crate::registry::Shapes;
use facet_base::{Characteristic, ShapeId};
use facet_leaf::Leaf;

impl<L: Leaf> Shapes<L> {
    /// Whether the values of a shape can do that, as its record of capabilities says. Without a shape under the
    /// id nothing can be done.
    pub fn offers(&self, id: ShapeId, c: Characteristic) -> bool
        ensures can { result ≡ offers (all_shapes self.now) id.0 c }
        ensures sealed { id.0 < length self.now.sealed → result ≡ offers self.now.sealed id.0 c }
    {
        offers(self.all_shapes(), id, c)
    }
}

/// Whether the values of each shape can do that. Where there is no shape under an id, nothing can be done.
pub fn all<L: Leaf>(shapes: &Shapes<L>, c: Characteristic, ids: &[ShapeId]) -> bool
    ensures { result ≡ list_all (λ id. offers (all_shapes shapes.now) id.0 c) ids.now }
{
    for id in ids {
        if !shapes.offers(*id, c) {
            return false;
        }
    }
    true
}

/// Whether the values of one of the shapes can do that.
pub fn any<L: Leaf>(shapes: &Shapes<L>, c: Characteristic, ids: &[ShapeId]) -> bool
    ensures { result ≡ list_any (λ id. offers (all_shapes shapes.now) id.0 c) ids.now }
{
    for id in ids {
        if shapes.offers(*id, c) {
            return true;
        }
    }
    false
}

/// Whether the values of none of the shapes can do that.
pub fn none<L: Leaf>(shapes: &Shapes<L>, c: Characteristic, ids: &[ShapeId]) -> bool
    ensures { result ≡ not (list_any (λ id. offers (all_shapes shapes.now) id.0 c) ids.now) }
{
    !any(shapes, c, ids)
}

/// Whether the values of each shape have a default.
pub fn all_default<L: Leaf>(shapes: &Shapes<L>, ids: &[ShapeId]) -> bool
    ensures { result ≡ list_all (λ id. offers (all_shapes shapes.now) id.0 Characteristic.Default) ids.now }
{
    all(shapes, Characteristic::Default, ids)
}

/// Whether the values of each shape have an equality.
pub fn all_partial_eq<L: Leaf>(shapes: &Shapes<L>, ids: &[ShapeId]) -> bool
    ensures { result ≡ list_all (λ id. offers (all_shapes shapes.now) id.0 Characteristic.PartialEq) ids.now }
{
    all(shapes, Characteristic::PartialEq, ids)
}

/// Whether the values of each shape have a partial order.
pub fn all_partial_ord<L: Leaf>(shapes: &Shapes<L>, ids: &[ShapeId]) -> bool
    ensures { result ≡ list_all (λ id. offers (all_shapes shapes.now) id.0 Characteristic.PartialOrd) ids.now }
{
    all(shapes, Characteristic::PartialOrd, ids)
}

/// Whether the values of each shape have a total order.
pub fn all_ord<L: Leaf>(shapes: &Shapes<L>, ids: &[ShapeId]) -> bool
    ensures { result ≡ list_all (λ id. offers (all_shapes shapes.now) id.0 Characteristic.Ord) ids.now }
{
    all(shapes, Characteristic::Ord, ids)
}

/// Whether the values of each shape can be hashed.
pub fn all_hash<L: Leaf>(shapes: &Shapes<L>, ids: &[ShapeId]) -> bool
    ensures { result ≡ list_all (λ id. offers (all_shapes shapes.now) id.0 Characteristic.Hash) ids.now }
{
    all(shapes, Characteristic::Hash, ids)
}
