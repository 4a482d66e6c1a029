ghost use Rattle.std.specs.Prelude.{◌≡◌, IfSome, Some, true};
ghost use Rattle.std.specs.Bool.{OnTrue};
ghost use Rattle.facet_compare.specs.Leaves.{IsOfLeaves};
ghost use Rattle.facet_registry.specs.Registry.{offers};
ghost use Rattle.facet_walk.specs.Look.{AreReadable, places_of};

use facet_base::{Characteristic, ShapeId};
use facet_leaf::Leaf;
use facet_registry::{Shapes, ValueKind};
use facet_walk::Parts;

/// The shape of the first of some parts, if its values are leaves that have a capability. A walk looks at it once, and
/// then reads the leaves of all parts of this shape without another look.
pub(crate) fn leaves_among<L: Leaf>(
    shapes: &Shapes<L>,
    parts: Parts<L>,
    c: Characteristic,
    levels: u32,
) -> Option<ShapeId>
    requires { AreReadable L.model shapes.now.sealed levels (places_of parts) }
    ensures leaves { IfSome result (λ id. IsOfLeaves shapes.now.sealed id.0) }
    ensures offered { IfSome result (λ id. offers shapes.now.sealed id.0 c ≡ true) }
{
    if parts.len() == 0 {
        return None;
    }
    let id = parts.part(0).shape;
    match shapes.kind_of(id) {
        ValueKind::Leaf(_) if shapes.offers(id, c) => Some(id),
        _ => None,
    }
}

/// Whether a shape is the one that was looked at.
pub(crate) fn is_known(leaves: Option<ShapeId>, id: ShapeId) -> bool
    ensures { OnTrue result (leaves ≡ Some id) }
{
    match leaves {
        Some(known) => known.0 == id.0,
        None => false,
    }
}
