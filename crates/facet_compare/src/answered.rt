ghost use Rattle.std.specs.Prelude.{◌≡◌, ◌<◌, All, IfSome, length, true};
ghost use Rattle.std.specs.List.{list_all};
ghost use Rattle.std.specs.Option.{option_to_list};
ghost use Rattle.facet_compare.specs.Leaves.{IsOfLeaves};
ghost use Rattle.facet_registry.specs.Registry.{offers};
ghost use Rattle.facet_trees.specs.Answered.{is_answered};

use crate::leaves::is_known;
use facet_base::{Characteristic, ShapeId};
use facet_leaf::Leaf;
use facet_registry::{Shapes, ValueKind};
use facet_walk::{element_in, pointed_elements, sealed_shape};

/// Whether a comparison of two values of a sealed shape has an answer, as far as can be told before their parts are
/// looked at. It has one where the shape is the given one, whose leaves have the capability.
pub(crate) fn is_answered<L: Leaf>(
    shapes: &Shapes<L>,
    leaves: Option<ShapeId>,
    id: ShapeId,
    c: Characteristic,
) -> bool
    requires sealed { id.0 < length shapes.now.sealed }
    requires leaves { IfSome leaves (λ known. IsOfLeaves shapes.now.sealed known.0) }
    requires offered { IfSome leaves (λ known. offers shapes.now.sealed known.0 c ≡ true) }
    ensures { result ≡ is_answered shapes.now.sealed c id.0 }
{
    is_known(leaves, id) || is_answered_by_kind(shapes, id, c)
}

// The same by the kind of the shape.
fn is_answered_by_kind<L: Leaf>(shapes: &Shapes<L>, id: ShapeId, c: Characteristic) -> bool
    requires { id.0 < length shapes.now.sealed }
    ensures { result ≡ is_answered shapes.now.sealed c id.0 }
{
    // proof: what a sealed shape refers to is sealed
    let _sealed = shapes.sealed();
    if !shapes.offers(id, c) {
        return false;
    }
    let def = &sealed_shape(shapes, id).def;
    match shapes.kind_of(id) {
        ValueKind::NoValue | ValueKind::Map | ValueKind::Set => false,
        ValueKind::List => element_offers(shapes, element_in(def), c),
        ValueKind::BoxedSlice => element_offers(shapes, pointed_elements(shapes, def), c),
        ValueKind::Unit
        | ValueKind::Leaf(_)
        | ValueKind::Struct
        | ValueKind::Array
        | ValueKind::Enum
        | ValueKind::Option
        | ValueKind::Result
        | ValueKind::Box => true,
    }
}

// Whether the elements can do that.
fn element_offers<L: Leaf>(shapes: &Shapes<L>, element: Option<ShapeId>, c: Characteristic) -> bool
    requires { All (λ id. id.0 < length shapes.now.sealed) (option_to_list element) }
    ensures { result ≡ list_all (λ id. offers shapes.now.sealed id.0 c) (option_to_list element) }
{
    match element {
        Some(id) => shapes.offers(id, c),
        None => true,
    }
}
