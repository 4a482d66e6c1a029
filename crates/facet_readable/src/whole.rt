ghost use Rattle.std.specs.Prelude.{◌≡◌, ◌↔◌, ◌+◌, ◌<◌, ◌≤◌, IfSome, IsTrue, length};
ghost use Rattle.facet_block.specs.Block.{item_at, leaf_of, size_of};
ghost use Rattle.facet_trees.specs.Structure.{structure_at};
ghost use Rattle.facet_values.specs.Place.{own_item};
ghost use Rattle.facet_values.specs.Reading.{IsItemOf, IsWhole};
ghost use Rattle.facet_walk.specs.Look.{place_of};

use crate::alone::is_alone;
use crate::blocks::{element_layout, has_blocks, map_layout};
use facet_base::ScalarType;
use facet_block::{ItemKind, PtrConst};
use facet_leaf::Leaf;
use facet_registry::{Shapes, ValueKind};
use facet_trees::Form;
use facet_walk::{Place, element_in, pointed_elements, sealed_shape};

/// Whether the range of a place lies in its block and holds nothing but what a value of the shape has there: its own
/// item, which is one of a value, and the parts.
pub(crate) fn is_whole<L: Leaf>(shapes: &Shapes<L>, place: Place<L>) -> bool
    requires sealed { place.shape.0 < length shapes.now.sealed }
    ensures { IsTrue result ↔ IsWhole L.model shapes.now.sealed (place_of place.entry) }
{
    let size = shapes.size_of(place.shape);
    if !lies_in_block(place.at, size) {
        return false;
    }
    if !is_alone(shapes, place, size) {
        return false;
    }
    has_item_of_value(shapes, place)
}

// Whether so many bytes from a place on lie in its block.
fn lies_in_block<L>(at: PtrConst<L>, size: usize) -> bool
    ensures { IsTrue result ↔ at.entry.offset + size ≤ size_of at.entry.block.now }
{
    let end = at.block.size();
    if end < at.offset {
        return false;
    }
    size <= end - at.offset
}

// Whether a value of the shape may begin with the item at a place.
fn has_item_of_value<L: Leaf>(shapes: &Shapes<L>, place: Place<L>) -> bool
    requires { place.shape.0 < length shapes.now.sealed }
    ensures { IsTrue result ↔ IsItemOf L.model shapes.now.sealed (structure_at shapes.now.sealed place.entry.shape.0) (own_item (place_of place.entry)) }
{
    // proof: what a sealed shape refers to is sealed
    let _sealed = shapes.sealed();
    let def = &sealed_shape(shapes, place.shape).def;
    match shapes.kind_of(place.shape) {
        ValueKind::Leaf(kind) => has_leaf_of(place.at, kind),
        ValueKind::List => {
            has_blocks(
                place.at,
                Form::List,
                element_layout(shapes, element_in(def)),
            )
        }
        ValueKind::Set => {
            has_blocks(place.at, Form::Set, element_layout(shapes, element_in(def)))
        }
        ValueKind::Box => {
            has_blocks(place.at, Form::Box, element_layout(shapes, element_in(def)))
        }
        ValueKind::BoxedSlice => {
            has_blocks(
                place.at,
                Form::BoxedSlice,
                element_layout(shapes, pointed_elements(shapes, def)),
            )
        }
        ValueKind::Map => has_blocks(place.at, Form::Map, map_layout(shapes, def)),
        ValueKind::NoValue
        | ValueKind::Unit
        | ValueKind::Struct
        | ValueKind::Array
        | ValueKind::Enum
        | ValueKind::Option
        | ValueKind::Result => true,
    }
}

// Whether the leaf at a place, where there is one, is of a kind.
fn has_leaf_of<L: Leaf>(at: PtrConst<L>, kind: ScalarType) -> bool
    ensures { IsTrue result ↔ IfSome (leaf_of (item_at at.entry.block.now at.entry.offset)) (λ x. L.model.kind x ≡ kind) }
{
    match at.block.item_at(at.offset) {
        ItemKind::Leaf => at.get().kind() == kind,
        ItemKind::Nothing | ItemKind::Tag | ItemKind::Sequence => true,
    }
}
