ghost use Rattle.std.specs.Prelude.{◌≡◌, ◌<◌, [], length};
ghost use Rattle.std.specs.Option.{option_map_or};
ghost use Rattle.facet_causes.specs.Arrangement.{single};
ghost use Rattle.facet_drop.specs.Makeup.{block_body_at, held_in, makeup_of, makeup_of_kind};
ghost use Rattle.facet_trees.specs.Structure.{structure_at};
ghost use Rattle.facet_walk.specs.Look.{pair_in};

use facet_base::ShapeId;
use facet_def::Def;
use facet_leaf::Leaf;
use facet_registry::{Shapes, ValueKind};
use facet_walk::{element_in, pointed_elements, sealed_shape};

/// How the values of a shape are made up.
#[derive(Clone, Copy, PartialEq, Eq, Debug)]
pub(crate) enum Makeup {
    /// There are none.
    NoValues,
    /// A leaf.
    Leaf,
    /// Inline parts alone.
    Inline,
    /// A tag, and inline parts.
    Tagged,
    /// A sequence of blocks.
    Sequence,
}

/// What each block of a sequence holds.
#[derive(Clone, Copy)]
pub(crate) enum BlockParts {
    /// No part.
    None,
    /// One part, at the start.
    One(ShapeId),
    /// A key at the start, and its value at the offset in bytes.
    Pair {
        key: ShapeId,
        value: ShapeId,
        offset: usize,
    },
}

/// How the values of a sealed shape are made up.
pub(crate) fn makeup_of<L: Leaf>(shapes: &Shapes<L>, id: ShapeId) -> Makeup
    requires { id.0 < length shapes.now.sealed }
    ensures { result ≡ makeup_of (structure_at shapes.now.sealed id.0) }
{
    makeup_of_kind(shapes.kind_of(id))
}

// How the values of a kind are made up.
fn makeup_of_kind(kind: ValueKind) -> Makeup
    ensures { result ≡ makeup_of_kind kind }
{
    match kind {
        ValueKind::NoValue => Makeup::NoValues,
        ValueKind::Leaf(_) => Makeup::Leaf,
        ValueKind::Unit | ValueKind::Struct | ValueKind::Array => Makeup::Inline,
        ValueKind::Enum | ValueKind::Option | ValueKind::Result => Makeup::Tagged,
        _ => Makeup::Sequence,
    }
}

/// What each block of a value of a sealed shape holds, where its values are sequences.
pub(crate) fn block_parts<L: Leaf>(shapes: &Shapes<L>, id: ShapeId) -> BlockParts
    requires { id.0 < length shapes.now.sealed }
    ensures { held_in result ≡ block_body_at shapes.now.sealed id.0 }
{
    // proof: what a sealed shape refers to is sealed
    let _sealed = shapes.sealed();
    let shape = sealed_shape(shapes, id);
    match shapes.kind_of(id) {
        ValueKind::List | ValueKind::Set | ValueKind::Box => one_part(element_in(&shape.def)),
        ValueKind::BoxedSlice => one_part(pointed_elements(shapes, &shape.def)),
        ValueKind::Map => two_parts(&shape.def, shapes.pair_value_offset(id)),
        _ => BlockParts::None,
    }
}

// The element alone, where there is one.
fn one_part(element: Option<ShapeId>) -> BlockParts
    ensures { held_in result ≡ option_map_or (λ id. single id 0) element [] }
{
    match element {
        Some(id) => BlockParts::One(id),
        None => BlockParts::None,
    }
}

// The key and the value of a map by its definition and the value's offset.
fn two_parts(def: &Def, offset: usize) -> BlockParts
    ensures { held_in result ≡ pair_in def.now offset }
{
    match def {
        Def::Map(map) => BlockParts::Pair {
            key: map.k,
            value: map.v,
            offset,
        },
        _ => BlockParts::None,
    }
}
