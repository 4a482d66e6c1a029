ghost use Rattle.std.specs.Prelude.{◌≡◌, ◌<◌, length};
ghost use Rattle.facet_make.specs.Initial.{block_size_at, initial_of_kind};
ghost use Rattle.facet_registry.specs.Registry.{kind_at};

use facet_base::{ScalarType, ShapeId};
use facet_def::Def;
use facet_leaf::Leaf;
use facet_outline::pair_layout;
use facet_registry::{Shapes, ValueKind};
use facet_walk::sealed_shape;

/// What the default of a value is, by its kind.
#[derive(Clone, Copy)]
pub(crate) enum Initial {
    /// There is none.
    None,
    /// The default leaf of a kind.
    Leaf(ScalarType),
    /// The defaults of the inline parts.
    Parts,
    /// The first tag, and no part.
    FirstTag,
    /// A sequence without blocks.
    NoBlocks,
}

/// What the default of a value of a sealed shape is.
pub(crate) fn initial_of<L: Leaf>(shapes: &Shapes<L>, id: ShapeId) -> Initial
    requires { id.0 < length shapes.now.sealed }
    ensures { result ≡ initial_of_kind (kind_at shapes.now.sealed id.0) }
{
    initial_of_kind(shapes.kind_of(id))
}

// What the default of a value of a kind is.
fn initial_of_kind(kind: ValueKind) -> Initial
    ensures { result ≡ initial_of_kind kind }
{
    match kind {
        ValueKind::Unit | ValueKind::Struct | ValueKind::Array => Initial::Parts,
        ValueKind::Leaf(kind) => Initial::Leaf(kind),
        ValueKind::Option => Initial::FirstTag,
        ValueKind::List | ValueKind::Map | ValueKind::Set => Initial::NoBlocks,
        ValueKind::Enum
        | ValueKind::Result
        | ValueKind::BoxedSlice
        | ValueKind::Box
        | ValueKind::NoValue => Initial::None,
    }
}

/// The size in bytes of the blocks of a list, a map or a set.
pub(crate) fn block_size_of<L: Leaf>(shapes: &Shapes<L>, id: ShapeId) -> usize
    requires sealed { id.0 < length shapes.now.sealed }
    requires blocks { initial_of_kind (kind_at shapes.now.sealed id.0) ≡ Initial.NoBlocks }
    ensures { result ≡ block_size_at shapes.now.sealed id.0 }
{
    // proof: what a sealed shape refers to is sealed
    let _sealed = shapes.sealed();
    match &sealed_shape(shapes, id).def {
        Def::List(list) => shapes.part_layout(list.t).size,
        Def::Set(set) => shapes.part_layout(set.t).size,
        Def::Map(map) => pair_layout(shapes.part_layout(map.k), shapes.part_layout(map.v)).size,
        _ => unreachable!(),
    }
}
