ghost use Rattle.std.specs.Prelude.{◌≡◌, ◌≢◌, ◌↔◌, ℕ, ◌+◌, ◌^◌, ◌<◌, ◌≤◌, All, None, IsTrue, length};
ghost use Rattle.facet_outline.specs.References.{parts_of_def};
ghost use Rattle.facet_block.specs.Block.{item_at, size_of};
ghost use Rattle.facet_block.specs.Span.{IsBeside};
ghost use Rattle.facet_readable.specs.Gaps.{AreKnownPlaces, IsBesideAll, IsEmptyBeside, IsEmptyFrom, parts_of_seen, row_size};
ghost use Rattle.facet_registry.specs.Registry.{size_at};
ghost use Rattle.facet_trees.specs.Structure.{structure_at};
ghost use Rattle.facet_values.specs.Place.{own_item, place_in, range_of};
ghost use Rattle.facet_values.specs.Reading.{IsAlone, spans_by};
ghost use Rattle.facet_values.specs.Seen.{seen};
ghost use Rattle.facet_walk.specs.Look.{elements_in_a_row, parts_behind, place_of, places_of};

use facet_block::{ItemKind, PtrConst};
use facet_def::Def;
use facet_leaf::Leaf;
use facet_registry::{Shapes, ValueKind};
use facet_walk::{Parts, Place, Seen, sealed_shape, see};

/// Whether no item lies in the range of a place, of `size` bytes, beside the own item and the inline parts of a value.
pub(crate) fn is_alone<L: Leaf>(shapes: &Shapes<L>, place: Place<L>, size: usize) -> bool
    requires sealed { place.shape.0 < length shapes.now.sealed }
    requires size { size ≡ size_at shapes.now.sealed place.shape.0 }
    requires inside { place.at.offset + size ≤ size_of place.at.block.now }
    ensures { IsTrue result ↔ IsAlone size (place_of place.entry)
        (spans_by shapes.now.sealed (structure_at shapes.now.sealed place.entry.shape.0) (own_item (place_of place.entry))) }
{
    // proof: the parts of the values of a sealed shape lie within their size
    let _sealed = shapes.sealed();
    let def = &sealed_shape(shapes, place.shape).def;
    match shapes.kind_of(place.shape) {
        ValueKind::NoValue | ValueKind::Unit => is_empty_from(place.at, 0, size),
        ValueKind::Leaf(_)
        | ValueKind::List
        | ValueKind::BoxedSlice
        | ValueKind::Map
        | ValueKind::Set
        | ValueKind::Box => is_empty_from(place.at, 1, size),
        ValueKind::Array => is_empty_from(place.at, row_size(shapes, def), size),
        ValueKind::Struct => is_empty_beside_parts(shapes, place, 0, size),
        ValueKind::Enum | ValueKind::Option | ValueKind::Result => {
            is_empty_beside_parts(shapes, place, 1, size)
        }
    }
}

// The size in bytes of the elements of an array together, by its definition.
fn row_size<L: Leaf>(shapes: &Shapes<L>, def: &Def) -> usize
    requires sealed { All (λ id. id.0 < length shapes.now.sealed) (parts_of_def def.now) }
    requires fits { row_size shapes.now.sealed def.now < 2 ^ 64 }
    ensures { result ≡ row_size shapes.now.sealed def.now }
{
    match def {
        Def::Array(array) => array.n * shapes.size_of(array.t),
        _ => 0,
    }
}

// Whether no item lies in the bytes of a place from `start` on and below `end`.
fn is_empty_from<L>(at: PtrConst<L>, start: usize, end: usize) -> bool
    requires some { start ≤ end }
    requires inside { at.offset + end ≤ size_of at.block.now }
    ensures { IsTrue result ↔ IsEmptyFrom (place_in 0 at.entry.block.now at.entry.offset) start end }
{
    // proof: the block's size is a usize, so the sum below can't overflow
    let _size = at.block.size();
    at.block.is_empty_in(at.offset + start, end - start)
}

// Whether no item lies in the bytes of a place from `start` on and below `end`, beside the parts of what is seen.
fn is_empty_beside_parts<L: Leaf>(
    shapes: &Shapes<L>,
    place: Place<L>,
    start: usize,
    end: usize,
) -> bool
    requires sealed { place.shape.0 < length shapes.now.sealed }
    requires some { start ≤ end }
    requires inside { place.at.offset + end ≤ size_of place.at.block.now }
    requires parts { AreKnownPlaces shapes.now.sealed (parts_of_seen (seen shapes.now.sealed (place_of place))) }
    ensures { IsTrue result ↔ IsEmptyBeside shapes.now.sealed (place_of place.entry) start end (parts_of_seen (seen shapes.now.sealed (place_of place.entry))) }
{
    match see(shapes, place.shape, place.at) {
        Some(Seen::Node(_, parts)) => is_empty_beside(shapes, parts, place.at, start, end),
        Some(Seen::Leaf(_)) => is_empty_from(place.at, start, end),
        None => is_empty_from(place.at, start, end),
    }
}

// Whether no item lies in the bytes of a place from `start` on and below `end`, beside the parts.
fn is_empty_beside<L: Leaf>(
    shapes: &Shapes<L>,
    parts: Parts<L>,
    at: PtrConst<L>,
    start: usize,
    end: usize,
) -> bool
    requires parts { AreKnownPlaces shapes.now.sealed (places_of parts) }
    requires inside { at.offset + end ≤ size_of at.block.now }
    ensures { IsTrue result ↔ IsEmptyBeside shapes.now.sealed (place_in 0 at.entry.block.now at.entry.offset) start end (places_of parts.entry) }
{
    for i in start..end {
        if is_beside_with_item(shapes, parts, at.field(i)) {
            return false;
        }
    }
    true
}

// Whether an item lies at a place, and beside the parts.
fn is_beside_with_item<L: Leaf>(shapes: &Shapes<L>, parts: Parts<L>, at: PtrConst<L>) -> bool
    requires { AreKnownPlaces shapes.now.sealed (places_of parts) }
    ensures { IsTrue result ↔ ((item_at at.entry.block.now at.entry.offset ≢ None) × IsBesideAll shapes.now.sealed at.entry.offset (places_of parts.entry)) }
{
    match at.block.item_at(at.offset) {
        ItemKind::Nothing => false,
        ItemKind::Leaf | ItemKind::Tag | ItemKind::Sequence => {
            is_beside_all(shapes, parts, at.offset)
        }
    }
}

// Whether an offset lies beside the parts.
fn is_beside_all<L: Leaf>(shapes: &Shapes<L>, parts: Parts<L>, offset: usize) -> bool
    requires { AreKnownPlaces shapes.now.sealed (places_of parts) }
    ensures { IsTrue result ↔ IsBesideAll shapes.now.sealed offset (places_of parts.entry) }
{
    for i in 0..parts.len() {
        if !is_beside(shapes, parts.part(i), offset) {
            return false;
        }
    }
    true
}

// Whether an offset lies beside the range of a place.
fn is_beside<L: Leaf>(shapes: &Shapes<L>, part: Place<L>, offset: usize) -> bool
    requires { part.shape.0 < length shapes.now.sealed }
    ensures { IsTrue result ↔ IsBeside offset (range_of shapes.now.sealed (place_of part.entry)) }
{
    if offset < part.at.offset {
        return true;
    }
    shapes.size_of(part.shape) <= offset - part.at.offset
}
