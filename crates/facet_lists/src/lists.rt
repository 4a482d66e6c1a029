ghost use Rattle.std.specs.Prelude.{◌≡◌, ◌↔◌, ◌⊎◌, ◌+◌, ◌-◌, ◌<◌, ◌≤◌, ℕ, true, false, List, [], ◌∷◌, ◌++◌, length, slice_get, swap, take, IsTrue, OnErr, OnOk, Some};
ghost use Rattle.facet_block.specs.Block.{item_at, with_item};
ghost use Rattle.facet_block.specs.Seq.{element_size_of, filled_of, spare_of, with_filled, with_new_spare};
ghost use Rattle.facet_block.specs.PtrUninit.{place_of};
ghost use Rattle.facet_block.specs.Span.{IsChanged, IsCleared, IsVacant, span};
ghost use Rattle.facet_block.specs.declared.block.Item.{Sequence};
ghost use Rattle.facet_block.specs.declared.block.Seq.{Seq};
ghost use Rattle.facet_contain.specs.Parts.{parts_of, values_of};
ghost use Rattle.facet_lists.specs.Elements.{HoldsFirst, HoldsSequence, ReadEach, element_at};
ghost use Rattle.facet_lists.specs.Sequences.{all_blocks, block_of_moved, cut_at, with_last, with_room, without_last};
ghost use Rattle.facet_outline.specs.declared.value_kind.ValueKind.TheVariants as ValueKind;
ghost use Rattle.facet_registry.specs.Registry.{kind_at, size_at};
ghost use Rattle.facet_trees.specs.Value.{Value, node};
ghost use Rattle.facet_trees.specs.declared.form.Form.TheVariants as Form;
ghost use Rattle.facet_values.specs.Place.{place_in};
ghost use Rattle.facet_values.specs.Reading.{IsReadable, Reads};

use crate::blocks::first_filled;
use crate::sequences::{cut_blocks, filled_at, pop_at, push_at, reserve_at, swap_at};
use facet_base::ShapeId;
use facet_block::{PtrMut, PtrUninit, Seq};
use facet_contain::destinations::put_sequence;
use facet_leaf::Leaf;
use facet_registry::Shapes;
use std::alloc::AllocError;

/// Exchanges two elements of a list, and returns whether both are there. Else nothing changes. Requires that the shape is
/// sealed and a list, and the place holds a value of it.
pub fn list_swap<L: Leaf>(
    shapes: &Shapes<L>,
    s: ShapeId,
    p: PtrMut<'_, L>,
    i: usize,
    j: usize,
) -> bool
    requires sealed { s.0 < length shapes.now.sealed }
    requires kind { kind_at shapes.now.sealed s.0 ≡ ValueKind.List }
    requires readable { IsReadable L.model shapes.now.sealed (place_in s.0 p.block.now p.offset) }
    ensures answer { (v : Value L) → Reads L.model shapes.now.sealed (place_in s.0 p.entry.block.now p.entry.offset) v
        → IsTrue result ↔ ((i < length (parts_of v)) × (j < length (parts_of v))) }
    ensures exchanged { result ≡ true → (v : Value L) → Reads L.model shapes.now.sealed (place_in s.0 p.entry.block.now p.entry.offset) v
        → Reads L.model shapes.now.sealed (place_in s.0 p.exit.0.now p.entry.offset) (node Form.List (values_of (swap (parts_of v) i j))) }
    ensures blocks { result ≡ true → (blocks : Seq L) → item_at p.entry.block.now p.entry.offset ≡ Some (Sequence blocks)
        → p.exit.0.now ≡ with_item p.entry.block.now p.entry.offset (Some (Sequence (with_filled blocks (swap (filled_of blocks) i j)))) }
    ensures unchanged { result ≡ false → p.exit.0.now ≡ p.entry.block.now }
{
    let PtrMut { block, offset } = p;
    // proof: no sealed shape meets a cause
    let _sealed = shapes.sealed();
    let len = filled_at(block, offset);
    if are_below(i, j, len) {
        swap_at(block, offset, i, j);
        return true;
    }
    false
}

// Whether two indices are below a length.
fn are_below(i: usize, j: usize, len: usize) -> bool
    ensures { IsTrue result ↔ ((i < len) × (j < len)) }
{
    i < len && j < len
}

/// Adds an element at the end of a list. It is moved there, and leaves its own range empty. An error comes only where the
/// list has no spare block, or `usize::MAX` elements; the list and the element are as before then. Requires that the shape
/// is sealed and a list, the place holds a value of it, and `item` holds a value of its elements' shape.
pub fn list_push<L: Leaf>(
    shapes: &Shapes<L>,
    s: ShapeId,
    p: PtrMut<'_, L>,
    item: PtrMut<'_, L>,
) -> Result<(), AllocError>
    requires sealed { s.0 < length shapes.now.sealed }
    requires kind { kind_at shapes.now.sealed s.0 ≡ ValueKind.List }
    requires readable { IsReadable L.model shapes.now.sealed (place_in s.0 p.block.now p.offset) }
    requires element { IsReadable L.model shapes.now.sealed (place_in (element_at shapes.now.sealed s.0) item.block.now item.offset) }
    ensures made { OnOk result ((v : Value L) → Reads L.model shapes.now.sealed (place_in s.0 p.entry.block.now p.entry.offset) v
        → (w : Value L) → Reads L.model shapes.now.sealed (place_in (element_at shapes.now.sealed s.0) item.entry.block.now item.entry.offset) w
        → Reads L.model shapes.now.sealed (place_in s.0 p.exit.0.now p.entry.offset) (node Form.List (values_of (parts_of v ++ w ∷ [])))) }
    ensures moved { OnOk result (IsCleared item.entry.block.now item.exit.0.now (span item.entry.offset (size_at shapes.now.sealed (element_at shapes.now.sealed s.0)))) }
    ensures blocks { OnOk result ((blocks : Seq L) → item_at p.entry.block.now p.entry.offset ≡ Some (Sequence blocks)
        → p.exit.0.now ≡ with_item p.entry.block.now p.entry.offset
        (Some (Sequence (with_last (with_room 1 blocks) (block_of_moved (element_size_of blocks) item.entry.block.now item.entry.offset))))) }
    ensures refused { OnErr result ((blocks : Seq L) → item_at p.entry.block.now p.entry.offset ≡ Some (Sequence blocks)
        → (spare_of blocks ≡ []) ⊎ (length (filled_of blocks) ≡ usize.MAX)) }
    ensures unchanged { OnErr result (p.exit.0.now ≡ p.entry.block.now) }
    ensures kept { OnErr result (item.exit.0.now ≡ item.entry.block.now) }
{
    let PtrMut { block, offset } = p;
    let PtrMut {
        block: source,
        offset: from,
    } = item;
    // proof: no sealed shape meets a cause
    let _sealed = shapes.sealed();
    push_at(block, offset, source, from)
}

// Whether a length is above 0.
fn has_any(len: usize) -> bool
    ensures { IsTrue result ↔ (0 < len) }
{
    len > 0
}

/// Moves the last element of a list to `out`, and returns true; false exactly where the list is empty, and then nothing
/// changes. The element's block is the first spare one afterwards. Requires that the shape is sealed and a list, the place
/// holds a value of it, and `out` has an empty range for an element.
pub fn list_pop<L: Leaf>(
    shapes: &Shapes<L>,
    s: ShapeId,
    p: PtrMut<'_, L>,
    out: &mut PtrUninit<'_, L>,
) -> bool
    requires sealed { s.0 < length shapes.now.sealed }
    requires kind { kind_at shapes.now.sealed s.0 ≡ ValueKind.List }
    requires readable { IsReadable L.model shapes.now.sealed (place_in s.0 p.block.now p.offset) }
    requires vacant { IsVacant (place_of out.old).block.now (span (place_of out.old).offset (size_at shapes.now.sealed (element_at shapes.now.sealed s.0))) }
    ensures answer { (v : Value L) → Reads L.model shapes.now.sealed (place_in s.0 p.entry.block.now p.entry.offset) v → IsTrue result ↔ (0 < length (parts_of v)) }
    ensures popped { result ≡ true → (v : Value L) → Reads L.model shapes.now.sealed (place_in s.0 p.entry.block.now p.entry.offset) v
        → Reads L.model shapes.now.sealed (place_in s.0 p.exit.0.now p.entry.offset) (node Form.List (values_of (take (length (parts_of v) - 1) (parts_of v)))) }
    ensures element { result ≡ true → (v : Value L) → Reads L.model shapes.now.sealed (place_in s.0 p.entry.block.now p.entry.offset) v
        → (w : Value L) → slice_get (parts_of v) (length (parts_of v) - 1) ≡ Some w
        → Reads L.model shapes.now.sealed (place_in (element_at shapes.now.sealed s.0) (place_of out.new).block.now (place_of out.old).offset) w }
    ensures blocks { result ≡ true → (blocks : Seq L) → item_at p.entry.block.now p.entry.offset ≡ Some (Sequence blocks)
        → p.exit.0.now ≡ with_item p.entry.block.now p.entry.offset (Some (Sequence (without_last blocks))) }
    ensures same_reference { (place_of out.new).block.ghost_name ≡ (place_of out.old).block.ghost_name }
    ensures same_offset { (place_of out.new).offset ≡ (place_of out.old).offset }
    ensures elsewhere { result ≡ true → IsChanged (place_of out.old).block.now (place_of out.new).block.now (span (place_of out.old).offset (size_at shapes.now.sealed (element_at shapes.now.sealed s.0))) }
    ensures unchanged { result ≡ false → p.exit.0.now ≡ p.entry.block.now }
    ensures kept { result ≡ false → out.new ≡ out.old }
{
    let PtrMut { block, offset } = p;
    // proof: no sealed shape meets a cause
    let _sealed = shapes.sealed();
    let len = filled_at(block, offset);
    if has_any(len) {
        pop_at(block, offset, len - 1, out);
        return true;
    }
    false
}

/// Makes the spare blocks of a list at least `additional`. An error may leave some of the new ones there. The list holds
/// what it held. Requires that the shape is sealed and a list, and the place holds a value of it.
pub fn list_reserve<L: Leaf>(
    shapes: &Shapes<L>,
    s: ShapeId,
    p: PtrMut<'_, L>,
    additional: usize,
) -> Result<(), AllocError>
    requires sealed { s.0 < length shapes.now.sealed }
    requires kind { kind_at shapes.now.sealed s.0 ≡ ValueKind.List }
    requires readable { IsReadable L.model shapes.now.sealed (place_in s.0 p.block.now p.offset) }
    ensures held { (v : Value L) → Reads L.model shapes.now.sealed (place_in s.0 p.entry.block.now p.entry.offset) v
        → Reads L.model shapes.now.sealed (place_in s.0 p.exit.0.now p.entry.offset) v }
    ensures ok { OnOk result ((blocks : Seq L) → item_at p.entry.block.now p.entry.offset ≡ Some (Sequence blocks)
        → p.exit.0.now ≡ with_item p.entry.block.now p.entry.offset (Some (Sequence (with_room additional blocks)))) }
    ensures err { OnErr result ((blocks : Seq L) → item_at p.entry.block.now p.entry.offset ≡ Some (Sequence blocks)
        → (made : ℕ) × (made + length (spare_of blocks) < additional) × (p.exit.0.now ≡ with_item p.entry.block.now p.entry.offset (Some (Sequence (with_new_spare blocks made))))) }
{
    let PtrMut { block, offset } = p;
    // proof: no sealed shape meets a cause
    let _sealed = shapes.sealed();
    reserve_at(block, offset, additional)
}

/// Makes the first `n` of the filled and then the spare blocks of a list its elements, and the others its spare ones.
/// Requires that the shape is sealed and a list, that the one item in the range is a sequence at the place, whose size and
/// whose blocks' sizes are the element's, and that of its filled and spare blocks, which are at least `n`, each of the
/// first `n` holds an element, and the others are empty. The place need not read as a value before.
pub fn set_len<L: Leaf>(shapes: &Shapes<L>, s: ShapeId, p: PtrMut<'_, L>, n: usize)
    requires sealed { s.0 < length shapes.now.sealed }
    requires kind { kind_at shapes.now.sealed s.0 ≡ ValueKind.List }
    requires holds { HoldsSequence L.model shapes.now.sealed n (place_in s.0 p.block.now p.offset) }
    ensures made { (blocks : Seq L) → item_at p.entry.block.now p.entry.offset ≡ Some (Sequence blocks)
        → (ws : List (Value L)) → ReadEach L.model shapes.now.sealed (element_at shapes.now.sealed s.0) (take n (all_blocks blocks)) ws
        → Reads L.model shapes.now.sealed (place_in s.0 p.exit.0.now p.entry.offset) (node Form.List (values_of ws)) }
    ensures blocks { (blocks : Seq L) → item_at p.entry.block.now p.entry.offset ≡ Some (Sequence blocks)
        → p.exit.0.now ≡ with_item p.entry.block.now p.entry.offset (Some (Sequence (cut_at n blocks))) }
{
    let PtrMut { block, offset } = p;
    // proof: no sealed shape meets a cause
    let _sealed = shapes.sealed();
    cut_blocks(block, offset, n);
}

/// Makes a list of a sequence, in an empty range: the first `len` of its filled and then its spare blocks are the elements,
/// and the others are its spare ones. Requires that the shape is sealed and a list, that the sequence's size and its blocks'
/// sizes are the element's, and that of its filled and spare blocks, which are at least `len`, each of the first `len` holds
/// an element, and the others are empty.
pub fn from_raw_parts<L: Leaf>(
    shapes: &Shapes<L>,
    s: ShapeId,
    dst: &mut PtrUninit<'_, L>,
    parts: Seq<L>,
    len: usize,
)
    requires sealed { s.0 < length shapes.now.sealed }
    requires kind { kind_at shapes.now.sealed s.0 ≡ ValueKind.List }
    requires vacant { IsVacant (place_of dst.old).block.now (span (place_of dst.old).offset (size_at shapes.now.sealed s.0)) }
    requires first { HoldsFirst L.model shapes.now.sealed (element_at shapes.now.sealed s.0) len parts }
    ensures same_reference { (place_of dst.new).block.ghost_name ≡ (place_of dst.old).block.ghost_name }
    ensures same_offset { (place_of dst.new).offset ≡ (place_of dst.old).offset }
    ensures made { (ws : List (Value L)) → ReadEach L.model shapes.now.sealed (element_at shapes.now.sealed s.0) (take len (all_blocks parts)) ws
        → Reads L.model shapes.now.sealed (place_in s.0 (place_of dst.new).block.now (place_of dst.old).offset) (node Form.List (values_of ws)) }
    ensures blocks { (place_of dst.new).block.now ≡ with_item (place_of dst.old).block.now (place_of dst.old).offset (Some (Sequence (cut_at len parts))) }
{
    // proof: the registry says that a list has a byte for its sequence
    let _sealed = shapes.sealed();
    put_sequence(dst, first_filled(parts, len));
}
