ghost use Rattle.std.specs.Prelude.{◌≡◌, ◌<◌, length, OnErr, OnOk, Some};
ghost use Rattle.facet_block.specs.Block.{with_item};
ghost use Rattle.facet_block.specs.PtrUninit.{place_of};
ghost use Rattle.facet_block.specs.Span.{IsChanged, IsCleared, IsVacant, span};
ghost use Rattle.facet_block.specs.declared.block.Item.{Sequence};
ghost use Rattle.facet_contain.specs.Parts.{part_shape};
ghost use Rattle.facet_init.specs.NewSequences.{one_block};
ghost use Rattle.facet_lists.specs.Sequences.{block_of_moved};
ghost use Rattle.facet_outline.specs.declared.value_kind.ValueKind.TheVariants as ValueKind;
ghost use Rattle.facet_registry.specs.Registry.{kind_at, size_at};
ghost use Rattle.facet_trees.specs.Value.{Value, more, node, none};
ghost use Rattle.facet_trees.specs.declared.form.Form.TheVariants as Form;
ghost use Rattle.facet_values.specs.Place.{place_in};
ghost use Rattle.facet_values.specs.Reading.{IsReadable, Reads};

use crate::definitions::block_size;
use crate::sequences::with_one_block;
use facet_base::ShapeId;
use facet_block::{PtrMut, PtrUninit};
use facet_contain::destinations::put_sequence;
use facet_leaf::Leaf;
use facet_registry::Shapes;
use std::alloc::{AllocError, Global};

/// Makes the box of a value, in an empty range. The value is moved into the box, and leaves its own range empty. An error
/// comes only when out of memory; both blocks are as before then. Requires that the shape is sealed and a box, and a value
/// of its part lies at the place.
pub fn box_new_into<L: Leaf>(
    alloc: Global,
    shapes: &Shapes<L>,
    s: ShapeId,
    dst: &mut PtrUninit<'_, L>,
    value: PtrMut<'_, L>,
) -> Result<(), AllocError>
    requires sealed { s.0 < length shapes.now.sealed }
    requires kind { kind_at shapes.now.sealed s.0 ≡ ValueKind.Box }
    requires vacant { IsVacant (place_of dst.old).block.now (span (place_of dst.old).offset (size_at shapes.now.sealed s.0)) }
    requires readable { IsReadable L.model shapes.now.sealed (place_in (part_shape shapes.now.sealed s.0 Form.Box 0) value.block.now value.offset) }
    ensures same_reference { (place_of dst.new).block.ghost_name ≡ (place_of dst.old).block.ghost_name }
    ensures same_offset { (place_of dst.new).offset ≡ (place_of dst.old).offset }
    ensures made { OnOk result ((v : Value L) → Reads L.model shapes.now.sealed (place_in (part_shape shapes.now.sealed s.0 Form.Box 0) value.entry.block.now value.entry.offset) v
        → Reads L.model shapes.now.sealed (place_in s.0 (place_of dst.new).block.now (place_of dst.old).offset) (node Form.Box (more v none))) }
    ensures elsewhere { OnOk result (IsChanged (place_of dst.old).block.now (place_of dst.new).block.now (span (place_of dst.old).offset (size_at shapes.now.sealed s.0))) }
    ensures moved { OnOk result (IsCleared value.entry.block.now value.exit.0.now (span value.entry.offset (size_at shapes.now.sealed (part_shape shapes.now.sealed s.0 Form.Box 0)))) }
    ensures blocks { OnOk result ((place_of dst.new).block.now ≡ with_item (place_of dst.old).block.now (place_of dst.old).offset
        (Some (Sequence (one_block (size_at shapes.now.sealed (part_shape shapes.now.sealed s.0 Form.Box 0))
        (block_of_moved (size_at shapes.now.sealed (part_shape shapes.now.sealed s.0 Form.Box 0)) value.entry.block.now value.entry.offset))))) }
    ensures unchanged { OnErr result ((place_of dst.new).block.now ≡ (place_of dst.old).block.now) }
    ensures kept { OnErr result (value.exit.0.now ≡ value.entry.block.now) }
{
    let PtrMut {
        block: source,
        offset: from,
    } = value;
    // proof: no sealed shape meets a cause
    let _sealed = shapes.sealed();
    let blocks = with_one_block(alloc, block_size(shapes, s), source, from)?;
    put_sequence(dst, blocks);
    Ok(())
}
