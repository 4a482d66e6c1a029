ghost use Rattle.std.specs.Prelude.{◌≡◌, ◌⊎◌, ◌<◌, ◌≤◌, List, length, OnErr, OnOk, Some};
ghost use Rattle.facet_base.specs.declared.layout.ShapeId.{ShapeId};
ghost use Rattle.facet_block.specs.Block.{item_at, with_item};
ghost use Rattle.facet_block.specs.PtrUninit.{place_of};
ghost use Rattle.facet_block.specs.Seq.{spare_of};
ghost use Rattle.facet_block.specs.Span.{IsChanged, IsVacant, span};
ghost use Rattle.facet_block.specs.declared.block.Item.{Sequence};
ghost use Rattle.facet_block.specs.declared.block.Seq.{Seq};
ghost use Rattle.facet_init.specs.NewSequences.{spare_blocks};
ghost use Rattle.facet_outline.specs.declared.value_kind.ValueKind.TheVariants as ValueKind;
ghost use Rattle.facet_registry.specs.Registry.{kind_at, size_at};
ghost use Rattle.facet_trees.specs.Structure.{block_size, sequence, structure_at};
ghost use Rattle.facet_trees.specs.Value.{node, none};
ghost use Rattle.facet_trees.specs.declared.form.Form.{Form};
ghost use Rattle.facet_trees.specs.declared.form.Form.TheVariants as Form;
ghost use Rattle.facet_values.specs.Place.{place_in};
ghost use Rattle.facet_values.specs.Reading.{Reads};

use crate::definitions::block_size;
use crate::sequences::with_spare_blocks;
use facet_base::ShapeId;
use facet_block::PtrUninit;
use facet_contain::destinations::put_sequence;
use facet_leaf::Leaf;
use facet_registry::Shapes;
use std::alloc::{AllocError, Global};

/// Makes an empty list, map or set, in an empty range, with as many spare blocks as `capacity`. The blocks have the size of
/// an element, or of a pair. An error comes only when out of memory; the block is as before then. Requires that the shape is
/// sealed and a list, a map or a set.
pub fn init_in_place_with_capacity<L: Leaf>(
    alloc: Global,
    shapes: &Shapes<L>,
    s: ShapeId,
    dst: &mut PtrUninit<'_, L>,
    capacity: usize,
) -> Result<(), AllocError>
    requires sealed { s.0 < length shapes.now.sealed }
    requires kind { (kind_at shapes.now.sealed s.0 ≡ ValueKind.List) ⊎ ((kind_at shapes.now.sealed s.0 ≡ ValueKind.Map) ⊎ (kind_at shapes.now.sealed s.0 ≡ ValueKind.Set)) }
    requires vacant { IsVacant (place_of dst.old).block.now (span (place_of dst.old).offset (size_at shapes.now.sealed s.0)) }
    ensures same_reference { (place_of dst.new).block.ghost_name ≡ (place_of dst.old).block.ghost_name }
    ensures same_offset { (place_of dst.new).offset ≡ (place_of dst.old).offset }
    ensures list { OnOk result (kind_at shapes.now.sealed s.0 ≡ ValueKind.List → Reads L.model shapes.now.sealed (place_in s.0 (place_of dst.new).block.now (place_of dst.old).offset) (node Form.List none)) }
    ensures map { OnOk result (kind_at shapes.now.sealed s.0 ≡ ValueKind.Map → Reads L.model shapes.now.sealed (place_in s.0 (place_of dst.new).block.now (place_of dst.old).offset) (node Form.Map none)) }
    ensures set { OnOk result (kind_at shapes.now.sealed s.0 ≡ ValueKind.Set → Reads L.model shapes.now.sealed (place_in s.0 (place_of dst.new).block.now (place_of dst.old).offset) (node Form.Set none)) }
    ensures blocks { OnOk result ((form : Form) (ids : List ShapeId) → structure_at shapes.now.sealed s.0 ≡ sequence form ids
        → (place_of dst.new).block.now ≡ with_item (place_of dst.old).block.now (place_of dst.old).offset
        (Some (Sequence (spare_blocks (block_size shapes.now.sealed ids) capacity)))) }
    ensures room { OnOk result ((blocks : Seq L) → item_at (place_of dst.new).block.now (place_of dst.old).offset ≡ Some (Sequence blocks) → capacity ≤ length (spare_of blocks)) }
    ensures elsewhere { OnOk result (IsChanged (place_of dst.old).block.now (place_of dst.new).block.now (span (place_of dst.old).offset (size_at shapes.now.sealed s.0))) }
    ensures unchanged { OnErr result ((place_of dst.new).block.now ≡ (place_of dst.old).block.now) }
{
    // proof: no sealed shape meets a cause
    let _sealed = shapes.sealed();
    let blocks = with_spare_blocks(alloc, block_size(shapes, s), capacity)?;
    put_sequence(dst, blocks);
    Ok(())
}
