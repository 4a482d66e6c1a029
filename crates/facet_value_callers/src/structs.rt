ghost use Rattle.std.specs.Prelude.{◌≡◌, ◌+◌, ◌<◌, Some, length};
ghost use Rattle.facet_block.specs.Block.{item_at, item_kind_at, size_of, with_item};
ghost use Rattle.facet_block.specs.declared.block.Item.{Leaf};
ghost use Rattle.facet_block.specs.declared.block.ItemKind.{ItemKind};
ghost use Rattle.facet_outline.specs.declared.value_kind.ValueKind.TheVariants as ValueKind;
ghost use Rattle.facet_registry.specs.Registry.{kind_at};
ghost use Rattle.facet_trees.specs.Value.{Values, leaf, more, node, none};
ghost use Rattle.facet_trees.specs.declared.form.Form.{Form};
ghost use Rattle.facet_value_callers.specs.ShapesOf.{HasField};
ghost use Rattle.facet_values.specs.Place.{place_in};
ghost use Rattle.facet_values.specs.Reading.{IsReadable, Reads};
ghost use Rattle.facet_values.specs.Replaced.{with_parts};

use facet_base::ShapeId;
use facet_block::{Block, PtrMut};
use facet_leaf::Leaf;
use facet_registry::Shapes;

/// Replaces the leaf that a field of a struct is, by one of the same kind. All other fields are as before.
pub fn replace_leaf<L: Leaf>(
    shapes: &Shapes<L>,
    id: ShapeId,
    index: usize,
    part: ShapeId,
    offset: usize,
    block: &mut Block<L>,
    at: usize,
    held: L,
) -> L
    requires sealed { id.0 < length shapes.now.sealed }
    requires field { HasField shapes.now.sealed id.0 index part offset }
    requires part { kind_at shapes.now.sealed part.0 ≡ ValueKind.Leaf (L.model.kind held) }
    requires readable { IsReadable L.model shapes.now.sealed (place_in id.0 block.old at) }
    ensures { (form : Form) (parts : Values L) → Reads L.model shapes.now.sealed (place_in id.0 block.old at) (node form parts)
        → Reads L.model shapes.now.sealed (place_in id.0 block.new at) (node form (with_parts index (more (leaf held) none) parts)) }
{
    // proof: the registry says that the fields lie inside, apart from each other.
    let _sealed = shapes.sealed();
    replace_further(block, at, offset, held)
}

// Replaces the leaf so many bytes behind an offset.
fn replace_further<L: Drop>(block: &mut Block<L>, at: usize, offset: usize, held: L) -> L
    requires below { at + offset < size_of block.old }
    requires leaf { item_kind_at block.old (at + offset) ≡ ItemKind.Leaf }
    ensures value { item_at block.old (at + offset) ≡ Some (Leaf result) }
    ensures puts { block.new ≡ with_item block.old (at + offset) (Some (Leaf held)) }
{
    PtrMut::new(block, at).field(offset).replace(held)
}
