ghost use Rattle.std.specs.Prelude.{◌≡◌, ◌<◌, Some, None, length};
ghost use Rattle.facet_block.specs.Block.{item_at, size_of, with_item};
ghost use Rattle.facet_block.specs.declared.block.Item.{Sequence};
ghost use Rattle.facet_block.specs.Span.{IsVacant, span};
ghost use Rattle.facet_registry.specs.Registry.{size_at};
ghost use Rattle.facet_trees.specs.Value.{node, none};
ghost use Rattle.facet_trees.specs.declared.form.Form.TheVariants as Form;
ghost use Rattle.facet_value_callers.specs.ShapesOf.{IsListOf};
ghost use Rattle.facet_values.specs.Place.{place_in};
ghost use Rattle.facet_values.specs.Reading.{Reads};

use facet_base::ShapeId;
use facet_block::{Block, PtrUninit, Seq};
use facet_leaf::Leaf;
use facet_registry::Shapes;
use std::alloc::Global;

/// Makes an empty list, in an empty range.
pub fn put_empty_list<L: Leaf>(
    alloc: Global,
    shapes: &Shapes<L>,
    id: ShapeId,
    element: ShapeId,
    block: &mut Block<L>,
    at: usize,
)
    requires sealed { id.0 < length shapes.now.sealed }
    requires element { element.0 < length shapes.now.sealed }
    requires list { IsListOf shapes.now.sealed id.0 element }
    requires vacant { IsVacant block.old (span at (size_at shapes.now.sealed id.0)) }
    ensures { Reads L.model shapes.now.sealed (place_in id.0 block.new at) (node Form.List none) }
{
    // proof: the registry says that a list has a byte for its sequence.
    let _sealed = shapes.sealed();
    let sequence = Seq::new(alloc, shapes.size_of(element));
    put_sequence(block, at, sequence);
}

// Puts a sequence at an empty place.
fn put_sequence<L: Drop>(block: &mut Block<L>, at: usize, sequence: Seq<L>)
    requires below { at < size_of block.old }
    requires empty { item_at block.old at ≡ None }
    ensures { block.new ≡ with_item block.old at (Some (Sequence sequence)) }
{
    PtrUninit::new(block, at).put_seq(sequence);
}
