ghost use Rattle.std.specs.Prelude.{◌≡◌, ◌+◌, ◌<◌, Some, None, length};
ghost use Rattle.facet_block.specs.Block.{item_at, item_kind_at, size_of, with_item};
ghost use Rattle.facet_block.specs.Span.{IsVacant, span};
ghost use Rattle.facet_block.specs.declared.block.Item.{Leaf, Tag};
ghost use Rattle.facet_block.specs.declared.block.ItemKind.{ItemKind};
ghost use Rattle.facet_outline.specs.declared.value_kind.ValueKind.TheVariants as ValueKind;
ghost use Rattle.facet_registry.specs.Registry.{kind_at, size_at};
ghost use Rattle.facet_trees.specs.Value.{leaf, more, node, none};
ghost use Rattle.facet_trees.specs.declared.form.Form.TheVariants as Form;
ghost use Rattle.facet_value_callers.specs.ShapesOf.{HoldsLeaf, IsOptionOf};
ghost use Rattle.facet_values.specs.Place.{place_in};
ghost use Rattle.facet_values.specs.Reading.{Reads};

use facet_base::ShapeId;
use facet_block::{Block, PtrMut, PtrUninit};
use facet_leaf::Leaf;
use facet_registry::Shapes;

/// Makes the option that is None, in an empty range.
pub fn put_absent<L: Leaf>(
    shapes: &Shapes<L>,
    id: ShapeId,
    part: ShapeId,
    offset: usize,
    block: &mut Block<L>,
    at: usize,
)
    requires sealed { id.0 < length shapes.now.sealed }
    requires option { IsOptionOf shapes.now.sealed id.0 part offset }
    requires vacant { IsVacant block.old (span at (size_at shapes.now.sealed id.0)) }
    ensures { Reads L.model shapes.now.sealed (place_in id.0 block.new at) (node Form.Absent none) }
{
    // proof: the registry says that an option has a byte for its tag.
    let _sealed = shapes.sealed();
    put_tag(block, at, 0);
}

// Puts a tag at an empty place.
fn put_tag<L: Drop>(block: &mut Block<L>, at: usize, tag: u32)
    requires below { at < size_of block.old }
    requires empty { item_at block.old at ≡ None }
    ensures { block.new ≡ with_item block.old at (Some (Tag tag)) }
{
    PtrUninit::new(block, at).put_tag(tag);
}

/// Makes the option that holds a leaf, in an empty range.
pub fn put_present<L: Leaf>(
    shapes: &Shapes<L>,
    id: ShapeId,
    part: ShapeId,
    offset: usize,
    block: &mut Block<L>,
    at: usize,
    held: L,
)
    requires sealed { id.0 < length shapes.now.sealed }
    requires option { IsOptionOf shapes.now.sealed id.0 part offset }
    requires part { kind_at shapes.now.sealed part.0 ≡ ValueKind.Leaf (L.model.kind held) }
    requires vacant { IsVacant block.old (span at (size_at shapes.now.sealed id.0)) }
    ensures { Reads L.model shapes.now.sealed (place_in id.0 block.new at) (node Form.Present (more (leaf held) none)) }
{
    // proof: the registry says that the tag and the part lie inside, apart from each other.
    let _sealed = shapes.sealed();
    put_tag_and_leaf(block, at, 1, offset, held);
}

// Puts a tag at an empty place, and a leaf at another one so many bytes behind it.
fn put_tag_and_leaf<L: Drop>(block: &mut Block<L>, at: usize, tag: u32, offset: usize, held: L)
    requires behind { 0 < offset }
    requires below { at + offset < size_of block.old }
    requires empty { item_at block.old at ≡ None }
    requires empty_next { item_at block.old (at + offset) ≡ None }
    ensures { block.new ≡ with_item (with_item block.old at (Some (Tag tag))) (at + offset) (Some (Leaf held)) }
{
    let mut place = PtrMut::new(block, at);
    place.put_tag_at(0, tag);
    place.put_at(offset, held);
}

/// Takes the leaf out of the option that holds it.
pub fn take_present<L: Leaf>(
    shapes: &Shapes<L>,
    id: ShapeId,
    part: ShapeId,
    offset: usize,
    block: &mut Block<L>,
    at: usize,
) -> L
    requires option { IsOptionOf shapes.now.sealed id.0 part offset }
    requires holds { HoldsLeaf L.model shapes.now.sealed (place_in id.0 block.old at) }
    ensures value { Reads L.model shapes.now.sealed (place_in id.0 block.old at) (node Form.Present (more (leaf result) none)) }
    ensures empties { block.new ≡ with_item block.old (at + offset) None }
{
    take_leaf(block, at, offset)
}

// Takes the leaf so many bytes behind an offset out.
fn take_leaf<L: Drop>(block: &mut Block<L>, at: usize, offset: usize) -> L
    requires below { at + offset < size_of block.old }
    requires leaf { item_kind_at block.old (at + offset) ≡ ItemKind.Leaf }
    ensures value { item_at block.old (at + offset) ≡ Some (Leaf result) }
    ensures empties { block.new ≡ with_item block.old (at + offset) None }
{
    PtrMut::new(block, at).field(offset).read()
}
