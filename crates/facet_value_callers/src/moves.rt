ghost use Rattle.std.specs.Prelude.{◌≡◌, ◌+◌, ◌<◌, ◌≤◌, length};
ghost use Rattle.facet_block.specs.Block.{moved_in, moved_out, size_of};
ghost use Rattle.facet_block.specs.Span.{IsCleared, IsVacant, span};
ghost use Rattle.facet_registry.specs.Registry.{size_at};
ghost use Rattle.facet_trees.specs.Value.{Value};
ghost use Rattle.facet_values.specs.Place.{place_in};
ghost use Rattle.facet_values.specs.Reading.{IsReadable, Reads};

use facet_base::ShapeId;
use facet_block::{Block, PtrMut, PtrUninit};
use facet_leaf::Leaf;
use facet_registry::Shapes;

/// Moves the value at a place of one block to an empty range of another.
pub fn move_value<L: Leaf>(
    shapes: &Shapes<L>,
    id: ShapeId,
    source: &mut Block<L>,
    from: usize,
    target: &mut Block<L>,
    at: usize,
)
    requires sealed { id.0 < length shapes.now.sealed }
    requires readable { IsReadable L.model shapes.now.sealed (place_in id.0 source.old from) }
    requires vacant { IsVacant target.old (span at (size_at shapes.now.sealed id.0)) }
    ensures reads { (v : Value L) → Reads L.model shapes.now.sealed (place_in id.0 source.old from) v
        → Reads L.model shapes.now.sealed (place_in id.0 target.new at) v }
    ensures cleared { IsCleared source.old source.new (span from (size_at shapes.now.sealed id.0)) }
{
    // proof: the registry says that the parts of values lie inside.
    let _sealed = shapes.sealed();
    let size = shapes.size_of(id);
    move_bytes(source, from, target, at, size);
}

// Moves the items in so many bytes of one block to an empty range of another.
fn move_bytes<L: Drop>(
    source: &mut Block<L>,
    from: usize,
    target: &mut Block<L>,
    at: usize,
    size: usize,
)
    requires source_inside { from + size ≤ size_of source.old }
    requires vacant { IsVacant target.old (span at size) }
    ensures target { target.new ≡ moved_in target.old at source.old from size }
    ensures source { source.new ≡ moved_out source.old from size }
{
    PtrUninit::new(target, at).move_from(PtrMut::new(source, from), size);
}
