ghost use Rattle.std.specs.Prelude.{◌≡◌, ◌<◌, ◌≤◌, ◌⊎◌, length, OnOk, OnErr};
ghost use Rattle.facet_trees.specs.Value.{Value, leaves};
ghost use Rattle.facet_values.specs.Reading.{IsReadable, Reads};
ghost use Rattle.facet_walk.specs.Look.{pointed};

use facet_base::ShapeId;
use facet_block::{DropLog, PtrConst};
use facet_leaf::Leaf;
use facet_registry::Shapes;
use facet_walk::leaf_count;
use std::alloc::AllocError;

/// Makes room in the log for the leaves of the value at a place. The log's leaves stay, also after an error, and its
/// spare never falls. An error comes only when out of memory, or where the leaves are as many as the greatest `usize`.
/// Requires that the shape is sealed and the place holds a value of it.
pub fn make_room_for<L: Leaf>(
    shapes: &Shapes<L>,
    s: ShapeId,
    p: PtrConst<L>,
    log: &mut DropLog<L>,
) -> Result<(), AllocError>
    requires sealed { s.0 < length shapes.now.sealed }
    requires readable { IsReadable L.model shapes.now.sealed (pointed s p) }
    ensures leaves { log.new.leaves ≡ log.old.leaves }
    ensures spare { log.old.spare ≤ log.new.spare }
    ensures ok { OnOk result ((v : Value L) → Reads L.model shapes.now.sealed (pointed s p.entry) v → length (leaves v) ≤ log.new.spare) }
    ensures err { OnErr result ((v : Value L) → Reads L.model shapes.now.sealed (pointed s p.entry) v
        → (log.old.spare < length (leaves v)) ⊎ (usize.MAX ≤ length (leaves v))) }
{
    let count = leaf_count(shapes, s, p);
    if count == usize::MAX {
        return Err(AllocError);
    }
    log.make_room(count)
}
