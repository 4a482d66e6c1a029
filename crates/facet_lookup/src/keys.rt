ghost use Rattle.std.specs.Prelude.{◌≡◌, ◌<◌, length};
ghost use Rattle.facet_lookup.specs.Find.{HasKeys, RisesByHalving, found_among, key_shape, keys_in};
ghost use Rattle.facet_trees.specs.Value.{Value};
ghost use Rattle.facet_values.specs.Place.{place_in};
ghost use Rattle.facet_values.specs.Reading.{IsReadable, Reads};
ghost use Rattle.facet_walk.specs.Look.{pointed};

use crate::definitions::key_shape;
use crate::search::find_among;
use facet_base::ShapeId;
use facet_block::PtrConst;
use facet_leaf::Leaf;
use facet_registry::Shapes;
use facet_steps::Steps;
use std::sync::ledger::Ledger;

/// Looks a key of a map or an item of a set up: Ok with the index of the equal one, or Err with the index where it would
/// stand, which is how many are less. A step is one comparison of keys. Requires that the shape is sealed and a map or a
/// set, the place holds a value of it, and the key's place one of the shape of the keys.
pub fn find_key<L: Leaf, G: Ledger>(
    shapes: &Shapes<L>,
    s: ShapeId,
    p: PtrConst<L>,
    key: PtrConst<L>,
    steps: &mut Steps<G>,
) -> Result<usize, usize>
    requires sealed { s.0 < length shapes.now.sealed }
    requires kind { HasKeys shapes.now.sealed s.0 }
    requires readable { IsReadable L.model shapes.now.sealed (pointed s p) }
    requires key { IsReadable L.model shapes.now.sealed (place_in (key_shape shapes.now.sealed s.0) key.block.now key.offset) }
    ensures found { (v k : Value L) → Reads L.model shapes.now.sealed (pointed s p.entry) v
        → Reads L.model shapes.now.sealed (place_in (key_shape shapes.now.sealed s.0) key.entry.block.now key.entry.offset) k
        → result ≡ found_among L.model shapes.now.sealed (key_shape shapes.now.sealed s.0) k (keys_in v) }
    ensures steps { (v : Value L) → Reads L.model shapes.now.sealed (pointed s p.entry) v → RisesByHalving (length (keys_in v)) steps.old steps.new }
{
    // proof: no sealed shape meets a cause
    let _sealed = shapes.sealed();
    find_among(shapes, key_shape(shapes, s), p.seq(), key, steps)
}
