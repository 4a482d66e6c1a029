ghost use Rattle.std.specs.Prelude.{◌≡◌, ◌<◌, length};
ghost use Rattle.facet_contain.specs.Parts.{parts_of};
ghost use Rattle.facet_outline.specs.declared.value_kind.ValueKind.TheVariants as ValueKind;
ghost use Rattle.facet_registry.specs.Registry.{kind_at};
ghost use Rattle.facet_trees.specs.Value.{Value};
ghost use Rattle.facet_values.specs.Reading.{IsReadable, Reads};
ghost use Rattle.facet_walk.specs.Look.{pointed};

use facet_base::ShapeId;
use facet_block::PtrConst;
use facet_leaf::Leaf;
use facet_registry::Shapes;

/// The number of items of a set. Requires that the shape is sealed and a set, and the place holds a value of it.
pub fn set_len_of<L: Leaf>(shapes: &Shapes<L>, s: ShapeId, p: PtrConst<L>) -> usize
    requires sealed { s.0 < length shapes.now.sealed }
    requires kind { kind_at shapes.now.sealed s.0 ≡ ValueKind.Set }
    requires readable { IsReadable L.model shapes.now.sealed (pointed s p) }
    ensures { (v : Value L) → Reads L.model shapes.now.sealed (pointed s p.entry) v → result ≡ length (parts_of v) }
{
    p.seq().len()
}
