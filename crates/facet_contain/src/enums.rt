ghost use Rattle.std.specs.Prelude.{◌≡◌, ◌<◌, length, Some};
ghost use Rattle.facet_contain.specs.Parts.{variant_in};
ghost use Rattle.facet_outline.specs.declared.value_kind.ValueKind.TheVariants as ValueKind;
ghost use Rattle.facet_registry.specs.Registry.{kind_at};
ghost use Rattle.facet_trees.specs.Value.{Value};
ghost use Rattle.facet_values.specs.Reading.{IsReadable, Reads};
ghost use Rattle.facet_walk.specs.Look.{pointed};

use facet_base::ShapeId;
use facet_block::PtrConst;
use facet_leaf::Leaf;
use facet_registry::Shapes;

/// The index of the variant that a value of an enum is of. Requires that the shape is sealed and an enum, and the place
/// holds a value of it.
pub fn variant_of<L: Leaf>(shapes: &Shapes<L>, s: ShapeId, p: PtrConst<L>) -> u32
    requires sealed { s.0 < length shapes.now.sealed }
    requires kind { kind_at shapes.now.sealed s.0 ≡ ValueKind.Enum }
    requires readable { IsReadable L.model shapes.now.sealed (pointed s p) }
    ensures { (v : Value L) → Reads L.model shapes.now.sealed (pointed s p.entry) v → variant_in v ≡ Some result }
{
    p.tag()
}
