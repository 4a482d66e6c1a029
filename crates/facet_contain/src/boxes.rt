ghost use Rattle.std.specs.Prelude.{◌≡◌, ◌<◌, length, slice_get, Some};
ghost use Rattle.facet_contain.specs.Parts.{LeadsToValue, Points, part_shape, parts_of};
ghost use Rattle.facet_outline.specs.declared.value_kind.ValueKind.TheVariants as ValueKind;
ghost use Rattle.facet_registry.specs.Registry.{kind_at};
ghost use Rattle.facet_trees.specs.Value.{Value};
ghost use Rattle.facet_trees.specs.declared.form.Form.TheVariants as Form;
ghost use Rattle.facet_values.specs.Reading.{IsReadable, Reads};
ghost use Rattle.facet_walk.specs.Look.{pointed};

use crate::parts::start_in;
use facet_base::ShapeId;
use facet_block::PtrConst;
use facet_leaf::Leaf;
use facet_registry::Shapes;

/// What a box holds. Requires that the shape is sealed and a box, and the place holds a value of it.
pub fn borrow<'a, L: Leaf>(shapes: &Shapes<L>, s: ShapeId, p: PtrConst<'a, L>) -> PtrConst<'a, L>
    requires sealed { s.0 < length shapes.now.sealed }
    requires kind { kind_at shapes.now.sealed s.0 ≡ ValueKind.Box }
    requires readable { IsReadable L.model shapes.now.sealed (pointed s p) }
    ensures part { (v : Value L) → Reads L.model shapes.now.sealed (pointed s p.entry) v
        → Points L.model shapes.now.sealed (part_shape shapes.now.sealed s.0 Form.Box 0) (slice_get (parts_of v) 0) (Some result) }
    ensures readable { LeadsToValue L.model shapes.now.sealed (part_shape shapes.now.sealed s.0 Form.Box 0) result }
{
    // proof: no sealed shape meets a cause
    let _sealed = shapes.sealed();
    match start_in(p.seq(), 0) {
        Some(content) => content,
        None => unreachable!(),
    }
}
