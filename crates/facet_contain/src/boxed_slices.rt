ghost use Rattle.std.specs.Prelude.{◌≡◌, ◌<◌, length, slice_get, IfSome};
ghost use Rattle.facet_contain.specs.Parts.{LeadsToValue, Points, part_shape, parts_of};
ghost use Rattle.facet_outline.specs.declared.value_kind.ValueKind.TheVariants as ValueKind;
ghost use Rattle.facet_registry.specs.Registry.{kind_at};
ghost use Rattle.facet_trees.specs.Value.{Value};
ghost use Rattle.facet_trees.specs.declared.form.Form.TheVariants as Form;
ghost use Rattle.facet_values.specs.Reading.{IsReadable, Reads};
ghost use Rattle.facet_walk.specs.Look.{pointed};

use crate::parts::start_in;
use facet_base::ShapeId;
use facet_block::PtrConst;
use facet_leaf::Leaf;
use facet_registry::Shapes;

/// The number of elements of a boxed slice. Requires that the shape is sealed and a boxed slice, and the place holds a
/// value of it.
pub fn slice_len<L: Leaf>(shapes: &Shapes<L>, s: ShapeId, p: PtrConst<L>) -> usize
    requires sealed { s.0 < length shapes.now.sealed }
    requires kind { kind_at shapes.now.sealed s.0 ≡ ValueKind.BoxedSlice }
    requires readable { IsReadable L.model shapes.now.sealed (pointed s p) }
    ensures { (v : Value L) → Reads L.model shapes.now.sealed (pointed s p.entry) v → result ≡ length (parts_of v) }
{
    p.seq().len()
}

/// Element `i` of a boxed slice, and None exactly at or above the length. Requires that the shape is sealed and a boxed
/// slice, and the place holds a value of it.
pub fn slice_get<'a, L: Leaf>(
    shapes: &Shapes<L>,
    s: ShapeId,
    p: PtrConst<'a, L>,
    i: usize,
) -> Option<PtrConst<'a, L>>
    requires sealed { s.0 < length shapes.now.sealed }
    requires kind { kind_at shapes.now.sealed s.0 ≡ ValueKind.BoxedSlice }
    requires readable { IsReadable L.model shapes.now.sealed (pointed s p) }
    ensures part { (v : Value L) → Reads L.model shapes.now.sealed (pointed s p.entry) v
        → Points L.model shapes.now.sealed (part_shape shapes.now.sealed s.0 Form.BoxedSlice i) (slice_get (parts_of v) i) result }
    ensures readable { IfSome result (LeadsToValue L.model shapes.now.sealed (part_shape shapes.now.sealed s.0 Form.BoxedSlice i)) }
{
    // proof: no sealed shape meets a cause
    let _sealed = shapes.sealed();
    start_in(p.seq(), i)
}
