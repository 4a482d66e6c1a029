ghost use Rattle.std.specs.Prelude.{◌≡◌, ◌<◌, length, IfSome};
ghost use Rattle.facet_block.specs.PtrUninit.{place_of};
ghost use Rattle.facet_block.specs.Span.{IsChanged, IsCleared, IsVacant, span};
ghost use Rattle.facet_contain.specs.Parts.{LeadsToValue, Points, first_part_if, is_present, part_shape};
ghost use Rattle.facet_outline.specs.declared.value_kind.ValueKind.TheVariants as ValueKind;
ghost use Rattle.facet_registry.specs.Registry.{kind_at, size_at};
ghost use Rattle.facet_trees.specs.Value.{Value, more, node, none};
ghost use Rattle.facet_trees.specs.declared.form.Form.TheVariants as Form;
ghost use Rattle.facet_values.specs.Place.{place_in};
ghost use Rattle.facet_values.specs.Reading.{IsReadable, Reads};
ghost use Rattle.facet_walk.specs.Look.{pointed};

use crate::definitions::option_part;
use crate::destinations::{put_tag, put_tag_and_move};
use crate::parts::behind_tag;
use facet_base::ShapeId;
use facet_block::{PtrConst, PtrMut, PtrUninit};
use facet_leaf::Leaf;
use facet_registry::Shapes;

/// Whether an option holds a value. Requires that the shape is sealed and an option, and the place holds a value of it.
pub fn is_some<L: Leaf>(shapes: &Shapes<L>, s: ShapeId, p: PtrConst<L>) -> bool
    requires sealed { s.0 < length shapes.now.sealed }
    requires kind { kind_at shapes.now.sealed s.0 ≡ ValueKind.Option }
    requires readable { IsReadable L.model shapes.now.sealed (pointed s p) }
    ensures { (v : Value L) → Reads L.model shapes.now.sealed (pointed s p.entry) v → result ≡ is_present v }
{
    p.tag() == 1
}

/// The value that an option holds, and None exactly where it holds none. Requires that the shape is sealed and an
/// option, and the place holds a value of it.
pub fn get_value<'a, L: Leaf>(
    shapes: &Shapes<L>,
    s: ShapeId,
    p: PtrConst<'a, L>,
) -> Option<PtrConst<'a, L>>
    requires sealed { s.0 < length shapes.now.sealed }
    requires kind { kind_at shapes.now.sealed s.0 ≡ ValueKind.Option }
    requires readable { IsReadable L.model shapes.now.sealed (pointed s p) }
    ensures part { (v : Value L) → Reads L.model shapes.now.sealed (pointed s p.entry) v
        → Points L.model shapes.now.sealed (part_shape shapes.now.sealed s.0 Form.Present 0) (first_part_if (is_present v) v) result }
    ensures readable { IfSome result (LeadsToValue L.model shapes.now.sealed (part_shape shapes.now.sealed s.0 Form.Present 0)) }
{
    // proof: no sealed shape meets a cause
    let _sealed = shapes.sealed();
    if is_some(shapes, s, p) {
        return Some(behind_tag(shapes, s, p));
    }
    None
}

/// Makes the option that is None, in an empty range. Requires that the shape is sealed and an option.
pub fn init_none<L: Leaf>(shapes: &Shapes<L>, s: ShapeId, dst: &mut PtrUninit<'_, L>)
    requires sealed { s.0 < length shapes.now.sealed }
    requires kind { kind_at shapes.now.sealed s.0 ≡ ValueKind.Option }
    requires vacant { IsVacant (place_of dst.old).block.now (span (place_of dst.old).offset (size_at shapes.now.sealed s.0)) }
    ensures same_reference { (place_of dst.new).block.ghost_name ≡ (place_of dst.old).block.ghost_name }
    ensures same_offset { (place_of dst.new).offset ≡ (place_of dst.old).offset }
    ensures made { Reads L.model shapes.now.sealed (place_in s.0 (place_of dst.new).block.now (place_of dst.old).offset) (node Form.Absent none) }
    ensures elsewhere { IsChanged (place_of dst.old).block.now (place_of dst.new).block.now (span (place_of dst.old).offset (size_at shapes.now.sealed s.0)) }
{
    // proof: the registry says that an option has a byte for its tag
    let _sealed = shapes.sealed();
    put_tag(dst, 0);
}

/// Makes the option that holds a value, in an empty range. The value is moved there, and leaves its own range empty.
/// Requires that the shape is sealed and an option, and a value of its part lies at the place.
pub fn init_some<L: Leaf>(
    shapes: &Shapes<L>,
    s: ShapeId,
    dst: &mut PtrUninit<'_, L>,
    value: PtrMut<'_, L>,
)
    requires sealed { s.0 < length shapes.now.sealed }
    requires kind { kind_at shapes.now.sealed s.0 ≡ ValueKind.Option }
    requires vacant { IsVacant (place_of dst.old).block.now (span (place_of dst.old).offset (size_at shapes.now.sealed s.0)) }
    requires readable { IsReadable L.model shapes.now.sealed (place_in (part_shape shapes.now.sealed s.0 Form.Present 0) value.block.now value.offset) }
    ensures same_reference { (place_of dst.new).block.ghost_name ≡ (place_of dst.old).block.ghost_name }
    ensures same_offset { (place_of dst.new).offset ≡ (place_of dst.old).offset }
    ensures made { (v : Value L) → Reads L.model shapes.now.sealed (place_in (part_shape shapes.now.sealed s.0 Form.Present 0) value.entry.block.now value.entry.offset) v
        → Reads L.model shapes.now.sealed (place_in s.0 (place_of dst.new).block.now (place_of dst.old).offset) (node Form.Present (more v none)) }
    ensures elsewhere { IsChanged (place_of dst.old).block.now (place_of dst.new).block.now (span (place_of dst.old).offset (size_at shapes.now.sealed s.0)) }
    ensures moved { IsCleared value.entry.block.now value.exit.0.now (span value.entry.offset (size_at shapes.now.sealed (part_shape shapes.now.sealed s.0 Form.Present 0))) }
{
    // proof: the registry says that the part lies inside, beside the tag
    let _sealed = shapes.sealed();
    let size = shapes.size_of(option_part(shapes, s));
    put_tag_and_move(dst, 1, shapes.part_offset(s), value, size);
}
