ghost use Rattle.std.specs.Prelude.{◌≡◌, ◌<◌, length, slice_get, suc, ◌*◌, IfSome, Some};
ghost use Rattle.facet_contain.specs.Parts.{LeadsToValue, Points, part_shape, parts_of};
ghost use Rattle.facet_lookup.specs.Find.{RisesByHalving, found_among, has_key, key_shape, keys_in, value_found};
ghost use Rattle.facet_outline.specs.declared.value_kind.ValueKind.TheVariants as ValueKind;
ghost use Rattle.facet_registry.specs.Registry.{kind_at};
ghost use Rattle.facet_trees.specs.Value.{Value};
ghost use Rattle.facet_trees.specs.declared.form.Form.TheVariants as Form;
ghost use Rattle.facet_values.specs.Place.{place_in};
ghost use Rattle.facet_values.specs.Reading.{IsReadable, Reads};
ghost use Rattle.facet_walk.specs.Look.{pointed};

use crate::keys::find_key;
use facet_base::ShapeId;
use facet_block::PtrConst;
use facet_leaf::Leaf;
use facet_registry::Shapes;
use facet_steps::Steps;
use std::sync::ledger::Ledger;

/// Whether a map has a key. Requires that the shape is sealed and a map, the place holds a value of it, and the key's
/// place one of the shape of the keys.
pub fn map_contains_key<L: Leaf, G: Ledger>(
    shapes: &Shapes<L>,
    s: ShapeId,
    p: PtrConst<L>,
    key: PtrConst<L>,
    steps: &mut Steps<G>,
) -> bool
    requires sealed { s.0 < length shapes.now.sealed }
    requires kind { kind_at shapes.now.sealed s.0 ≡ ValueKind.Map }
    requires readable { IsReadable L.model shapes.now.sealed (pointed s p) }
    requires key { IsReadable L.model shapes.now.sealed (place_in (key_shape shapes.now.sealed s.0) key.block.now key.offset) }
    ensures found { (v k : Value L) → Reads L.model shapes.now.sealed (pointed s p.entry) v
        → Reads L.model shapes.now.sealed (place_in (key_shape shapes.now.sealed s.0) key.entry.block.now key.entry.offset) k
        → result ≡ has_key L.model shapes.now.sealed (key_shape shapes.now.sealed s.0) k (keys_in v) }
    ensures steps { (v : Value L) → Reads L.model shapes.now.sealed (pointed s p.entry) v → RisesByHalving (length (keys_in v)) steps.old steps.new }
{
    match find_key(shapes, s, p, key, steps) {
        Ok(_) => true,
        Err(_) => false,
    }
}

/// Whether a set has an item. Requires that the shape is sealed and a set, the place holds a value of it, and the item's
/// place one of the shape of the items.
pub fn set_contains<L: Leaf, G: Ledger>(
    shapes: &Shapes<L>,
    s: ShapeId,
    p: PtrConst<L>,
    item: PtrConst<L>,
    steps: &mut Steps<G>,
) -> bool
    requires sealed { s.0 < length shapes.now.sealed }
    requires kind { kind_at shapes.now.sealed s.0 ≡ ValueKind.Set }
    requires readable { IsReadable L.model shapes.now.sealed (pointed s p) }
    requires item { IsReadable L.model shapes.now.sealed (place_in (key_shape shapes.now.sealed s.0) item.block.now item.offset) }
    ensures found { (v k : Value L) → Reads L.model shapes.now.sealed (pointed s p.entry) v
        → Reads L.model shapes.now.sealed (place_in (key_shape shapes.now.sealed s.0) item.entry.block.now item.entry.offset) k
        → result ≡ has_key L.model shapes.now.sealed (key_shape shapes.now.sealed s.0) k (keys_in v) }
    ensures steps { (v : Value L) → Reads L.model shapes.now.sealed (pointed s p.entry) v → RisesByHalving (length (keys_in v)) steps.old steps.new }
{
    match find_key(shapes, s, p, item, steps) {
        Ok(_) => true,
        Err(_) => false,
    }
}

/// The value of a key of a map, and None exactly where the map has no such key. Requires that the shape is sealed and a
/// map, the place holds a value of it, and the key's place one of the shape of the keys.
pub fn map_get_value_ptr<'a, L: Leaf, G: Ledger>(
    shapes: &Shapes<L>,
    s: ShapeId,
    p: PtrConst<'a, L>,
    key: PtrConst<L>,
    steps: &mut Steps<G>,
) -> Option<PtrConst<'a, L>>
    requires sealed { s.0 < length shapes.now.sealed }
    requires kind { kind_at shapes.now.sealed s.0 ≡ ValueKind.Map }
    requires readable { IsReadable L.model shapes.now.sealed (pointed s p) }
    requires key { IsReadable L.model shapes.now.sealed (place_in (key_shape shapes.now.sealed s.0) key.block.now key.offset) }
    ensures part { (v k : Value L) → Reads L.model shapes.now.sealed (pointed s p.entry) v
        → Reads L.model shapes.now.sealed (place_in (key_shape shapes.now.sealed s.0) key.entry.block.now key.entry.offset) k
        → Points L.model shapes.now.sealed (part_shape shapes.now.sealed s.0 Form.Map 1)
        (value_found (found_among L.model shapes.now.sealed (key_shape shapes.now.sealed s.0) k (keys_in v)) v) result }
    ensures readable { IfSome result (LeadsToValue L.model shapes.now.sealed (part_shape shapes.now.sealed s.0 Form.Map 1)) }
    ensures steps { (v : Value L) → Reads L.model shapes.now.sealed (pointed s p.entry) v → RisesByHalving (length (keys_in v)) steps.old steps.new }
{
    // proof: no sealed shape meets a cause
    let _sealed = shapes.sealed();
    match find_key(shapes, s, p, key, steps) {
        Ok(i) => Some(value_in(shapes, s, p, i)),
        Err(_) => None,
    }
}

// The value in pair `i` of a map.
fn value_in<'a, L: Leaf>(
    shapes: &Shapes<L>,
    s: ShapeId,
    p: PtrConst<'a, L>,
    i: usize,
) -> PtrConst<'a, L>
    requires sealed { s.0 < length shapes.now.sealed }
    requires kind { kind_at shapes.now.sealed s.0 ≡ ValueKind.Map }
    requires readable { IsReadable L.model shapes.now.sealed (pointed s p) }
    requires below { (v : Value L) → Reads L.model shapes.now.sealed (pointed s p) v → i < length (keys_in v) }
    ensures part { (v : Value L) → Reads L.model shapes.now.sealed (pointed s p.entry) v
        → Points L.model shapes.now.sealed (part_shape shapes.now.sealed s.0 Form.Map 1) (slice_get (parts_of v) (suc (2 * i))) (Some result) }
    ensures readable { LeadsToValue L.model shapes.now.sealed (part_shape shapes.now.sealed s.0 Form.Map 1) result }
{
    // proof: no sealed shape meets a cause
    let _sealed = shapes.sealed();
    match p.seq().get(i) {
        Some(block) => PtrConst::new(block, shapes.pair_value_offset(s)),
        None => unreachable!(),
    }
}
