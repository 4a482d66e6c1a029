ghost use Rattle.std.specs.Prelude.{◌≡◌, ◌<◌, IfSome, length, true};
ghost use Rattle.std.specs.Option.{is_some};
ghost use Rattle.facet_base.specs.declared.characteristic.Characteristic.TheVariants as trait;
ghost use Rattle.facet_causes.specs.Causes.{IsWellFormed};
ghost use Rattle.facet_compare.specs.Hash.{form_writes, hash_writes};
ghost use Rattle.facet_compare.specs.HashedPlaces.{hash_writes_at, hash_writes_of_places};
ghost use Rattle.facet_compare.specs.Leaves.{IsOfLeaves};
ghost use Rattle.facet_leaf.specs.hashing.HashWrite.{fed_all};
ghost use Rattle.facet_registry.specs.Registry.{offers};
ghost use Rattle.facet_trees.specs.Value.{Value};
ghost use Rattle.facet_values.specs.Reading.{IsReadable, IsReadableWithin, Reads};
ghost use Rattle.facet_walk.specs.Look.{AreReadable, place_of, places_of, pointed};

use crate::leaves::{is_known, leaves_among};
use crate::look::see_value;
use crate::ranks::rank_of;
use facet_base::{Characteristic, ShapeId};
use facet_block::PtrConst;
use facet_leaf::{HashSink, Leaf};
use facet_registry::Shapes;
use facet_trees::Form;
use facet_walk::{MAX_LEVELS, Parts, Place, Seen};

/// Feeds a sink with the hash writes of the value at a place. None where its shape, or that of a part, has no hash; the
/// writes before that part were made. Requires that the shape is sealed and the place holds a value of it.
pub fn call_hash<L: Leaf, H: HashSink>(
    shapes: &Shapes<L>,
    s: ShapeId,
    p: PtrConst<L>,
    hasher: &mut H,
) -> Option<()>
    requires sealed { s.0 < length shapes.now.sealed }
    requires readable { IsReadable L.model shapes.now.sealed (pointed s p) }
    ensures writes { (v : Value L) → Reads L.model shapes.now.sealed (pointed s p.entry) v
        → hasher.new ≡ fed_all H.fed hasher.old (hash_writes L.model shapes.now.sealed s.0 v).writes }
    ensures finished { (v : Value L) → Reads L.model shapes.now.sealed (pointed s p.entry) v
        → is_some result ≡ (hash_writes L.model shapes.now.sealed s.0 v).finished }
{
    // proof: no sealed shape meets a cause
    let _sealed = shapes.sealed();
    let place = Place { shape: s, at: p };
    if hash_at(shapes, None, place, hasher, MAX_LEVELS) {
        return Some(());
    }
    None
}

// Feeds a sink with the writes of the value at a place, and says whether these are all, without a look at the shape where
// it is the given one, whose leaves have a hash.
#[cycle(hash)]
fn hash_at<L: Leaf, H: HashSink>(
    shapes: &Shapes<L>,
    leaves: Option<ShapeId>,
    place: Place<L>,
    hasher: &mut H,
    levels: u32,
) -> bool
    requires well_formed { IsWellFormed L.model shapes.now.sealed }
    requires sealed { place.shape.0 < length shapes.now.sealed }
    requires readable { IsReadableWithin L.model shapes.now.sealed levels (place_of place) }
    requires leaves { IfSome leaves (λ known. IsOfLeaves shapes.now.sealed known.0) }
    requires offered { IfSome leaves (λ known. offers shapes.now.sealed known.0 trait.Hash ≡ true) }
    ensures writes { hasher.new ≡ fed_all H.fed hasher.old (hash_writes_at L.model shapes.now.sealed levels (place_of place.entry)).writes }
    ensures finished { result ≡ (hash_writes_at L.model shapes.now.sealed levels (place_of place.entry)).finished }
{
    if !has_hash(shapes, leaves, place.shape) {
        return false;
    }
    match see_value(shapes, leaves, place) {
        Seen::Leaf(leaf) => {
            leaf.hash_into(hasher);
            true
        }
        Seen::Node(form, parts) => {
            write_form(shapes, place.shape, form, hasher);
            hash_parts(shapes, parts, hasher, levels - 1)
        }
    }
}

// Whether the record of a shape has a hash. It has one where the shape is the given one, whose leaves have it.
fn has_hash<L: Leaf>(shapes: &Shapes<L>, leaves: Option<ShapeId>, id: ShapeId) -> bool
    requires sealed { id.0 < length shapes.now.sealed }
    requires offered { IfSome leaves (λ known. offers shapes.now.sealed known.0 trait.Hash ≡ true) }
    ensures { result ≡ offers shapes.now.sealed id.0 trait.Hash }
{
    is_known(leaves, id) || shapes.offers(id, Characteristic::Hash)
}

// Feeds a sink with what is written of a form before its parts.
fn write_form<L: Leaf, H: HashSink>(shapes: &Shapes<L>, id: ShapeId, form: Form, hasher: &mut H)
    requires { id.0 < length shapes.now.sealed }
    ensures { hasher.new ≡ fed_all H.fed hasher.old (form_writes L.model shapes.now.sealed id.0 form) }
{
    match form {
        Form::Variant(_) => hasher.write_i64(rank_of(shapes, id, form)),
        Form::Absent | Form::Ok => hasher.write_u8(0),
        Form::Present | Form::Err => hasher.write_u8(1),
        Form::Unit | Form::Record | Form::Array => {}
        Form::List | Form::BoxedSlice | Form::Map | Form::Set | Form::Box => {}
    }
}

// Feeds a sink with the writes of the values at some places, one after another up to the first without a hash, and says
// whether these are all.
#[cycle(hash)]
fn hash_parts<L: Leaf, H: HashSink>(
    shapes: &Shapes<L>,
    parts: Parts<L>,
    hasher: &mut H,
    levels: u32,
) -> bool
    requires well_formed { IsWellFormed L.model shapes.now.sealed }
    requires readable { AreReadable L.model shapes.now.sealed levels (places_of parts) }
    ensures writes { hasher.new ≡ fed_all H.fed hasher.old (hash_writes_of_places L.model shapes.now.sealed levels (places_of parts.entry)).writes }
    ensures finished { result ≡ (hash_writes_of_places L.model shapes.now.sealed levels (places_of parts.entry)).finished }
{
    let leaves = leaves_among(shapes, parts, Characteristic::Hash, levels);
    for i in 0..parts.len() {
        if !hash_at(shapes, leaves, parts.part(i), hasher, levels) {
            return false;
        }
    }
    true
}
