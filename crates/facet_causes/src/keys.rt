ghost use Rattle.std.specs.Prelude.{◌≡◌, ◌++◌, ◌↔◌, ◌<◌, ◌≤◌, ◌^◌, [], IfErr, IfOk, IsTrue, OnOk, length, slice_get, vec_len};
ghost use Rattle.std.specs.Option.{option_map_or, option_to_list};
ghost use Rattle.facet_causes.specs.Causes.{Meets};
ghost use Rattle.facet_causes.specs.First.{Explains, NoneBefore, NoneOfFirst};
ghost use Rattle.facet_causes.specs.KeyNotOrd.{keys_of};
ghost use Rattle.facet_causes.specs.Reading.{indices, lacks_order, parts_at};
ghost use Rattle.facet_graph.specs.Least.{IsLeast};
ghost use Rattle.facet_graph.specs.Marks.{AreClean};

use crate::cause::{SealCause, SealFault};
use crate::edges::Parts;
use crate::reading::kind_in;
use crate::refuse::refuse;
use crate::shape_list::ShapeList;
use facet_base::ShapeId;
use facet_graph::reaches_bad;
use facet_leaf::Leaf;
use facet_outline::key_of_kind;
use std::alloc::{AllocError, Global};

/// Lengthens the marks to all shapes, and refuses the least map or set whose keys or items have no order.
pub fn refuse_key<L: Leaf>(
    alloc: Global,
    shapes: &ShapeList,
    sealed: usize,
    ordered: &mut Vec<bool>,
) -> Result<(), SealFault>
    requires few { length shapes.now ≤ 2 ^ 32 }
    requires none_before { NoneBefore L.model shapes.now SealCause.KeyNotOrd }
    requires sealed { NoneOfFirst L.model shapes.now sealed }
    requires fits { vec_len ordered.old ≤ length shapes.now }
    requires clean { AreClean (parts_at shapes.now) (lacks_order shapes.now) ordered.old.items }
    ensures ok { OnOk result (NoneBefore L.model shapes.now SealCause.CapabilityMissing) }
    ensures len { OnOk result (vec_len ordered.new ≡ length shapes.now) }
    ensures longer { vec_len ordered.old ≤ vec_len ordered.new }
    ensures clean { AreClean (parts_at shapes.now) (lacks_order shapes.now) ordered.new.items }
    ensures refused { IfErr result (Explains L.model shapes.now) }
{
    ordered.resize(shapes.len(), false)?;
    let found = first_key_without_order::<L>(alloc, shapes, sealed, ordered)?;
    refuse::<L>(shapes, SealCause::KeyNotOrd, found)
}

// The least map or set from whose key or item a shape without an order is reached, and None where there is none. No
// shape before `sealed` is one. Shapes from which none is reached are marked, those before `sealed` whatever comes of
// the search, so over all of them each shape is looked at once.
fn first_key_without_order<L: Leaf>(
    alloc: Global,
    shapes: &ShapeList,
    sealed: usize,
    ordered: &mut Vec<bool>,
) -> Result<Option<usize>, AllocError>
    requires none_before { NoneBefore L.model shapes.now SealCause.KeyNotOrd }
    requires sealed { NoneOfFirst L.model shapes.now sealed }
    requires len { vec_len ordered.old ≡ length shapes.now }
    requires clean { AreClean (parts_at shapes.now) (lacks_order shapes.now) ordered.old.items }
    ensures found { IfOk result (IsLeast (Meets L.model shapes.now SealCause.KeyNotOrd) (length shapes.now)) }
    ensures clean { AreClean (parts_at shapes.now) (lacks_order shapes.now) ordered.new.items }
    ensures len { vec_len ordered.new ≡ vec_len ordered.old }
{
    for s in sealed..shapes.len() {
        if has_key_without_order::<L>(alloc, shapes, sealed, s, ordered)? {
            return Ok(Some(s));
        }
    }
    Ok(None)
}

// Whether the shape under an id is a map or a set from whose key or item a shape without an order is reached.
fn has_key_without_order<L: Leaf>(
    alloc: Global,
    shapes: &ShapeList,
    sealed: usize,
    s: usize,
    ordered: &mut Vec<bool>,
) -> Result<bool, AllocError>
    requires none_before { NoneBefore L.model shapes.now SealCause.KeyNotOrd }
    requires len { vec_len ordered.old ≡ length shapes.now }
    requires clean { AreClean (parts_at shapes.now) (lacks_order shapes.now) ordered.old.items }
    ensures met { IfOk result (λ met. IsTrue met ↔ Meets L.model shapes.now SealCause.KeyNotOrd s) }
    ensures clean { AreClean (parts_at shapes.now) (lacks_order shapes.now) ordered.new.items }
    ensures len { vec_len ordered.new ≡ vec_len ordered.old }
{
    let mut starts = Vec::new(alloc);
    push_keys(shapes, s, &mut starts)?;
    reaches_bad(alloc, &Parts { alloc, shapes }, sealed, starts, ordered)
}

// Adds the key of a map or the item of a set, if the shape under an id is one.
fn push_keys(shapes: &ShapeList, s: usize, to: &mut Vec<usize>) -> Result<(), AllocError>
    ensures { OnOk result (to.new.items ≡ to.old.items ++ indices (option_map_or (keys_of shapes.now) (slice_get shapes.now s) [])) }
{
    match shapes.get(s) {
        Some(shape) => push_key(key_of_kind(kind_in(shapes, shape), &shape.def), to),
        None => Ok(()),
    }
}

// Adds the index of a key, if there is one.
fn push_key(key: Option<ShapeId>, to: &mut Vec<usize>) -> Result<(), AllocError>
    ensures { OnOk result (to.new.items ≡ to.old.items ++ indices (option_to_list key)) }
{
    match key {
        Some(id) => {
            to.push(id.0 as usize)?;
            Ok(())
        }
        None => Ok(()),
    }
}
