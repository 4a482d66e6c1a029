ghost use Rattle.std.specs.Prelude.{◌≡◌, ◌+◌, ◌-◌, ◌<◌, ◌≤◌, All, IfOk, IsTrue, None, OnErr, Some, length, map};
ghost use Rattle.facet_block.specs.Block.{item_at, item_kind_at, size_of, with_item};
ghost use Rattle.facet_block.specs.PtrUninit as uninit;
ghost use Rattle.facet_block.specs.Span.{IsVacant, span};
ghost use Rattle.facet_block.specs.declared.block.Item.{Tag};
ghost use Rattle.facet_block.specs.declared.block.ItemKind.TheVariants as kind;
ghost use Rattle.facet_causes.specs.Causes.{IsWellFormed};
ghost use Rattle.facet_make.specs.Clone.{clone_case};
ghost use Rattle.facet_make.specs.Cloning.{HasTag, part_clone};
ghost use Rattle.facet_make.specs.Exits.{After};
ghost use Rattle.facet_make.specs.Made.{in_order, node_of};
ghost use Rattle.facet_make.specs.Walk.{AfterOne, AfterParts, IsLeafPut, ranges_from};
ghost use Rattle.facet_registry.specs.Registry.{size_at};
ghost use Rattle.facet_trees.specs.Value.{Value, none};
ghost use Rattle.facet_trees.specs.declared.form.Form.TheVariants as form;
ghost use Rattle.facet_values.specs.Place.{LiesInBlock, part_places, place_in};
ghost use Rattle.facet_values.specs.Reading.{IsReadable, IsReadableWithin, Reads, value_at};
ghost use Rattle.facet_values.specs.Replaced.{body_at};
ghost use Rattle.facet_walk.specs.Look.{AreReadable, place_of, places_of, pointed};

use crate::cloning::{Cloning, cloning_of};
use crate::room::room_beyond;
use facet_base::{Characteristic, ShapeId};
use facet_block::{Block, DropLog, PtrConst, PtrMut, PtrUninit};
use facet_drop::drop_parts;
use facet_leaf::Leaf;
use facet_registry::Shapes;
use facet_walk::{MAX_LEVELS, Parts, Place, Seen, see};
use std::alloc::{AllocError, Global};

/// Makes the clone of the value at a place of a sealed shape at a vacant place. None, where the shape or a part of the
/// value has no clone, and an error, which comes only when out of memory, leave the block as before, and in the log the
/// leaves that were made and taken back, those of the part that stopped first. End the pointer with a call that takes it
/// by value, as `assume_init`.
pub fn call_clone_into<L: Leaf>(
    alloc: Global,
    shapes: &Shapes<L>,
    s: ShapeId,
    src: PtrConst<L>,
    dst: &mut PtrUninit<'_, L>,
    log: &mut DropLog<L>,
) -> Result<Option<()>, AllocError>
    requires sealed { s.0 < length shapes.now.sealed }
    requires readable { IsReadable L.model shapes.now.sealed (pointed s src) }
    requires vacant { IsVacant (uninit.place_of dst.old).block.now (span (uninit.place_of dst.old).offset (size_at shapes.now.sealed s.0)) }
    ensures same_reference { (uninit.place_of dst.new).block.ghost_name ≡ (uninit.place_of dst.old).block.ghost_name }
    ensures same_offset { (uninit.place_of dst.new).offset ≡ (uninit.place_of dst.old).offset }
    ensures after { (v : Value L) → Reads L.model shapes.now.sealed (pointed s src.entry) v
        → After L.model shapes.now.sealed (clone_case L.model shapes.now.sealed s.0 v) s.0 (uninit.place_of dst.old).offset
        (uninit.place_of dst.old).block.now (uninit.place_of dst.new).block.now log.old log.new result }
{
    match dst {
        PtrUninit::At(place) => {
            clone_into_place(alloc, shapes, Place { shape: s, at: src }, place, log)
        }
        PtrUninit::Not(never) => match *never {},
    }
}

// Makes the clone of the value at a place of a sealed shape at a vacant place, or leaves the block as before.
fn clone_into_place<L: Leaf>(
    alloc: Global,
    shapes: &Shapes<L>,
    source: Place<L>,
    place: &mut PtrMut<'_, L>,
    log: &mut DropLog<L>,
) -> Result<Option<()>, AllocError>
    requires sealed { source.shape.0 < length shapes.now.sealed }
    requires readable { IsReadable L.model shapes.now.sealed (place_of source) }
    requires vacant { IsVacant place.old.block.now (span place.old.offset (size_at shapes.now.sealed source.shape.0)) }
    ensures same_reference { place.new.block.ghost_name ≡ place.old.block.ghost_name }
    ensures same_offset { place.new.offset ≡ place.old.offset }
    ensures after { (v : Value L) → Reads L.model shapes.now.sealed (place_of source.entry) v
        → After L.model shapes.now.sealed (clone_case L.model shapes.now.sealed source.entry.shape.0 v) source.entry.shape.0 place.old.offset
        place.old.block.now place.new.block.now log.old log.new result }
{
    // proof: no sealed shape meets a cause
    let _sealed = shapes.sealed();
    let at = place.offset;
    match clone_at(alloc, shapes, source, place.block, at, MAX_LEVELS, 0, log) {
        Ok(Some(_)) => Ok(Some(())),
        Ok(None) => Ok(None),
        Err(error) => Err(error),
    }
}

// Makes the clone of the value at a place, and returns how many leaves the log then has room for: the `held` ones, which
// were made before, and its own. Or takes back what was made of it.
#[cycle(clones)]
fn clone_at<L: Leaf>(
    alloc: Global,
    shapes: &Shapes<L>,
    source: Place<L>,
    block: &mut Block<L>,
    at: usize,
    levels: u32,
    held: usize,
    log: &mut DropLog<L>,
) -> Result<Option<usize>, AllocError>
    requires well_formed { IsWellFormed L.model shapes.now.sealed }
    requires sealed { source.shape.0 < length shapes.now.sealed }
    requires readable { IsReadableWithin L.model shapes.now.sealed levels (place_of source) }
    requires vacant { IsVacant block.old (span at (size_at shapes.now.sealed source.shape.0)) }
    requires room { held ≤ log.old.spare }
    ensures { AfterOne L.model shapes.now.sealed levels
        (clone_case L.model shapes.now.sealed source.entry.shape.0 (value_at shapes.now.sealed levels (place_of source.entry)))
        source.entry.shape.0 at held block.old block.new log.old log.new result }
{
    if !shapes.offers(source.shape, Characteristic::Clone) {
        return Ok(None);
    }
    match see(shapes, source.shape, source.at) {
        Some(Seen::Leaf(leaf)) => match put_clone(alloc, leaf, block, at, held, log) {
            Ok(together) => Ok(Some(together)),
            Err(error) => Err(error),
        },
        Some(Seen::Node(form, parts)) => match cloning_of(form) {
            Cloning::Parts => clone_parts(
                alloc,
                shapes,
                source,
                parts,
                block,
                at,
                levels - 1,
                held,
                log,
            ),
            Cloning::TagAndParts(tag) => clone_variant(
                alloc, shapes, source, tag, parts, block, at, levels, held, log,
            ),
            Cloning::Nothing => Ok(None),
        },
        None => unreachable!(),
    }
}

// Puts the tag of a variant, and makes the clones of its fields behind it. Where one stops, the tag is taken out again.
#[cycle(clones)]
fn clone_variant<L: Leaf>(
    alloc: Global,
    shapes: &Shapes<L>,
    source: Place<L>,
    tag: u32,
    parts: Parts<L>,
    block: &mut Block<L>,
    at: usize,
    levels: u32,
    held: usize,
    log: &mut DropLog<L>,
) -> Result<Option<usize>, AllocError>
    requires well_formed { IsWellFormed L.model shapes.now.sealed }
    requires sealed { source.shape.0 < length shapes.now.sealed }
    requires deep { 1 ≤ levels }
    requires tagged { HasTag shapes.now.sealed (place_of source) tag }
    requires parts { part_places (place_of source) (body_at shapes.now.sealed (place_of source)) ≡ places_of parts }
    requires readable { AreReadable L.model shapes.now.sealed (levels - 1) (places_of parts) }
    requires vacant { IsVacant block.old (span at (size_at shapes.now.sealed source.shape.0)) }
    requires room { held ≤ log.old.spare }
    ensures { AfterOne L.model shapes.now.sealed levels
        (node_of (form.Variant tag) (in_order none (map (part_clone L.model shapes.now.sealed (levels - 1) (place_of source.entry)) (body_at shapes.now.sealed (place_of source.entry)))))
        source.entry.shape.0 at held block.old block.new log.old log.new result }
{
    put_tag(block, at, tag);
    match clone_parts(
        alloc,
        shapes,
        source,
        parts,
        block,
        at,
        levels - 1,
        held,
        log,
    ) {
        Ok(Some(together)) => Ok(Some(together)),
        Ok(None) => {
            take_tag(block, at);
            Ok(None)
        }
        Err(error) => {
            take_tag(block, at);
            Err(error)
        }
    }
}

// Makes the clones of the inline parts of the value at a place, in order. Where one stops, those before it are taken back.
#[cycle(clones)]
fn clone_parts<L: Leaf>(
    alloc: Global,
    shapes: &Shapes<L>,
    source: Place<L>,
    parts: Parts<L>,
    block: &mut Block<L>,
    at: usize,
    levels: u32,
    held: usize,
    log: &mut DropLog<L>,
) -> Result<Option<usize>, AllocError>
    requires well_formed { IsWellFormed L.model shapes.now.sealed }
    requires sealed { source.shape.0 < length shapes.now.sealed }
    requires parts { part_places (place_of source) (body_at shapes.now.sealed (place_of source)) ≡ places_of parts }
    requires readable { AreReadable L.model shapes.now.sealed levels (places_of parts) }
    requires inside { LiesInBlock shapes.now.sealed (place_in source.shape.0 block.old at) }
    requires inline { body_at shapes.now.sealed (place_in source.shape.0 block.old at) ≡ body_at shapes.now.sealed (place_of source) }
    requires vacant { All (IsVacant block.old) (ranges_from shapes.now.sealed at (body_at shapes.now.sealed (place_of source))) }
    requires room { held ≤ log.old.spare }
    ensures { AfterParts L.model shapes.now.sealed levels
        (in_order none (map (part_clone L.model shapes.now.sealed levels (place_of source.entry)) (body_at shapes.now.sealed (place_of source.entry))))
        (body_at shapes.now.sealed (place_of source.entry)) at held block.old block.new log.old log.new result }
{
    let mut together = held;
    for i in 0..parts.len() {
        let part = parts.part(i);
        let offset = same_part(source, part, block, at);
        match clone_at(alloc, shapes, part, block, offset, levels, together, log) {
            Ok(Some(made)) => together = made,
            Ok(None) => {
                drop_parts(shapes, source.shape, block, at, i, levels, log);
                return Ok(None);
            }
            Err(error) => {
                drop_parts(shapes, source.shape, block, at, i, levels, log);
                return Err(error);
            }
        }
    }
    Ok(Some(together))
}

// Puts a tag at an empty offset.
fn put_tag<L: Leaf>(block: &mut Block<L>, at: usize, tag: u32)
    requires below { at < size_of block.old }
    requires empty { item_at block.old at ≡ None }
    ensures { block.new ≡ with_item block.old at (Some (Tag tag)) }
{
    PtrUninit::new(block, at).put_tag(tag);
}

// Takes the tag out that lies at an offset.
fn take_tag<L: Leaf>(block: &mut Block<L>, at: usize)
    requires below { at < size_of block.old }
    requires tag { item_kind_at block.old at ≡ kind.Tag }
    ensures { block.new ≡ with_item block.old at None }
{
    PtrMut::new(block, at).take_tag();
}

// Where a part of the value that begins at an offset of a block begins in it, if its source lies where a part of `source`
// does.
fn same_part<L>(source: Place<L>, part: Place<L>, block: &Block<L>, at: usize) -> usize
    requires behind { source.at.offset ≤ part.at.offset }
    requires inside { at + (part.at.offset - source.at.offset) ≤ size_of block.now }
    ensures { result ≡ at + (part.entry.at.offset - source.entry.at.offset) }
{
    // proof: the block's size is a usize, so the sum below can't overflow
    let _size = block.size();
    at + (part.at.offset - source.at.offset)
}

// Puts the clone of a leaf at an empty offset, once the log has room for it beyond `held` leaves.
fn put_clone<L: Leaf>(
    alloc: Global,
    leaf: &L,
    block: &mut Block<L>,
    at: usize,
    held: usize,
    log: &mut DropLog<L>,
) -> Result<usize, AllocError>
    requires can { IsTrue (L.model.can (L.model.kind leaf.now) Characteristic.Clone) }
    requires below { at < size_of block.old }
    requires empty { item_at block.old at ≡ None }
    ensures leaves { log.new.leaves ≡ log.old.leaves }
    ensures spare { log.old.spare ≤ log.new.spare }
    ensures put { IfOk result (λ together. IsLeafPut (λ copy. copy ≡ L.model.cloned leaf.now) at held together block.old block.new log.new) }
    ensures unchanged { OnErr result (block.new ≡ block.old) }
{
    let together = room_beyond(held, log)?;
    let copy = leaf.clone_leaf(alloc)?;
    PtrUninit::new(block, at).put(copy);
    Ok(together)
}
