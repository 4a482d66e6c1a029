ghost use Rattle.std.specs.Prelude.{◌≡◌, ◌<◌, ◌≤◌, Err, IfOk, IsTrue, None, OnErr, Ok, Some, [], length, map, true};
ghost use Rattle.facet_block.specs.Block.{item_at, size_of, with_item};
ghost use Rattle.facet_block.specs.PtrUninit.{place_of};
ghost use Rattle.facet_block.specs.Seq.{make_seq};
ghost use Rattle.facet_block.specs.Span.{IsVacant, span};
ghost use Rattle.facet_block.specs.declared.block.Item.{Sequence, Tag};
ghost use Rattle.facet_causes.specs.Causes.{IsWellFormed};
ghost use Rattle.facet_make.specs.Default.{default_case};
ghost use Rattle.facet_make.specs.Exits.{After};
ghost use Rattle.facet_make.specs.Initial.{block_size_at, initial_of_kind, is_plain, plain_body};
ghost use Rattle.facet_make.specs.Made.{in_order};
ghost use Rattle.facet_make.specs.Walk.{AfterOne, AfterParts, IsLeafPut};
ghost use Rattle.facet_registry.specs.Registry.{kind_at, size_at};
ghost use Rattle.facet_trees.specs.Structure.{structure_at};
ghost use Rattle.facet_trees.specs.Value.{none};

use crate::initial::{Initial, block_size_of, initial_of};
use crate::plain::{plain_count, plain_part};
use crate::room::room_beyond;
use facet_base::{Characteristic, ScalarType, ShapeId};
use facet_block::{Block, DropLog, PtrMut, PtrUninit, Seq};
use facet_drop::drop_parts;
use facet_leaf::Leaf;
use facet_registry::Shapes;
use facet_walk::MAX_LEVELS;
use std::alloc::{AllocError, Global};

/// Makes the default of a sealed shape at a vacant place. None, where the shape has no default, and an error, which comes
/// only when out of memory, leave the block as before, and in the log the leaves that were made and taken back, those of
/// the part that stopped first. End the pointer with a call that takes it by value, as `assume_init`.
pub fn call_default_in_place<L: Leaf>(
    alloc: Global,
    shapes: &Shapes<L>,
    s: ShapeId,
    dst: &mut PtrUninit<'_, L>,
    log: &mut DropLog<L>,
) -> Result<Option<()>, AllocError>
    requires sealed { s.0 < length shapes.now.sealed }
    requires vacant { IsVacant (place_of dst.old).block.now (span (place_of dst.old).offset (size_at shapes.now.sealed s.0)) }
    ensures same_reference { (place_of dst.new).block.ghost_name ≡ (place_of dst.old).block.ghost_name }
    ensures same_offset { (place_of dst.new).offset ≡ (place_of dst.old).offset }
    ensures after { After L.model shapes.now.sealed (default_case L.model shapes.now.sealed 100 s.0) s.0 (place_of dst.old).offset
        (place_of dst.old).block.now (place_of dst.new).block.now log.old log.new result }
{
    match dst {
        PtrUninit::At(place) => default_in_place(alloc, shapes, s, place, log),
        PtrUninit::Not(never) => match *never {},
    }
}

// Makes the default of a sealed shape at a vacant place, or leaves the block as before.
fn default_in_place<L: Leaf>(
    alloc: Global,
    shapes: &Shapes<L>,
    s: ShapeId,
    place: &mut PtrMut<'_, L>,
    log: &mut DropLog<L>,
) -> Result<Option<()>, AllocError>
    requires sealed { s.0 < length shapes.now.sealed }
    requires vacant { IsVacant place.old.block.now (span place.old.offset (size_at shapes.now.sealed s.0)) }
    ensures same_reference { place.new.block.ghost_name ≡ place.old.block.ghost_name }
    ensures same_offset { place.new.offset ≡ place.old.offset }
    ensures after { After L.model shapes.now.sealed (default_case L.model shapes.now.sealed 100 s.0) s.0 place.old.offset place.old.block.now place.new.block.now log.old log.new result }
{
    // proof: no sealed shape meets a cause
    let _sealed = shapes.sealed();
    let at = place.offset;
    match default_at(alloc, shapes, s, place.block, at, MAX_LEVELS, 0, log) {
        Ok(Some(_)) => Ok(Some(())),
        Ok(None) => Ok(None),
        Err(error) => Err(error),
    }
}

// Makes a default, and returns how many leaves the log then has room for: the `held` ones, which were made before, and
// its own. Or takes back what was made of it.
#[cycle(defaults)]
fn default_at<L: Leaf>(
    alloc: Global,
    shapes: &Shapes<L>,
    id: ShapeId,
    block: &mut Block<L>,
    at: usize,
    levels: u32,
    held: usize,
    log: &mut DropLog<L>,
) -> Result<Option<usize>, AllocError>
    requires well_formed { IsWellFormed L.model shapes.now.sealed }
    requires sealed { id.0 < length shapes.now.sealed }
    requires vacant { IsVacant block.old (span at (size_at shapes.now.sealed id.0)) }
    requires room { held ≤ log.old.spare }
    ensures { AfterOne L.model shapes.now.sealed levels (default_case L.model shapes.now.sealed levels id.0) id.0 at held block.old block.new log.old log.new result }
{
    if levels == 0 {
        return Ok(None);
    }
    if !shapes.offers(id, Characteristic::Default) {
        return Ok(None);
    }
    match initial_of(shapes, id) {
        Initial::None => Ok(None),
        Initial::Leaf(kind) => match put_default_leaf(alloc, kind, block, at, held, log) {
            Ok(together) => Ok(Some(together)),
            Err(error) => Err(error),
        },
        Initial::Parts => default_parts(alloc, shapes, id, block, at, levels - 1, held, log),
        Initial::FirstTag => {
            put_first_tag(block, at);
            Ok(Some(held))
        }
        Initial::NoBlocks => {
            put_no_blocks(alloc, shapes, id, block, at);
            Ok(Some(held))
        }
    }
}

// Makes the defaults of the inline parts of a value, in order. Where one stops, those before it are taken back.
#[cycle(defaults)]
fn default_parts<L: Leaf>(
    alloc: Global,
    shapes: &Shapes<L>,
    id: ShapeId,
    block: &mut Block<L>,
    at: usize,
    levels: u32,
    held: usize,
    log: &mut DropLog<L>,
) -> Result<Option<usize>, AllocError>
    requires well_formed { IsWellFormed L.model shapes.now.sealed }
    requires sealed { id.0 < length shapes.now.sealed }
    requires plain { is_plain (structure_at shapes.now.sealed id.0) ≡ true }
    requires vacant { IsVacant block.old (span at (size_at shapes.now.sealed id.0)) }
    requires room { held ≤ log.old.spare }
    ensures { AfterParts L.model shapes.now.sealed levels
        (in_order none (map (λ part. default_case L.model shapes.now.sealed levels part.shape.0) (plain_body (structure_at shapes.now.sealed id.0))))
        (plain_body (structure_at shapes.now.sealed id.0)) at held block.old block.new log.old log.new result }
{
    let mut together = held;
    for i in 0..plain_count(shapes, id, block, at) {
        let (shape, offset) = plain_part(shapes, id, block, at, i);
        match default_at(alloc, shapes, shape, block, offset, levels, together, log) {
            Ok(Some(made)) => together = made,
            Ok(None) => {
                drop_parts(shapes, id, block, at, i, levels, log);
                return Ok(None);
            }
            Err(error) => {
                drop_parts(shapes, id, block, at, i, levels, log);
                return Err(error);
            }
        }
    }
    Ok(Some(together))
}

// Puts the default leaf of a kind at an empty offset, once the log has room for it beyond `held` leaves.
fn put_default_leaf<L: Leaf>(
    alloc: Global,
    kind: ScalarType,
    block: &mut Block<L>,
    at: usize,
    held: usize,
    log: &mut DropLog<L>,
) -> Result<usize, AllocError>
    requires can { IsTrue (L.model.can kind Characteristic.Default) }
    requires below { at < size_of block.old }
    requires empty { item_at block.old at ≡ None }
    ensures leaves { log.new.leaves ≡ log.old.leaves }
    ensures spare { log.old.spare ≤ log.new.spare }
    ensures put { IfOk result (λ together. IsLeafPut (λ leaf. L.model.default_of kind ≡ Some leaf) at held together block.old block.new log.new) }
    ensures unchanged { OnErr result (block.new ≡ block.old) }
{
    let together = room_beyond(held, log)?;
    let leaf = L::default_of(alloc, kind)?;
    PtrUninit::new(block, at).put(leaf);
    Ok(together)
}

// Puts the first tag at an empty offset.
fn put_first_tag<L: Leaf>(block: &mut Block<L>, at: usize)
    requires below { at < size_of block.old }
    requires empty { item_at block.old at ≡ None }
    ensures { block.new ≡ with_item block.old at (Some (Tag 0)) }
{
    PtrUninit::new(block, at).put_tag(0);
}

// Puts a sequence without blocks at an empty offset.
fn put_no_blocks<L: Leaf>(
    alloc: Global,
    shapes: &Shapes<L>,
    id: ShapeId,
    block: &mut Block<L>,
    at: usize,
)
    requires sealed { id.0 < length shapes.now.sealed }
    requires blocks { initial_of_kind (kind_at shapes.now.sealed id.0) ≡ Initial.NoBlocks }
    requires below { at < size_of block.old }
    requires empty { item_at block.old at ≡ None }
    ensures { block.new ≡ with_item block.old at (Some (Sequence (make_seq (block_size_at shapes.now.sealed id.0) [] []))) }
{
    let blocks = Seq::new(alloc, block_size_of(shapes, id));
    PtrUninit::new(block, at).put_seq(blocks);
}
