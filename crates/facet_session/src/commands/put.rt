ghost use Rattle.std.specs.Prelude.{◌≡◌, ◌<◌, ◌≤◌, [], length, Some, IfOk, OnOk, OnErr, IsTrue, bytes_eq};
ghost use Rattle.std.specs.List.{list_any};
ghost use Rattle.facet_registry.specs.Registry.{all_shapes, kind_at, size_at, offers};
ghost use Rattle.facet_registry.specs.WellFormed.{IsRegistry};
ghost use Rattle.facet_block.specs.Block.{empty_block, with_item};
ghost use Rattle.facet_block.specs.declared.block.Item.{Leaf};
ghost use Rattle.facet_session.specs.Refusal.{first_refusal};
ghost use Rattle.facet_session.specs.Session.{Shows, CarriesOut, KeepsCells, IsUnchanged};
ghost use Rattle.facet_session.specs.State.{State};
ghost use Rattle.facet_session.specs.commands.Put.{conditions, parsed_as, add_parsed, put as put_turn};
ghost use Rattle.facet_values.specs.Scalars.{is_scalar as is_scalar_kind};

use crate::conditions::{is_taken, is_unsealed};
use crate::refusal::{Refusal, refuse};
use crate::session::{Answer, Cell, Session};
use crate::writing::text_of_made;
use facet_base::{Characteristic, ShapeId, Text};
use facet_block::{Block, Leaf, PtrUninit};
use facet_registry::{Shapes, ValueKind};
use std::alloc::{AllocError, Global};

/// Carries out `put NAME #SHAPE TEXT`: parses the text as a scalar of the shape, and adds it under the name.
pub fn put<L: Leaf>(
    alloc: Global,
    session: &mut Session<L>,
    name: Text,
    shape: ShapeId,
    text: &Text,
) -> Result<Answer, AllocError>
    requires { session.old.log.leaves ≡ [] }
    ensures turn { IfOk result (λ answer. (state : State L) → Shows L.model session.old state
        → CarriesOut L.model session.new answer (put_turn L.model state name shape.0 text.now)) }
    ensures few { OnOk result (length (all_shapes session.new.shapes) ≤ length (all_shapes session.old.shapes)) }
    ensures kept { OnOk result (KeepsCells session.old session.new) }
    ensures err { OnErr result (IsUnchanged session.old session.new) }
    ensures cleared { OnErr result (session.new.log.leaves ≡ []) }
{
    if let Some(refusal) = refusal_of(session, &name, shape) {
        return refuse(alloc, refusal);
    }
    match parse(alloc, &session.shapes, shape, text.as_str())? {
        Some(leaf) => add_leaf(alloc, session, name, shape, leaf),
        None => refuse(alloc, Refusal::BadText),
    }
}

// Why the command is refused before its text is parsed, if it is.
fn refusal_of<L: Leaf>(session: &Session<L>, name: &Text, shape: ShapeId) -> Option<Refusal>
    ensures first { result ≡ first_refusal (conditions session.now.shapes.sealed
        (list_any (λ cell. bytes_eq cell.name name.now) session.now.cells.items) shape.0) }
    ensures registry { IsRegistry L.model session.now.shapes }
{
    if is_unsealed(&session.shapes, shape) {
        return Some(Refusal::NoSuchShape);
    }
    if is_taken(session.cells.as_slice(), name) {
        return Some(Refusal::Taken);
    }
    if !is_scalar(session.shapes.kind_of(shape)) {
        return Some(Refusal::WrongShape);
    }
    if !session.shapes.offers(shape, Characteristic::FromStr) {
        return Some(Refusal::Unsupported);
    }
    None
}

// Whether the values of a kind are the unit or leaves.
fn is_scalar(kind: ValueKind) -> bool
    ensures { result ≡ is_scalar_kind kind }
{
    match kind {
        ValueKind::Unit | ValueKind::Leaf(_) => true,
        _ => false,
    }
}

// The leaf that a text is, if it is one. The record of the shape has parse.
fn parse<L: Leaf>(
    alloc: Global,
    shapes: &Shapes<L>,
    shape: ShapeId,
    text: &str,
) -> Result<Option<L>, AllocError>
    requires registry { IsRegistry L.model shapes.now }
    requires sealed { shape.0 < length shapes.now.sealed }
    requires parses { IsTrue (offers shapes.now.sealed shape.0 Characteristic.FromStr) }
    ensures { IfOk result (λ parsed. parsed ≡ parsed_as L.model (kind_at shapes.now.sealed shape.0) text.now) }
{
    match shapes.kind_of(shape) {
        ValueKind::Leaf(kind) => Ok(L::parse(alloc, kind, text)?.ok()),
        _ => Ok(None),
    }
}

// Adds a cell with a leaf. All that may fail comes before the change.
fn add_leaf<L: Leaf>(
    alloc: Global,
    session: &mut Session<L>,
    name: Text,
    shape: ShapeId,
    leaf: L,
) -> Result<Answer, AllocError>
    requires empty { session.old.log.leaves ≡ [] }
    requires sealed { shape.0 < length session.old.shapes.sealed }
    requires room { 0 < size_at session.old.shapes.sealed shape.0 }
    requires kind { kind_at session.old.shapes.sealed shape.0 ≡ ValueKind.Leaf (L.model.kind leaf) }
    ensures turn { IfOk result (λ answer. (state : State L) → Shows L.model session.old state
        → CarriesOut L.model session.new answer (add_parsed state name shape.0 (Some leaf))) }
    ensures few { OnOk result (length (all_shapes session.new.shapes) ≤ length (all_shapes session.old.shapes)) }
    ensures kept { OnOk result (KeepsCells session.old session.new) }
    ensures err { OnErr result (IsUnchanged session.old session.new) }
    ensures cleared { OnErr result (session.new.log.leaves ≡ []) }
{
    let text = text_of_made(alloc, &leaf)?;
    let block = block_of(alloc, &session.shapes, shape, leaf)?;
    session.cells.push(Cell { name, shape, block })?;
    Ok(Answer {
        text,
        made: 1,
        dropped: 0,
    })
}

// A block of a shape's size with a leaf at its start.
fn block_of<L: Leaf>(
    alloc: Global,
    shapes: &Shapes<L>,
    shape: ShapeId,
    leaf: L,
) -> Result<Block<L>, AllocError>
    requires sealed { shape.0 < length shapes.now.sealed }
    requires room { 0 < size_at shapes.now.sealed shape.0 }
    ensures { IfOk result (λ block. block ≡ with_item (empty_block (size_at shapes.now.sealed shape.0)) 0 (Some (Leaf leaf))) }
{
    let mut block = Block::new(alloc, shapes.size_of(shape))?;
    PtrUninit::new(&mut block, 0).put(leaf);
    Ok(block)
}
