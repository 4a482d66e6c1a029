ghost use Rattle.std.specs.Prelude.{◌≡◌, ◌<◌, ◌≤◌, [], length, IfOk, OnOk, OnErr, bytes_eq};
ghost use Rattle.std.specs.List.{list_any};
ghost use Rattle.facet_block.specs.Span.{IsVacant, span};
ghost use Rattle.facet_make.specs.Default.{default_case};
ghost use Rattle.facet_make.specs.Exits.{After};
ghost use Rattle.facet_registry.specs.Registry.{all_shapes, size_at};
ghost use Rattle.facet_session.specs.Made.{add_made as made_turn};
ghost use Rattle.facet_session.specs.Refusal.{first_refusal};
ghost use Rattle.facet_session.specs.Session.{Shows, CarriesOut, KeepsCells, IsUnchanged};
ghost use Rattle.facet_session.specs.State.{State};
ghost use Rattle.facet_session.specs.commands.Default.{conditions, default as default_turn};

use crate::conditions::{is_taken, is_unsealed};
use crate::making::{add_made, name_taken_back};
use crate::refusal::{Refusal, refuse};
use crate::session::{Answer, Cell, Session};
use facet_base::{ShapeId, Text};
use facet_block::{Block, DropLog, Leaf, PtrUninit};
use facet_make::call_default_in_place;
use facet_registry::Shapes;
use std::alloc::{AllocError, Global};

/// Carries out `default NAME #SHAPE`: makes the default of the shape, and adds it under the name.
pub fn default<L: Leaf>(
    alloc: Global,
    session: &mut Session<L>,
    name: Text,
    shape: ShapeId,
) -> Result<Answer, AllocError>
    requires { session.old.log.leaves ≡ [] }
    ensures turn { IfOk result (λ answer. (state : State L) → Shows L.model session.old state
        → CarriesOut L.model session.new answer (default_turn L.model state name shape.0)) }
    ensures few { OnOk result (length (all_shapes session.new.shapes) ≤ length (all_shapes session.old.shapes)) }
    ensures kept { OnOk result (KeepsCells session.old session.new) }
    ensures err { OnErr result (IsUnchanged session.old session.new) }
    ensures cleared { OnErr result (session.new.log.leaves ≡ []) }
{
    if let Some(refusal) = refusal_of(session, &name, shape) {
        return refuse(alloc, refusal);
    }
    match make(alloc, session, name, shape) {
        Ok(answer) => Ok(answer),
        Err(error) => {
            session.log.clear();
            Err(error)
        }
    }
}

// Why the command is refused before anything is made, if it is.
fn refusal_of<L: Leaf>(session: &Session<L>, name: &Text, shape: ShapeId) -> Option<Refusal>
    ensures { result ≡ first_refusal (conditions session.now.shapes.sealed
        (list_any (λ cell. bytes_eq cell.name name.now) session.now.cells.items) shape.0) }
{
    if is_unsealed(&session.shapes, shape) {
        return Some(Refusal::NoSuchShape);
    }
    if is_taken(session.cells.as_slice(), name) {
        return Some(Refusal::Taken);
    }
    None
}

// Makes the default, and adds it or names what was taken back. After an `Err` leaves that were taken back are in the log.
fn make<L: Leaf>(
    alloc: Global,
    session: &mut Session<L>,
    name: Text,
    shape: ShapeId,
) -> Result<Answer, AllocError>
    requires empty { session.old.log.leaves ≡ [] }
    requires sealed { shape.0 < length session.old.shapes.sealed }
    ensures turn { IfOk result (λ answer. (state : State L) → Shows L.model session.old state
        → CarriesOut L.model session.new answer (made_turn state name shape.0 (default_case L.model session.old.shapes.sealed 100 shape.0))) }
    ensures few { OnOk result (length (all_shapes session.new.shapes) ≤ length (all_shapes session.old.shapes)) }
    ensures kept { OnOk result (KeepsCells session.old session.new) }
    ensures err { OnErr result (IsUnchanged session.old session.new) }
{
    let mut block = Block::new(alloc, session.shapes.size_of(shape))?;
    match default_at_start(alloc, &session.shapes, shape, &mut block, &mut session.log)? {
        Some(()) => add_made(alloc, session, Cell { name, shape, block }),
        None => name_taken_back(alloc, session),
    }
}

// Makes the default of a shape at the start of a block of its size.
fn default_at_start<L: Leaf>(
    alloc: Global,
    shapes: &Shapes<L>,
    shape: ShapeId,
    block: &mut Block<L>,
    log: &mut DropLog<L>,
) -> Result<Option<()>, AllocError>
    requires sealed { shape.0 < length shapes.now.sealed }
    requires vacant { IsVacant block.old (span 0 (size_at shapes.now.sealed shape.0)) }
    ensures { After L.model shapes.now.sealed (default_case L.model shapes.now.sealed 100 shape.0) shape.0 0 block.old block.new log.old log.new result }
{
    let mut place = PtrUninit::new(block, 0);
    let made = call_default_in_place(alloc, shapes, shape, &mut place, log);
    place.assume_init();
    made
}
