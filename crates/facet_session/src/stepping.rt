ghost use Rattle.std.specs.Prelude.{◌≡◌, ◌<◌, ◌≤◌, ◌+◌, ◌-◌, ◌^◌, [], length, IfOk, OnOk, OnErr};
ghost use Rattle.facet_registry.specs.Registry.{all_shapes};
ghost use Rattle.facet_session.specs.Interpreter.{HasParts, next, last, turn_of};
ghost use Rattle.facet_session.specs.Session.{Shows, IsReady, CarriesOut, KeepsCells, IsUnchanged};
ghost use Rattle.facet_session.specs.State.{State};

use crate::cells::{drop_values, make_room};
use crate::commands::default::default;
use crate::commands::put::put;
use crate::commands::seal::seal;
use crate::commands::shape::shape;
use crate::refusal::{Refusal, refuse};
use crate::session::{Answer, Session};
use crate::writing::text_of_end;
use facet_base::Many;
use facet_block::Leaf;
use facet_grammar::{Command, read_command};
use std::alloc::{AllocError, Global};

/// Carries out a line. After an `Err`, which comes out of memory alone, registry and cells are as before and the log is
/// empty. Requires that there are fewer than 4,294,967,295 shapes, of which a line drafts at most one.
pub fn step<L: Leaf>(
    alloc: Global,
    session: &mut Session<L>,
    line: &[u8],
) -> Result<Answer, AllocError>
    requires { length (all_shapes session.old.shapes) < 2 ^ 32 - 1 }
    ensures turn { IfOk result (λ answer. (state : State L) → Shows L.model session.old state
        → CarriesOut L.model session.new answer (next L.model state line.now)) }
    ensures few { OnOk result (length (all_shapes session.new.shapes) ≤ length (all_shapes session.old.shapes) + 1) }
    ensures kept { OnOk result (KeepsCells session.old session.new) }
    ensures err { OnErr result (IsUnchanged session.old session.new) }
    ensures cleared { OnErr result (session.new.log.leaves ≡ []) }
{
    session.log.clear();
    let command = read_command(alloc, line)?;
    carry_out(alloc, session, command)
}

/// Carries out the end of a script, which drops the values of all cells. After an `Err`, which comes out of memory
/// alone, registry and cells are as before and the log is empty.
pub fn finish<L: Leaf>(alloc: Global, session: &mut Session<L>) -> Result<Answer, AllocError>
    requires { IsReady L.model session.old }
    ensures turn { IfOk result (λ answer. (state : State L) → Shows L.model session.old state
        → CarriesOut L.model session.new answer (last state)) }
    ensures err { OnErr result (IsUnchanged session.old session.new) }
    ensures cleared { OnErr result (session.new.log.leaves ≡ []) }
{
    session.log.clear();
    make_room(&session.shapes, session.cells.as_slice(), &mut session.log)?;
    let text = text_of_end(alloc, &session.shapes, session.cells.as_slice())?;
    drop_values(&session.shapes, &mut session.cells, &mut session.log);
    session.cells = Many::new(alloc);
    Ok(Answer {
        text,
        made: 0,
        dropped: session.log.leaves().len(),
    })
}

// Carries out a command. None is a line that is no command.
fn carry_out<L: Leaf>(
    alloc: Global,
    session: &mut Session<L>,
    command: Option<Command>,
) -> Result<Answer, AllocError>
    requires empty { session.old.log.leaves ≡ [] }
    requires room { length (all_shapes session.old.shapes) < 2 ^ 32 - 1 }
    requires parts { HasParts command }
    ensures turn { IfOk result (λ answer. (state : State L) → Shows L.model session.old state
        → CarriesOut L.model session.new answer (turn_of L.model state command)) }
    ensures few { OnOk result (length (all_shapes session.new.shapes) ≤ length (all_shapes session.old.shapes) + 1) }
    ensures kept { OnOk result (KeepsCells session.old session.new) }
    ensures err { OnErr result (IsUnchanged session.old session.new) }
    ensures cleared { OnErr result (session.new.log.leaves ≡ []) }
{
    match command {
        None => refuse(alloc, Refusal::Syntax),
        Some(Command::Shape(decl)) => shape(alloc, session, &decl),
        Some(Command::Seal) => seal(alloc, session),
        Some(Command::Put(name, shape, text)) => put(alloc, session, name, shape, &text),
        Some(Command::Default(name, shape)) => default(alloc, session, name, shape),
    }
}
