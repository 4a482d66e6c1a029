ghost use Rattle.std.specs.Prelude.{◌≡◌, ◌∷◌, ◌<◌, ◌≤◌, ◌+◌, ◌-◌, ◌^◌, [], decimal, length, IfOk, OnErr, OnOk};
ghost use Rattle.facet_declare.specs.Outcome.{HasPartsOfTuple};
ghost use Rattle.facet_registry.specs.Registry.{all_shapes};
ghost use Rattle.facet_session.specs.Session.{CarriesOut, IsUnchanged, KeepsCells, Shows};
ghost use Rattle.facet_session.specs.State.{State};
ghost use Rattle.facet_session.specs.commands.Shape.{refusal_of as refusal_in, shape as shape_turn};

use crate::refusal::{Refusal, refuse};
use crate::session::{Answer, Session};
use crate::writing::answer_without_leaves;
use facet_base::Text;
use facet_block::Leaf;
use facet_declaration::Decl;
use facet_declare::{DeclarationRefusal, declare};
use std::alloc::{AllocError, Global};

/// Carries out `shape DECL`: drafts the shape that the declaration describes.
pub fn shape<L: Leaf>(
    alloc: Global,
    session: &mut Session<L>,
    decl: &Decl,
) -> Result<Answer, AllocError>
    requires empty { session.old.log.leaves ≡ [] }
    requires room { length (all_shapes session.old.shapes) < 2 ^ 32 - 1 }
    requires parts { HasPartsOfTuple decl.now }
    ensures turn { IfOk result (λ answer. (state : State L) → Shows L.model session.old state
        → CarriesOut L.model session.new answer (shape_turn L.model state decl.now)) }
    ensures few { OnOk result (length (all_shapes session.new.shapes) ≤ length (all_shapes session.old.shapes) + 1) }
    ensures kept { OnOk result (KeepsCells session.old session.new) }
    ensures err { OnErr result (IsUnchanged session.old session.new) }
    ensures cleared { OnErr result (session.new.log.leaves ≡ []) }
{
    let text = text_of_id(alloc, session.shapes.len())?;
    match declare(alloc, &mut session.shapes, decl)? {
        Ok(_) => Ok(answer_without_leaves(text)),
        Err(refusal) => refuse(alloc, refusal_of(refusal)),
    }
}

// The refusal of a declaration as that of a command.
fn refusal_of(refusal: DeclarationRefusal) -> Refusal
    ensures { result ≡ refusal_in refusal }
{
    match refusal {
        DeclarationRefusal::NoSuchShape => Refusal::NoSuchShape,
        DeclarationRefusal::WrongShape => Refusal::WrongShape,
        DeclarationRefusal::MissingDeclId => Refusal::MissingDeclId,
    }
}

// A `#` and the id.
fn text_of_id(alloc: Global, id: usize) -> Result<Text, AllocError>
    ensures { IfOk result (λ text. text ≡ 35 ∷ decimal id) }
{
    let text = format!(in alloc; "#{id}")?;
    Text::new(alloc, &text)
}
