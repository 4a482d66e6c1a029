ghost use Rattle.std.specs.Prelude.{◌≡◌, ◌≤◌, [], length, IfOk, OnErr, OnOk};
ghost use Rattle.facet_registry.specs.Registry.{all_shapes};
ghost use Rattle.facet_session.specs.Session.{CarriesOut, IsUnchanged, KeepsCells, Shows};
ghost use Rattle.facet_session.specs.State.{State};
ghost use Rattle.facet_session.specs.commands.Seal.{cause_name as name_of_cause, error_words, seal as seal_turn};

use crate::session::{Answer, Session};
use crate::writing::answer_without_leaves;
use facet_base::Text;
use facet_block::Leaf;
use facet_registry::{SealCause, SealError, SealFault};
use std::alloc::{AllocError, Global};

/// Carries out `seal`: seals the drafts, or drops them where one meets a cause.
pub fn seal<L: Leaf>(alloc: Global, session: &mut Session<L>) -> Result<Answer, AllocError>
    requires { session.old.log.leaves ≡ [] }
    ensures turn { IfOk result (λ answer. (state : State L) → Shows L.model session.old state
        → CarriesOut L.model session.new answer (seal_turn L.model state)) }
    ensures few { OnOk result (length (all_shapes session.new.shapes) ≤ length (all_shapes session.old.shapes)) }
    ensures kept { OnOk result (KeepsCells session.old session.new) }
    ensures err { OnErr result (IsUnchanged session.old session.new) }
    ensures cleared { OnErr result (session.new.log.leaves ≡ []) }
{
    let text = Text::new(alloc, "ok")?;
    match session.shapes.seal() {
        Ok(()) => Ok(answer_without_leaves(text)),
        Err(SealFault::NoMemory) => Err(AllocError),
        Err(SealFault::Refused(error)) => {
            let text = text_of_error(alloc, error)?;
            session.shapes.cut();
            Ok(answer_without_leaves(text))
        }
    }
}

// The words of a refusal.
fn text_of_error(alloc: Global, error: SealError) -> Result<Text, AllocError>
    ensures { IfOk result (λ text. text ≡ error_words error) }
{
    let cause = cause_name(error.cause);
    let id = error.shape.0;
    let text = format!(in alloc; "refused {cause} #{id}")?;
    Text::new(alloc, &text)
}

// The name of a cause.
fn cause_name(cause: SealCause) -> &'static str
    ensures { result.now ≡ name_of_cause cause }
{
    match cause {
        SealCause::UnknownShape => "UnknownShape",
        SealCause::EagerForward => "EagerForward",
        SealCause::Mismatch => "Mismatch",
        SealCause::UnsizedPart => "UnsizedPart",
        SealCause::InlineCycle => "InlineCycle",
        SealCause::TooLarge => "TooLarge",
        SealCause::BadLayout => "BadLayout",
        SealCause::FieldOutside => "FieldOutside",
        SealCause::FieldMisaligned => "FieldMisaligned",
        SealCause::FieldOverlap => "FieldOverlap",
        SealCause::ZeroSizedScalar => "ZeroSizedScalar",
        SealCause::DiscriminantRepeated => "DiscriminantRepeated",
        SealCause::DiscriminantRange => "DiscriminantRange",
        SealCause::KeyNotOrd => "KeyNotOrd",
        SealCause::CapabilityMissing => "CapabilityMissing",
    }
}
