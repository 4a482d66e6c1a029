ghost use Rattle.std.specs.Prelude.{◌≡◌, IfOk};
ghost use Rattle.facet_session.specs.Refusal.{words_of};

use crate::session::Answer;
use crate::writing::answer_without_leaves;
use facet_base::Text;
use std::alloc::{AllocError, Global};

/// Why a command is refused.
#[derive(Clone, Copy)]
pub enum Refusal {
    /// The line is not in the grammar, or not UTF-8.
    Syntax,
    /// No sealed shape has the id.
    NoSuchShape,
    /// The new name is in use.
    Taken,
    /// The command does not serve the kind of the shape.
    WrongShape,
    /// The text is no value of the shape.
    BadText,
    /// The record of the shape lacks what the command needs.
    Unsupported,
    /// A declaration has parameters, and neither a module path nor a declaration id other than 0.
    MissingDeclId,
}

impl Refusal {
    // The words of the answer.
    fn words(self) -> &'static str
        ensures { result.now ≡ words_of self }
    {
        match self {
            Refusal::Syntax => "syntax",
            Refusal::NoSuchShape => "no such shape",
            Refusal::Taken => "taken",
            Refusal::WrongShape => "wrong shape",
            Refusal::BadText => "bad text",
            Refusal::Unsupported => "unsupported",
            Refusal::MissingDeclId => "refused MissingDeclId",
        }
    }
}

/// The answer to a refused command: the words alone.
pub fn refuse(alloc: Global, refusal: Refusal) -> Result<Answer, AllocError>
    ensures { IfOk result (λ answer. answer ≡ record { text = words_of refusal; made = 0; dropped = 0 }) }
{
    Ok(answer_without_leaves(Text::new(alloc, refusal.words())?))
}
