use crate::comparing::{Comparison, compare};
use crate::holding::{Holding, look_into};
use crate::looking::{Look, look_at};
use crate::making::{drop_operand, make_clone, make_default};
use crate::words::Words;
use facet_base::{ShapeId, Write};
use facet_leaf::Leaf;
use facet_registry::Shapes;
use std::alloc::{AllocError, Global};

/// What is asked of a shape and of what follows it.
#[derive(Clone, Copy)]
enum Question {
    Compare(Comparison),
    Look(Look),
    LookInto(Holding),
    Default,
    Clone,
    Drop,
}

/// The answer to a question `NAME #SHAPE ..`, or `ill-formed` where it is none, or no call can be made.
pub fn answer<L: Leaf>(
    alloc: Global,
    shapes: &Shapes<L>,
    text: &str,
) -> Result<Vec<u8>, AllocError> {
    let mut words = Words::of(text);
    let mut out = Vec::new(alloc);
    if !carry_out(alloc, shapes, &mut words, &mut out)? || !words.is_end() {
        out.clear();
        out.write(b"ill-formed")?;
    }
    Ok(out)
}

// Asks the question that the words are. False where no call can be made.
fn carry_out<L: Leaf>(
    alloc: Global,
    shapes: &Shapes<L>,
    words: &mut Words,
    out: &mut Vec<u8>,
) -> Result<bool, AllocError> {
    let Some(question) = take_question(words) else {
        return Ok(false);
    };
    let Some(number) = words.take_marked('#') else {
        return Ok(false);
    };
    if number as usize >= shapes.sealed() {
        return Ok(false);
    }
    let id = ShapeId(number);
    match question {
        Question::Compare(comparison) => compare(alloc, shapes, id, comparison, words, out),
        Question::Look(question) => look_at(alloc, shapes, id, question, words, out),
        Question::LookInto(Holding::Get(_)) => {
            let Some(i) = words.number() else {
                return Ok(false);
            };
            look_into(alloc, shapes, id, Holding::Get(i), words, out)
        }
        Question::LookInto(question) => look_into(alloc, shapes, id, question, words, out),
        Question::Default => make_default(alloc, shapes, id, words, out),
        Question::Clone => make_clone(alloc, shapes, id, words, out),
        Question::Drop => drop_operand(alloc, shapes, id, words, out),
    }
}

// The question that the next word names.
fn take_question(words: &mut Words) -> Option<Question> {
    match words.take()? {
        "eq" => Some(Question::Compare(Comparison::Equality)),
        "pcmp" => Some(Question::Compare(Comparison::PartialOrder)),
        "cmp" => Some(Question::Compare(Comparison::TotalOrder)),
        "reads" => Some(Question::Look(Look::Reads)),
        "depth" => Some(Question::Look(Look::Depth)),
        "leaves" => Some(Question::Look(Look::Leaves)),
        "hash" => Some(Question::Look(Look::Hash)),
        "digest" => Some(Question::Look(Look::Digest)),
        "default" => Some(Question::Default),
        "clone" => Some(Question::Clone),
        "drop" => Some(Question::Drop),
        name => named_holding(name),
    }
}

// The question on containers of a name.
fn named_holding(name: &str) -> Option<Question> {
    match name {
        "is_some" => Some(Question::LookInto(Holding::IsSome)),
        "value" => Some(Question::LookInto(Holding::Value)),
        "is_ok" => Some(Question::LookInto(Holding::IsOk)),
        "ok" => Some(Question::LookInto(Holding::Ok)),
        "err" => Some(Question::LookInto(Holding::Err)),
        "variant" => Some(Question::LookInto(Holding::Variant)),
        "len" => Some(Question::LookInto(Holding::Len)),
        "capacity" => Some(Question::LookInto(Holding::Capacity)),
        "get" => Some(Question::LookInto(Holding::Get(0))),
        "content" => Some(Question::LookInto(Holding::Content)),
        _ => None,
    }
}
