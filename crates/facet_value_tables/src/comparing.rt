ghost use Rattle.std.specs.Prelude.{◌<◌, length};

use crate::operand::{read_operand, readable};
use crate::words::Words;
use facet_base::{ShapeId, Write};
use facet_compare::{call_cmp, call_partial_cmp, call_partial_eq};
use facet_leaf::Leaf;
use facet_registry::Shapes;
use std::alloc::{AllocError, Global};
use std::cmp::Ordering;

/// A question on two values.
#[derive(Clone, Copy)]
pub enum Comparison {
    Equality,
    PartialOrder,
    TotalOrder,
}

/// Compares the values of two operands. False where they hold none.
pub fn compare<L: Leaf>(
    alloc: Global,
    shapes: &Shapes<L>,
    id: ShapeId,
    comparison: Comparison,
    words: &mut Words,
    out: &mut Vec<u8>,
) -> Result<bool, AllocError>
    requires { id.0 < length shapes.now.sealed }
{
    let Some(a) = read_operand::<L>(alloc, words)? else {
        return Ok(false);
    };
    let Some(b) = read_operand::<L>(alloc, words)? else {
        return Ok(false);
    };
    let Some(a) = readable(shapes, id, &a) else {
        return Ok(false);
    };
    let Some(b) = readable(shapes, id, &b) else {
        return Ok(false);
    };
    let answer = match comparison {
        Comparison::Equality => equality_text(call_partial_eq(shapes, id, a, b)),
        Comparison::PartialOrder => order_text(call_partial_cmp(shapes, id, a, b)),
        Comparison::TotalOrder => order_text(call_cmp(shapes, id, a, b).map(Some)),
    };
    out.write(answer.as_bytes())?;
    Ok(true)
}

fn equality_text(answer: Option<bool>) -> &'static str {
    match answer {
        None => "None",
        Some(true) => "true",
        Some(false) => "false",
    }
}

fn order_text(answer: Option<Option<Ordering>>) -> &'static str {
    match answer {
        None => "None",
        Some(None) => "unordered",
        Some(Some(Ordering::Less)) => "Less",
        Some(Some(Ordering::Equal)) => "Equal",
        Some(Some(Ordering::Greater)) => "Greater",
    }
}
