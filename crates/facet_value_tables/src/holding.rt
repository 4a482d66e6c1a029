ghost use Rattle.std.specs.Prelude.{◌≡◌, ◌<◌, length};
ghost use Rattle.facet_outline.specs.declared.value_kind.ValueKind.TheVariants as ValueKind;
ghost use Rattle.facet_registry.specs.Registry.{kind_at};
ghost use Rattle.facet_values.specs.Reading.{IsReadable};
ghost use Rattle.facet_walk.specs.Look.{pointed};

use crate::notation::LEVELS;
use crate::operand::{read_operand, readable};
use crate::words::Words;
use crate::writing::{write_block, write_number};
use facet_base::{ShapeId, Write};
use facet_block::PtrConst;
use facet_contain::{
    borrow, get_err, get_ok, get_value, is_ok, is_some, list_capacity, list_get, list_len, map_len,
    set_len_of, slice_get, slice_len, variant_of,
};
use facet_leaf::Leaf;
use facet_registry::{Shapes, ValueKind};
use std::alloc::{AllocError, Global};

/// A question on what a container holds.
#[derive(Clone, Copy)]
pub enum Holding {
    IsSome,
    Value,
    IsOk,
    Ok,
    Err,
    Variant,
    Len,
    Capacity,
    Get(usize),
    Content,
}

/// Looks into the container of an operand. False where it holds none, or one of another kind.
pub fn look_into<L: Leaf>(
    alloc: Global,
    shapes: &Shapes<L>,
    id: ShapeId,
    question: Holding,
    words: &mut Words,
    out: &mut Vec<u8>,
) -> Result<bool, AllocError>
    requires { id.0 < length shapes.now.sealed }
{
    let Some(operand) = read_operand::<L>(alloc, words)? else {
        return Ok(false);
    };
    let Some(place) = readable(shapes, id, &operand) else {
        return Ok(false);
    };
    match (shapes.kind_of(id), question) {
        (ValueKind::Option, Holding::IsSome) => write_truth(is_some(shapes, id, place), out)?,
        (ValueKind::Option, Holding::Value) => write_found(
            alloc,
            get_value(shapes, id, place),
            out,
        )?,
        (ValueKind::Result, Holding::IsOk) => write_truth(is_ok(shapes, id, place), out)?,
        (ValueKind::Result, Holding::Ok) => write_found(alloc, get_ok(shapes, id, place), out)?,
        (ValueKind::Result, Holding::Err) => write_found(alloc, get_err(shapes, id, place), out)?,
        (ValueKind::Enum, Holding::Variant) => {
            write_number(alloc, variant_of(shapes, id, place) as usize, out)?;
        }
        (ValueKind::List, Holding::Len) => write_number(alloc, list_len(shapes, id, place), out)?,
        (ValueKind::List, Holding::Capacity) => {
            write_number(alloc, list_capacity(shapes, id, place), out)?;
        }
        (ValueKind::List, Holding::Get(i)) => {
            write_found(alloc, list_get(shapes, id, place, i), out)?;
        }
        (ValueKind::BoxedSlice, Holding::Len) => {
            write_number(alloc, slice_len(shapes, id, place), out)?;
        }
        (ValueKind::BoxedSlice, Holding::Get(i)) => {
            write_found(alloc, slice_get(shapes, id, place, i), out)?;
        }
        (ValueKind::Map, Holding::Len) => write_number(alloc, map_len(shapes, id, place), out)?,
        (ValueKind::Set, Holding::Len) => write_number(alloc, set_len_of(shapes, id, place), out)?,
        (ValueKind::Box, Holding::Content) => {
            write_found(alloc, Some(borrow(shapes, id, place)), out)?;
        }
        _ => return Ok(false),
    }
    Ok(true)
}

fn write_truth(truth: bool, out: &mut Vec<u8>) -> Result<(), AllocError> {
    out.write(if truth { b"true" } else { b"false" })
}

// Writes an offset and the block that it is in, or `None`.
fn write_found<L: Leaf>(
    alloc: Global,
    found: Option<PtrConst<L>>,
    out: &mut Vec<u8>,
) -> Result<(), AllocError> {
    let Some(place) = found else {
        return out.write(b"None");
    };
    write_number(alloc, place.offset(), out)?;
    out.write(b" ")?;
    write_block(alloc, place.block(), out, LEVELS)
}
