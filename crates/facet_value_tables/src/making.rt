ghost use Rattle.std.specs.Prelude.{◌<◌, length};

use crate::leaves::are_among;
use crate::notation::LEVELS;
use crate::operand::{Operand, holds_value, is_vacant, read_operand, readable};
use crate::words::Words;
use crate::writing::{write_block, write_log};
use facet_base::{ShapeId, Write};
use facet_block::{DropLog, PtrConst, PtrMut, PtrUninit};
use facet_drop::{call_drop_in_place, make_room_for};
use facet_leaf::Leaf;
use facet_make::{call_clone_into, call_default_in_place};
use facet_registry::Shapes;
use std::alloc::{AllocError, Global};

/// What a call that makes a value did.
#[derive(Clone, Copy)]
enum Made {
    /// It made the value.
    Value,
    /// It returned None.
    Nothing,
    /// It wasn't called, since the operands are none for it.
    NotCalled,
}

/// Makes the default of a shape at an operand. False where the operand isn't vacant.
pub fn make_default<L: Leaf>(
    alloc: Global,
    shapes: &Shapes<L>,
    id: ShapeId,
    words: &mut Words,
    out: &mut Vec<u8>,
) -> Result<bool, AllocError>
    requires { id.0 < length shapes.now.sealed }
{
    let Some(target) = read_operand::<L>(alloc, words)? else {
        return Ok(false);
    };
    make_and_drop(alloc, shapes, id, &None, target, out)
}

/// Makes the clone of an operand's value at another operand. False where the one holds no value, or the other isn't
/// vacant.
pub fn make_clone<L: Leaf>(
    alloc: Global,
    shapes: &Shapes<L>,
    id: ShapeId,
    words: &mut Words,
    out: &mut Vec<u8>,
) -> Result<bool, AllocError>
    requires { id.0 < length shapes.now.sealed }
{
    let source = read_operand::<L>(alloc, words)?;
    if source.is_none() {
        return Ok(false);
    }
    let Some(target) = read_operand::<L>(alloc, words)? else {
        return Ok(false);
    };
    make_and_drop(alloc, shapes, id, &source, target, out)
}

// Makes a value, and again where memory ran out, and writes what the block and the log are then. Afterwards it drops
// the value, and what is left of the block is to be what it was, and the leaves that an attempt out of memory took back
// are to be among those that were made.
fn make_and_drop<L: Leaf>(
    alloc: Global,
    shapes: &Shapes<L>,
    id: ShapeId,
    source: &Option<Operand<L>>,
    mut target: Operand<L>,
    out: &mut Vec<u8>,
) -> Result<bool, AllocError>
    requires { id.0 < length shapes.now.sealed }
{
    let before = text_of(alloc, &target)?;
    let mut refused = DropLog::new(alloc);
    let mut log = DropLog::new(alloc);
    let made = match make(alloc, shapes, id, source, &mut target, &mut refused) {
        Ok(made) => {
            log = refused;
            refused = DropLog::new(alloc);
            made
        }
        Err(_) if text_of(alloc, &target)?.as_slice() != before.as_slice() => {
            out.write(b"the block is changed out of memory")?;
            return Ok(true);
        }
        Err(_) => make(alloc, shapes, id, source, &mut target, &mut log)?,
    };
    match made {
        Made::NotCalled => return Ok(false),
        Made::Nothing => out.write(b"None ")?,
        Made::Value => out.write(b"made ")?,
    }
    write_block(alloc, &target.block, out, LEVELS)?;
    out.write(b" ")?;
    write_log(log.leaves(), out)?;
    if matches!(made, Made::Value) && !drop_value(shapes, id, &mut target, &mut log)? {
        out.write(b", which is no value")?;
    }
    if text_of(alloc, &target)?.as_slice() != before.as_slice() {
        out.write(b", and the block isn't what it was")?;
    }
    if !are_among(refused.leaves(), log.leaves()) {
        out.write(b", and leaves are lost or doubled")?;
    }
    Ok(true)
}

// The text of an operand's block.
fn text_of<L: Leaf>(alloc: Global, operand: &Operand<L>) -> Result<Vec<u8>, AllocError> {
    let mut text = Vec::new(alloc);
    write_block(alloc, &operand.block, &mut text, LEVELS)?;
    Ok(text)
}

// Calls the default, or the clone of a source.
fn make<L: Leaf>(
    alloc: Global,
    shapes: &Shapes<L>,
    id: ShapeId,
    source: &Option<Operand<L>>,
    target: &mut Operand<L>,
    log: &mut DropLog<L>,
) -> Result<Made, AllocError>
    requires { id.0 < length shapes.now.sealed }
{
    if !is_vacant(shapes, id, target) {
        return Ok(Made::NotCalled);
    }
    let mut place = PtrUninit::new(&mut target.block, target.at);
    let made = match source {
        None => call_default_in_place(alloc, shapes, id, &mut place, log),
        Some(source) => {
            let Some(source) = readable(shapes, id, source) else {
                return Ok(Made::NotCalled);
            };
            call_clone_into(alloc, shapes, id, source, &mut place, log)
        }
    };
    place.assume_init();
    match made {
        Ok(Some(())) => Ok(Made::Value),
        Ok(None) => Ok(Made::Nothing),
        Err(error) => Err(error),
    }
}

// Drops the value of an operand into a log. False where it holds none.
fn drop_value<L: Leaf>(
    shapes: &Shapes<L>,
    id: ShapeId,
    operand: &mut Operand<L>,
    log: &mut DropLog<L>,
) -> Result<bool, AllocError>
    requires { id.0 < length shapes.now.sealed }
{
    if !holds_value(shapes, id, operand) {
        return Ok(false);
    }
    make_room_for(shapes, id, PtrConst::new(&operand.block, operand.at), log)?;
    call_drop_in_place(shapes, id, PtrMut::new(&mut operand.block, operand.at), log);
    Ok(true)
}

/// Drops the value of an operand, and writes the log and what is left of the block. False where it holds none.
pub fn drop_operand<L: Leaf>(
    alloc: Global,
    shapes: &Shapes<L>,
    id: ShapeId,
    words: &mut Words,
    out: &mut Vec<u8>,
) -> Result<bool, AllocError>
    requires { id.0 < length shapes.now.sealed }
{
    let Some(mut operand) = read_operand::<L>(alloc, words)? else {
        return Ok(false);
    };
    let mut log = DropLog::new(alloc);
    if !drop_value(shapes, id, &mut operand, &mut log)? {
        return Ok(false);
    }
    write_log(log.leaves(), out)?;
    out.write(b" ")?;
    write_block(alloc, &operand.block, out, LEVELS)?;
    Ok(true)
}
