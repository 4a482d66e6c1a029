//! A value whose type is known only at run time: parsed through its shape into a block, printed, taken out again and
//! dropped into a log. Each test here is one that a call requires, so no proof is written by hand.
#![tactic(auto)]

use facet_base::{Characteristic, ShapeId};
use facet_block::{Block, DropLog, ItemKind, Leaf, PtrUninit, Scalar};
use facet_shapes::{Shapes, ValueKind};
use std::alloc::{AllocError, Global};
use std::process::ExitCode;
use std::str::from_utf8;

/// The id of the shape of `u32` in every registry.
const U32: ShapeId = ShapeId(6);

fn main(rt: HostRuntime) -> ExitCode {
    match example(&rt) {
        Ok(true) => ExitCode::SUCCESS,
        _ => ExitCode::FAILURE,
    }
}

// Prints the values of two texts, and how many of them were dropped.
fn example(rt: &HostRuntime) -> Result<bool, AllocError> {
    let alloc = rt.alloc();
    let shapes: Shapes<Scalar> = Shapes::prelude(alloc)?;
    let mut log = DropLog::new(alloc);
    let mut text = Vec::new(alloc);
    let parsed = through_a_block(alloc, &shapes, U32, "0042", &mut text, &mut log)?;
    let refused = through_a_block(alloc, &shapes, U32, "-1", &mut text, &mut log)?;
    if let Ok(text) = from_utf8(&text) {
        let _ = rt.println(text);
    }
    let _ = rt.println(log.leaves().len());
    Ok(parsed && !refused)
}

// Whether `text` is a value of the shape. If so, its debug text is written to `out`, and it ends in the log.
fn through_a_block(
    alloc: Global,
    shapes: &Shapes<Scalar>,
    id: ShapeId,
    text: &str,
    out: &mut Vec<u8>,
    log: &mut DropLog<Scalar>,
) -> Result<bool, AllocError> {
    if id.0 as usize >= shapes.len() {
        return Ok(false);
    }
    let ValueKind::Leaf(kind) = shapes.kind_of(id) else {
        return Ok(false);
    };
    let mut block = Block::new(alloc, shapes.size_of(id))?;
    if block.size() == 0 || block.item_at(0) != ItemKind::Nothing {
        return Ok(false);
    }
    if !Scalar::can(kind, Characteristic::FromStr) {
        return Ok(false);
    }
    let Ok(leaf) = Scalar::parse(alloc, kind, text)? else {
        return Ok(false);
    };
    log.make_room(1)?;
    let place = PtrUninit::new(&mut block, 0).put(leaf);
    place.get().write_debug(out)?;
    log.push(place.read());
    Ok(true)
}
