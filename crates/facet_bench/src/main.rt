//! How long operations on values take: two lists of a million `u32` that differ in nothing are compared; an array of `u32`
//! is hashed again and again, since lists have no hash; and an array of arrays of `u32` is made, cloned and dropped again
//! and again. The answers go to standard output, and the time for each element to standard error.
#![tactic(auto)]

mod filled;
mod making;
mod report;

use facet_base::ShapeId;
use facet_block::{Block, PtrConst};
use facet_compare::{call_cmp, call_hash, call_partial_cmp, call_partial_eq};
use facet_leaf::{Fnv128, Scalar};
use facet_makers::{array_of, list_of};
use facet_readable::reads_as;
use facet_registry::Shapes;
use facet_walk::{depth, leaf_count};
use filled::{array_block, list_block};
use making::make_and_drop;
use report::{nanoseconds_since, report};
use std::alloc::{AllocError, Global};
use std::io;
use std::time::Instant;

/// The id of the shape of `u32` in every registry.
const U32: ShapeId = ShapeId(6);

/// The elements of each list.
const LIST_LEN: u32 = 1_000_000;

/// The elements of the array, which has 65,536 bytes: a shape has no more.
const ARRAY_LEN: u32 = 16_384;

/// The arrays in the array of arrays, and the elements of each.
const NESTED_LEN: usize = 128;

/// How often an array is hashed, or made, so that about a million elements are.
const ROUNDS: u32 = 61;

/// The shapes that are compared, hashed and made.
#[derive(Clone, Copy)]
struct Ids {
    list: ShapeId,
    array: ShapeId,
    nested: ShapeId,
}

fn main(rt: HostRuntime) -> io::Result<()> {
    let alloc = rt.alloc();
    let (shapes, ids) = match registry(alloc)? {
        Some(made) => made,
        None => return Ok(()),
    };
    let first = list_block(alloc, LIST_LEN)?;
    let second = list_block(alloc, LIST_LEN)?;
    compare(&rt, &shapes, ids.list, &first, &second)?;
    let block = array_block(alloc, ARRAY_LEN)?;
    hash(&rt, &shapes, ids.array, &block)?;
    make_and_drop(&rt, &shapes, ids.nested, ROUNDS)
}

// The sealed shapes, with the list, the array and the array of arrays of `u32`.
fn registry(alloc: Global) -> Result<Option<(Shapes<Scalar>, Ids)>, AllocError> {
    let mut shapes = Shapes::prelude(alloc)?;
    if shapes.len() <= 6 || shapes.len() > 100 {
        return Ok(None);
    }
    let list = list_of(alloc, &mut shapes, U32)?;
    let Some(array) = draft_array(alloc, &mut shapes, U32, ARRAY_LEN as usize)? else {
        return Ok(None);
    };
    let Some(row) = draft_array(alloc, &mut shapes, U32, NESTED_LEN)? else {
        return Ok(None);
    };
    let Some(nested) = draft_array(alloc, &mut shapes, row, NESTED_LEN)? else {
        return Ok(None);
    };
    let ids = Ids {
        list,
        array,
        nested,
    };
    match shapes.seal() {
        Ok(()) => Ok(Some((shapes, ids))),
        Err(_) => Ok(None),
    }
}

// Drafts an array of so many elements of a shape.
fn draft_array(
    alloc: Global,
    shapes: &mut Shapes<Scalar>,
    element: ShapeId,
    len: usize,
) -> Result<Option<ShapeId>, AllocError> {
    if shapes.len() <= element.0 as usize || shapes.len() > 100 {
        return Ok(None);
    }
    Ok(Some(array_of(alloc, shapes, element, len)?))
}

// Compares two values, each in its block, and prints what is answered.
fn compare(
    rt: &HostRuntime,
    shapes: &Shapes<Scalar>,
    id: ShapeId,
    first: &Block<Scalar>,
    second: &Block<Scalar>,
) -> io::Result<()> {
    if id.0 as usize >= shapes.sealed() {
        return Ok(());
    }
    let first = PtrConst::new(first, 0);
    let second = PtrConst::new(second, 0);
    let start = Instant::now(rt)?;
    if !reads_as(shapes, id, first) {
        return Ok(());
    }
    report(
        rt,
        "reads_as",
        nanoseconds_since(rt, start)?,
        LIST_LEN as u64,
    )?;
    if !reads_as(shapes, id, second) {
        return Ok(());
    }
    let start = Instant::now(rt)?;
    let equality = call_partial_eq(shapes, id, first, second);
    report(
        rt,
        "call_partial_eq",
        nanoseconds_since(rt, start)?,
        LIST_LEN as u64,
    )?;
    let start = Instant::now(rt)?;
    let partial = call_partial_cmp(shapes, id, first, second);
    report(
        rt,
        "call_partial_cmp",
        nanoseconds_since(rt, start)?,
        LIST_LEN as u64,
    )?;
    let start = Instant::now(rt)?;
    let total = call_cmp(shapes, id, first, second);
    report(
        rt,
        "call_cmp",
        nanoseconds_since(rt, start)?,
        LIST_LEN as u64,
    )?;
    let start = Instant::now(rt)?;
    let levels = depth(shapes, id, first);
    report(rt, "depth", nanoseconds_since(rt, start)?, LIST_LEN as u64)?;
    let leaves = leaf_count(shapes, id, first);
    let hash = call_hash(shapes, id, first, &mut Fnv128::new()).is_some();
    println!(rt;
        "lists: {equality:?} {partial:?} {total:?}, {levels} levels, {leaves} leaves, hash {hash}"
    )
}

// Hashes the value in a block again and again, and prints the digest.
fn hash(
    rt: &HostRuntime,
    shapes: &Shapes<Scalar>,
    id: ShapeId,
    block: &Block<Scalar>,
) -> io::Result<()> {
    if id.0 as usize >= shapes.sealed() {
        return Ok(());
    }
    let at = PtrConst::new(block, 0);
    if !reads_as(shapes, id, at) {
        return Ok(());
    }
    let mut digest = 0;
    let start = Instant::now(rt)?;
    for _round in 0..ROUNDS {
        let mut sink = Fnv128::new();
        if call_hash(shapes, id, at, &mut sink).is_some() {
            digest = sink.digest();
        }
    }
    report(
        rt,
        "call_hash",
        nanoseconds_since(rt, start)?,
        ROUNDS as u64 * ARRAY_LEN as u64,
    )?;
    println!(rt; "array: hash {digest:032x}")
}
