ghost use Rattle.std.specs.Prelude.{◌<◌, length};
ghost use Rattle.std.specs.Bool.{OnTrue};
ghost use Rattle.facet_block.specs.Span.{IsVacant, span};
ghost use Rattle.facet_registry.specs.Registry.{size_at};

use crate::report::{nanoseconds_since, report};
use facet_base::ShapeId;
use facet_block::{Block, DropLog, PtrConst, PtrMut, PtrUninit};
use facet_drop::{call_drop_in_place, make_room_for};
use facet_leaf::Scalar;
use facet_make::{call_clone_into, call_default_in_place};
use facet_readable::reads_as;
use facet_registry::Shapes;
use std::io;
use std::time::Instant;

/// How long the calls of all rounds took, in nanoseconds.
#[derive(Clone, Copy)]
struct Times {
    defaults: u128,
    clones: u128,
    drops: u128,
}

/// Makes the default of a shape, clones it, and drops both, so many times, and prints how many leaves were dropped, and
/// how long each call took for each leaf.
pub fn make_and_drop(
    rt: &HostRuntime,
    shapes: &Shapes<Scalar>,
    id: ShapeId,
    rounds: u32,
) -> io::Result<()> {
    if id.0 as usize >= shapes.sealed() {
        return Ok(());
    }
    let mut log = DropLog::new(rt.alloc());
    let mut times = Times {
        defaults: 0,
        clones: 0,
        drops: 0,
    };
    let mut leaves: u64 = 0;
    for _round in 0..rounds {
        times = make_and_drop_once(rt, shapes, id, &mut log, times)?;
        leaves = leaves.saturating_add(log.leaves().len() as u64);
        log.clear();
    }
    println!(rt; "nested arrays: {leaves} leaves dropped")?;
    if leaves < 2 {
        return Ok(());
    }
    report(rt, "call_default_in_place", times.defaults, leaves / 2)?;
    report(rt, "call_clone_into", times.clones, leaves / 2)?;
    report(rt, "call_drop_in_place", times.drops, leaves)
}

// Makes the default and its clone, and drops both into the log. The times have what the calls took added.
fn make_and_drop_once(
    rt: &HostRuntime,
    shapes: &Shapes<Scalar>,
    id: ShapeId,
    log: &mut DropLog<Scalar>,
    times: Times,
) -> io::Result<Times>
    requires { id.0 < length shapes.now.sealed }
{
    let alloc = rt.alloc();
    let mut first = Block::new(alloc, shapes.size_of(id))?;
    let mut second = Block::new(alloc, shapes.size_of(id))?;
    if !is_vacant(shapes, id, &first) || !is_vacant(shapes, id, &second) {
        return Ok(times);
    }
    let start = Instant::now(rt)?;
    let mut place = PtrUninit::new(&mut first, 0);
    call_default_in_place(alloc, shapes, id, &mut place, log)?;
    place.assume_init();
    let defaults = nanoseconds_since(rt, start)?;
    if !reads_as(shapes, id, PtrConst::new(&first, 0)) {
        return Ok(times);
    }
    let start = Instant::now(rt)?;
    let mut place = PtrUninit::new(&mut second, 0);
    call_clone_into(alloc, shapes, id, PtrConst::new(&first, 0), &mut place, log)?;
    place.assume_init();
    let clones = nanoseconds_since(rt, start)?;
    let start = Instant::now(rt)?;
    drop_value(shapes, id, &mut first, log)?;
    drop_value(shapes, id, &mut second, log)?;
    let drops = nanoseconds_since(rt, start)?;
    Ok(Times {
        defaults: times.defaults.saturating_add(defaults),
        clones: times.clones.saturating_add(clones),
        drops: times.drops.saturating_add(drops),
    })
}

// Whether a value can be made at the start of a block.
fn is_vacant(shapes: &Shapes<Scalar>, id: ShapeId, block: &Block<Scalar>) -> bool
    requires { id.0 < length shapes.now.sealed }
    ensures { OnTrue result (IsVacant block.now (span 0 (size_at shapes.now.sealed id.0))) }
{
    let size = shapes.size_of(id);
    size <= block.size() && block.is_empty_in(0, size)
}

// Drops the value at the start of a block, if one is there.
fn drop_value(
    shapes: &Shapes<Scalar>,
    id: ShapeId,
    block: &mut Block<Scalar>,
    log: &mut DropLog<Scalar>,
) -> io::Result<()>
    requires { id.0 < length shapes.now.sealed }
{
    if !reads_as(shapes, id, PtrConst::new(block, 0)) {
        return Ok(());
    }
    make_room_for(shapes, id, PtrConst::new(block, 0), log)?;
    call_drop_in_place(shapes, id, PtrMut::new(block, 0), log);
    Ok(())
}
