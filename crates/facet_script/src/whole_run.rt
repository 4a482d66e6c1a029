ghost use Rattle.std.specs.Prelude.{◌≡◌, ◌≢◌, ◌↔◌, ◌+◌, ◌<◌, ◌≤◌, [], List, ℕ, length, vec_len, IsSomeAnd};
ghost use Rattle.std.specs.Io.KnownBytes.{IsAtEnd};
ghost use Rattle.facet_session.specs.Session.{IsNew};
ghost use Rattle.facet_stream.specs.Causes.{Rose, RoseBy};
ghost use Rattle.facet_script.specs.Run.{FitsKnown, Serves, Steady, IsServed};

use crate::input::{LIMIT, PIECE, ReadError, read_all};
use crate::serving::serve;
use crate::{Report, Status};
use facet_block::Leaf;
use facet_session::Session;
use facet_stream::{Sink, Source};
use std::alloc::Global;

/// Reads a script of at most 1,048,576 bytes to its end, and answers each line and the end. Words stop it
/// before it reads. A run that stops early leaves the session as the commands that were carried out left it.
pub fn run<L: Leaf, S: Source, K: Sink>(
    alloc: Global,
    words: &Vec<String>,
    source: &mut S,
    sink: &mut K,
    session: &mut Session<L>,
) -> Report
    requires { IsNew L.model session.old }

    // What was written and what the session holds, for the script that the source had left, where that is known.
    ensures served { (script : List ℕ) × FitsKnown (S.left source.old) script
        × Serves L.model script result (K.written sink.old) (K.written sink.new) session.new }
    ensures read { result.status ≡ Status.Ok → IsAtEnd (S.left source.new) }
    ensures dropped { result.status ≡ Status.Ok → session.new.cells.items ≡ [] }

    // When each status may come.
    ensures usage { (result.status ≡ Status.Usage) ↔ (0 < vec_len words.now) }
    ensures untouched { result.status ≡ Status.Usage → (source.new ≡ source.old) × (sink.new ≡ sink.old) }
    ensures read_fault { result.status ≡ Status.ReadFault → Rose (S.faults source.old) (S.faults source.new) }
    ensures write_fault { result.status ≡ Status.WriteFault → Rose (K.faults sink.old) (K.faults sink.new) }
    ensures too_long { result.status ≡ Status.TooLong → RoseBy (LIMIT + 1) (S.taken source.old) (S.taken source.new) }
    ensures too_long_only { S.taken source.old + LIMIT < S.taken source.new → result.status ≡ Status.TooLong }

    ensures taken { S.taken source.new ≤ S.taken source.old + LIMIT + PIECE }

    // No fault is passed over, and nothing else stops a run but running out of memory.
    ensures no_read_fault { result.status ≢ Status.ReadFault → S.faults source.new ≡ S.faults source.old }
    ensures no_write_fault { result.status ≢ Status.WriteFault → K.faults sink.new ≡ K.faults sink.old }
    ensures complete { vec_len words.now ≡ 0 → IsSomeAnd (S.left source.old) (λ script. length script ≤ LIMIT) →
        Steady (S.faults source.old) (S.faults source.new) → Steady (K.faults sink.old) (K.faults sink.new) →
        IsServed result.status }
{
    if !words.is_empty() {
        return stopped(Status::Usage);
    }
    match read_all(alloc, source) {
        Ok(script) => serve(alloc, &script, sink, session),
        Err(ReadError::Failed) => stopped(Status::ReadFault),
        Err(ReadError::TooLong) => stopped(Status::TooLong),
        Err(ReadError::Memory) => stopped(Status::NoMemory),
    }
}

// The report of a run that answered nothing.
fn stopped(status: Status) -> Report
    ensures { result ≡ record { status = status; lines = 0 } }
{
    Report { status, lines: 0 }
}
