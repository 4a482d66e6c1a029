ghost use Rattle.std.specs.Prelude.{◌≡◌, ◌≢◌, ◌⊎◌, ◌<◌, ◌≤◌, ◌+◌, [], ◌∷◌, ℕ, length, IfOk, IfErr, OnOk};
ghost use Rattle.std.specs.List.{before_first, after_first, position_or_len};
ghost use Rattle.facet_session.specs.Script.{is_newline, after};
ghost use Rattle.facet_session.specs.Interpreter.{last};
ghost use Rattle.facet_session.specs.Session.{IsNew};
ghost use Rattle.facet_stream.specs.Causes.{Rose};
ghost use Rattle.facet_script.specs.Output.{status_of};
ghost use Rattle.facet_script.specs.Progress.{HasAnswered};
ghost use Rattle.facet_script.specs.Run.{Serves, IsCutShort};

use crate::input::LIMIT;
use crate::output::{OutputError, write_line};
use crate::{Report, Status};
use facet_block::Leaf;
use facet_session::{Session, finish, step};
use facet_stream::Sink;
use std::alloc::{AllocError, Global};

/// Answers each line of a script of at most `LIMIT` bytes, and the end.
pub fn serve<L: Leaf, K: Sink>(
    alloc: Global,
    script: &[u8],
    sink: &mut K,
    session: &mut Session<L>,
) -> Report
    requires new { IsNew L.model session.old }
    requires short { length script.now ≤ LIMIT }
    ensures served { Serves L.model script.now result (K.written sink.old) (K.written sink.new) session.new }
    ensures dropped { result.status ≡ Status.Ok → session.new.cells.items ≡ [] }
    ensures status { (result.status ≡ Status.Ok) ⊎ IsCutShort result.status }
    ensures failed { result.status ≡ Status.WriteFault → Rose (K.faults sink.old) (K.faults sink.new) }
    ensures kept { result.status ≢ Status.WriteFault → K.faults sink.new ≡ K.faults sink.old }
{
    let lines = match serve_lines(alloc, script, sink, session) {
        Ok(lines) => lines,
        Err(report) => return report,
    };
    let answer = match finish(alloc, session) {
        Ok(answer) => answer,
        Err(AllocError) => return out_of_memory(lines),
    };
    let lines = lines + 1;
    match write_line(sink, answer.text) {
        Ok(()) => Report {
            status: Status::Ok,
            lines,
        },
        Err(error) => unwritten(error, lines),
    }
}

// Answers each line, and says how many there are.
fn serve_lines<L: Leaf, K: Sink>(
    alloc: Global,
    script: &[u8],
    sink: &mut K,
    session: &mut Session<L>,
) -> Result<usize, Report>
    requires new { IsNew L.model session.old }
    requires short { length script.now ≤ LIMIT }
    ensures progress { IfOk result (λ k. HasAnswered L.model script.now k (last (after L.model script.now k) ∷ []) (K.written sink.old) (K.written sink.new) session.new) }
    ensures few { IfOk result (λ k. k ≤ length script.now) }
    ensures kept { OnOk result (K.faults sink.new ≡ K.faults sink.old) }

    ensures served { IfErr result (λ report. Serves L.model script.now report (K.written sink.old) (K.written sink.new) session.new) }
    ensures status { IfErr result (λ report. IsCutShort report.status) }
    ensures failed { IfErr result (λ report. report.status ≡ Status.WriteFault → Rose (K.faults sink.old) (K.faults sink.new)) }
    ensures kept_after { IfErr result (λ report. report.status ≢ Status.WriteFault → K.faults sink.new ≡ K.faults sink.old) }
{
    let mut rest = script;
    let mut lines = 0;
    while !rest.is_empty() {
        let (line, after) = cut_line(rest);
        let answer = match step(alloc, session, line) {
            Ok(answer) => answer,
            Err(AllocError) => return Err(out_of_memory(lines)),
        };
        lines += 1;
        match write_line(sink, answer.text) {
            Ok(()) => rest = after,
            Err(error) => return Err(unwritten(error, lines)),
        }
    }
    Ok(lines)
}

// The report of a run that memory ran out in after so many answers.
fn out_of_memory(lines: usize) -> Report
    ensures { result ≡ record { status = Status.NoMemory; lines = lines } }
{
    Report {
        status: Status::NoMemory,
        lines,
    }
}

// The report of a run whose last answer, of so many, was not written whole.
fn unwritten(error: OutputError, lines: usize) -> Report
    ensures { result ≡ record { status = status_of error; lines = lines } }
{
    Report {
        status: error.status(),
        lines,
    }
}

// The first line, and what follows its newline.
fn cut_line(script: &[u8]) -> (&[u8], &[u8])
    ensures line { result.0.now ≡ before_first is_newline script.now }
    ensures rest { result.1.now ≡ after_first is_newline script.now }
    ensures shorter { 0 < length script.now → length result.1.now < length script.now }
{
    let end = end_of_line(script);
    if end == script.len() {
        return (script, &[]);
    }
    (&script[..end], &script[end + 1..])
}

// Where the first newline is, or the end.
fn end_of_line(script: &[u8]) -> usize
    ensures first { result ≡ position_or_len is_newline script.now }
    ensures within { result ≤ length script.now }
{
    for (i, byte) in script.iter().enumerate() {
        if *byte == b'\n' {
            return i;
        }
    }
    script.len()
}
