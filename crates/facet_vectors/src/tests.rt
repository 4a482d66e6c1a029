ghost use Rattle.std.specs.Prelude.{◌<◌};

mod declarations;
mod defaults;
mod rows;
mod seal;

use crate::fault::MainFault;
use declarations::{DECLARATIONS, NEAR_DECLARATIONS};
use defaults::DEFAULTS;
use facet_base::{Many, Text, Write};
use facet_leaf::Scalar;
use facet_script::{Report, Session, Status, run};
use facet_session::{Command, read_command};
use facet_stream::{ListSink, ListSource};
use rows::{ROWS, ROWS_WITH_ESCAPES};
use std::alloc::{AllocError, Global};
use std::process::Abort;
use std::test::Fail;

// How calls go: which reads and writes fail, and how many bytes one moves at most.
#[derive(Clone, Copy)]
struct Calls<'a> {
    reads: &'a [usize],
    writes: &'a [usize],
    most: usize,
    ghost moves: { 0 < most },
}

// What a run reported, wrote, and left in cells.
#[derive(Drop)]
struct Outcome {
    report: Report,
    written: Vec<u8>,
    cells: usize,
}

fn many(alloc: Global, numbers: &[usize]) -> Result<Many<usize>, AllocError> {
    let mut all = Many::new(alloc);
    for number in numbers {
        all.push(*number)?;
    }
    Ok(all)
}

fn run_over(
    alloc: Global,
    words: &Vec<String>,
    script: &[u8],
    room: usize,
    calls: Calls,
) -> Result<Outcome, AllocError> {
    let mut source = ListSource::new(script.to_vec(alloc)?, many(alloc, calls.reads)?, calls.most);
    let mut sink = ListSink::new(alloc, room, many(alloc, calls.writes)?, calls.most)?;
    let mut session = Session::<Scalar>::new(alloc)?;
    let report = run(alloc, words, &mut source, &mut sink, &mut session);
    Ok(Outcome {
        report,
        written: sink.bytes().to_vec(alloc)?,
        cells: session.cells.len(),
    })
}

// Runs over a script without words, with room for 10,000 bytes.
fn run_script(alloc: Global, script: &[u8], calls: Calls) -> Result<Outcome, AllocError> {
    run_over(alloc, &Vec::new(alloc), script, 10_000, calls)
}

fn all_well(most: usize) -> Calls<'static>
    requires { 0 < most }
{
    Calls {
        reads: &[],
        writes: &[],
        most,
    }
}

fn report(status: Status, lines: usize) -> Report {
    Report { status, lines }
}

// A row's script, and the answers to it.
fn parts(alloc: Global, row: &str) -> Result<(String, String), AllocError> {
    let mut script = String::new(alloc);
    let mut answers = String::new(alloc);
    for line in row.lines() {
        let answer = match line.split_once(" => ") {
            Some((command, answer)) => {
                script.push_str(command)?;
                script.push('\n')?;
                answer
            }
            None => line,
        };
        answers.push_str(answer)?;
        answers.push('\n')?;
    }
    Ok((script, answers))
}

// Runs each script over calls that move so many bytes at most.
fn rows_are_answered(rt: &impl Abort, alloc: Global, rows: &str, most: usize) -> Result<(), Fail>
    requires { 0 < most }
{
    for row in rows.split("\n\n") {
        let (script, answers) = parts(alloc, row)?;
        let outcome = run_script(alloc, script.as_bytes(), all_well(most))?;
        assert_eq!(rt;
            outcome.written.as_slice(),
            answers.as_bytes(),
            "at {row:?}"
        );
        let lines = answers.lines().count();
        assert_eq!(rt; outcome.report, report(Status::Ok, lines), "at {row:?}");
        assert_eq!(rt; outcome.cells, 0, "at {row:?}");
    }
    Ok(())
}

#[test]
fn each_script_has_its_answers(rt: HostRuntime) -> Result<(), Fail> {
    rows_are_answered(&rt, rt.alloc(), ROWS, 4096)?;
    rows_are_answered(&rt, rt.alloc(), ROWS_WITH_ESCAPES, 4096)
}

#[test]
fn declarations_are_drafted_or_refused(rt: HostRuntime) -> Result<(), Fail> {
    rows_are_answered(&rt, rt.alloc(), DECLARATIONS, 4096)?;
    rows_are_answered(&rt, rt.alloc(), NEAR_DECLARATIONS, 4096)
}

#[test]
fn defaults_are_made_or_taken_back(rt: HostRuntime) -> Result<(), Fail> {
    rows_are_answered(&rt, rt.alloc(), DEFAULTS, 4096)
}

#[test]
fn bytes_come_and_go_one_by_one(rt: HostRuntime) -> Result<(), Fail> {
    rows_are_answered(&rt, rt.alloc(), ROWS, 1)?;
    rows_are_answered(&rt, rt.alloc(), DEFAULTS, 1)
}

#[test]
fn a_last_line_without_a_newline_is_answered(rt: HostRuntime) -> Result<(), Fail> {
    let outcome = run_script(rt.alloc(), b"put a #6 5\nput b #6 2", all_well(4096))?;
    assert_eq!(rt; outcome.report, report(Status::Ok, 3));
    assert_eq!(rt;
        outcome.written.as_slice(),
        b"ok made [5]\nok made [2]\nend dropped [5, 2]\n".as_slice()
    );
    Ok(())
}

#[test]
fn a_line_that_is_not_utf8_is_syntax(rt: HostRuntime) -> Result<(), Fail> {
    let outcome = run_script(
        rt.alloc(),
        b"put a #6 \xff\nput a #99 \xc3\n",
        all_well(4096),
    )?;
    assert_eq!(rt;
        outcome.written.as_slice(),
        b"syntax\nsyntax\nend\n".as_slice()
    );
    Ok(())
}

#[test]
fn a_failed_read_answers_nothing(rt: HostRuntime) -> Result<(), Fail> {
    for failing in [1usize, 2, 12] {
        let reads = [failing];
        let calls = Calls {
            reads: &reads,
            writes: &[],
            most: 1,
        };
        let outcome = run_script(rt.alloc(), b"put a #6 5\n", calls)?;
        assert_eq!(rt;
            outcome.report,
            report(Status::ReadFault, 0),
            "at read {failing}"
        );
        assert_eq!(rt; outcome.written.len(), 0);
        assert_eq!(rt; outcome.cells, 0);
    }
    Ok(())
}

#[test]
fn a_failed_write_keeps_what_was_carried_out(rt: HostRuntime) -> Result<(), Fail> {
    let answers = b"ok made [5]\nend dropped [5]\n".as_slice();
    for failing in 1..29usize {
        let writes = [failing];
        let calls = Calls {
            reads: &[],
            writes: &writes,
            most: 1,
        };
        let outcome = run_script(rt.alloc(), b"put a #6 5\n", calls)?;
        let (lines, cells) = if failing <= 12 { (1, 1) } else { (2, 0) };
        assert_eq!(rt;
            outcome.report,
            report(Status::WriteFault, lines),
            "at write {failing}"
        );
        assert_eq!(rt; outcome.cells, cells, "at write {failing}");
        assert_eq!(rt;
            Some(outcome.written.as_slice()),
            answers.get(..failing - 1)
        );
    }
    Ok(())
}

#[test]
fn an_answer_and_its_newline_are_written_at_once(rt: HostRuntime) -> Result<(), Fail> {
    let script = b"put a #6 4294967295\nput b #6 4294967296\nput b #6 +7\n";
    let calls = Calls {
        reads: &[],
        writes: &[2],
        most: 4096,
    };
    let outcome = run_script(rt.alloc(), script, calls)?;
    assert_eq!(rt; outcome.report, report(Status::WriteFault, 2));
    assert_eq!(rt;
        outcome.written.as_slice(),
        b"ok made [4294967295]\n".as_slice()
    );
    assert_eq!(rt; outcome.cells, 1);
    Ok(())
}

#[test]
fn a_full_sink_is_a_write_fault(rt: HostRuntime) -> Result<(), Fail> {
    let alloc = rt.alloc();
    let outcome = run_over(alloc, &Vec::new(alloc), b"put a #6 5\n", 14, all_well(4096))?;
    assert_eq!(rt; outcome.report, report(Status::WriteFault, 2));
    assert_eq!(rt; outcome.written.as_slice(), b"ok made [5]\nen".as_slice());
    Ok(())
}

#[test]
fn words_are_usage(rt: HostRuntime) -> Result<(), Fail> {
    let alloc = rt.alloc();
    for line in ["demo 0", "x", "demo 5"] {
        let mut words = Vec::new(alloc);
        for word in line.split(' ') {
            words.push(String::from_str(alloc, word)?)?;
        }
        let outcome = run_over(alloc, &words, b"put a #6 5\n", 1000, all_well(4096))?;
        assert_eq!(rt; outcome.report, report(Status::Usage, 0), "at {line:?}");
        assert_eq!(rt; outcome.written.len(), 0);
    }
    Ok(())
}

#[test]
fn a_script_may_have_a_mebibyte(rt: HostRuntime) -> Result<(), Fail> {
    let alloc = rt.alloc();
    let mut script = Vec::new(alloc);
    for _ in 0..1_048_576u32 {
        script.push(b'\n')?;
    }
    let room = 7 * 1_048_576 + 4;
    let outcome = run_over(alloc, &Vec::new(alloc), &script, room, all_well(65_536))?;
    assert_eq!(rt; outcome.report, report(Status::Ok, 1_048_577));
    assert_eq!(rt; outcome.written.len(), room);
    assert!(rt;
        outcome
            .written
            .chunks(7)
            .take(1_048_576)
            .all(|line| line == b"syntax\n".as_slice())
    );
    assert!(rt; outcome.written.ends_with(b"end\n"));
    script.push(b'\n')?;
    let outcome = run_over(alloc, &Vec::new(alloc), &script, room, all_well(65_536))?;
    assert_eq!(rt; outcome.report, report(Status::TooLong, 0));
    assert_eq!(rt; outcome.written.len(), 0);
    Ok(())
}

// Whether the command is `put a #6 x y`.
fn is_put(found: &Option<Command>) -> bool {
    match found {
        Some(Command::Put(name, shape, text)) => {
            name.as_str() == "a" && shape.0 == 6 && text.as_str() == "x y"
        }
        _ => false,
    }
}

#[test]
fn calls_that_take_memory_answer(rt: HostRuntime) -> Result<(), Fail> {
    let alloc = rt.alloc();
    let text = Text::new(alloc, "a text")?;
    assert_eq!(rt; text.try_clone(alloc)?.as_str(), "a text");
    let mut numbers = many(alloc, &[1, 2, 3])?;
    numbers.reserve(4)?;
    assert!(rt; numbers.spare() >= 4);
    assert_eq!(rt; numbers.as_slice(), [1, 2, 3].as_slice());
    let mut bytes = Vec::new(alloc);
    Write::reserve(&mut bytes, 3)?;
    Write::write(&mut bytes, b"abc")?;
    assert_eq!(rt; bytes.as_slice(), b"abc".as_slice());
    let found = read_command(alloc, b"put a #6 x y")?;
    assert!(rt; is_put(&found));
    Ok(())
}

#[test]
fn each_fault_has_its_text_and_its_exit_status(rt: HostRuntime) -> Result<(), Fail> {
    let alloc = rt.alloc();
    for (status, text, code) in [
        (Status::Usage, "usage: facet_vectors [demo N]", 2),
        (Status::ReadFault, "read fault", 3),
        (Status::WriteFault, "write fault", 4),
        (Status::TooLong, "input too long", 5),
        (Status::NoMemory, "no memory", 6),
    ] {
        let fault = MainFault::of(status).ok_or("a fault")?;
        assert_eq!(rt; fault.to_string(alloc)?.as_str(), text);
        assert_eq!(rt; fault.code(), code);
    }
    Ok(())
}
