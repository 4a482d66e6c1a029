use crate::registry::Registry;
use std::alloc::{AllocError, Global};
use std::io;
use std::str::from_utf8;

/// How many rows of a section were answered as they say, and how many weren't.
#[derive(Drop)]
struct Tally<'a> {
    section: &'a str,
    expected: usize,
    others: usize,
}

/// Answers the rows of a table, and prints for each section how many are answered as they say, and each row that
/// isn't. True where none is.
pub fn answer_table(rt: &HostRuntime, text: &str) -> io::Result<bool> {
    let alloc = rt.alloc();
    let mut registry = None;
    let mut tally = Tally {
        section: "before the first section",
        expected: 0,
        others: 0,
    };
    let mut is_right = true;
    for line in text.lines() {
        if let Some(section) = line.strip_prefix("section ") {
            is_right = is_right && report(rt, &tally)?;
            tally = Tally {
                section,
                expected: 0,
                others: 0,
            };
        } else if let Some(leaf) = line.strip_prefix("leaf ") {
            registry = new_registry(alloc, leaf)?;
        } else if !line.is_empty() && !line.starts_with('#') {
            answer_line(rt, &mut registry, line, &mut tally)?;
        }
    }
    Ok(report(rt, &tally)? && is_right)
}

// Prints the tally of a section that has rows. True where all are answered as they say.
fn report(rt: &HostRuntime, tally: &Tally) -> io::Result<bool> {
    let section = tally.section;
    let expected = tally.expected;
    let others = tally.others;
    if expected > 0 || others > 0 {
        println!(rt; "{section}: {expected} as expected, {others} not")?;
    }
    Ok(others == 0)
}

// The registry of a leaf type, also where the first attempt is out of memory.
fn new_registry(alloc: Global, leaf: &str) -> Result<Option<Registry>, AllocError> {
    match Registry::new(alloc, leaf) {
        Ok(registry) => Ok(registry),
        Err(_) => Registry::new(alloc, leaf),
    }
}

// Answers a row, or carries out a line on shapes, and prints what isn't as expected.
fn answer_line(
    rt: &HostRuntime,
    registry: &mut Option<Registry>,
    line: &str,
    tally: &mut Tally,
) -> io::Result<()> {
    let alloc = rt.alloc();
    let Some(registry) = registry else {
        return println!(rt; "{line}: no leaf type");
    };
    let Some((question, expected)) = line.split_once(" => ") else {
        if !describe(alloc, registry, line)? {
            println!(rt; "{line}: refused")?;
        }
        return Ok(());
    };
    let answer = answer(alloc, registry, question)?;
    if answer.as_slice() == expected.as_bytes() {
        tally.expected = tally.expected.saturating_add(1);
        return Ok(());
    }
    tally.others = tally.others.saturating_add(1);
    match from_utf8(&answer) {
        Ok(answer) => println!(rt; "{line}\nis answered {answer}"),
        Err(_) => println!(rt; "{line}\nis answered by no text"),
    }
}

// Carries out a line on shapes, again where the first attempt is out of memory.
fn describe(alloc: Global, registry: &mut Registry, line: &str) -> Result<bool, AllocError> {
    match registry.describe(alloc, line) {
        Ok(is_done) => Ok(is_done),
        Err(_) => registry.describe(alloc, line),
    }
}

// The answer to a question, also where the first attempt is out of memory.
fn answer(alloc: Global, registry: &Registry, question: &str) -> Result<Vec<u8>, AllocError> {
    match registry.answer(alloc, question) {
        Ok(answer) => Ok(answer),
        Err(_) => registry.answer(alloc, question),
    }
}
