// What `seal` answers to the drafts of each row, in a run of its own.

mod causes;
mod layouts;
mod records;
mod references;

use super::rows_are_answered;
use causes::{CAUSES, HOSTILE, SEAL_SCRIPTS, TEMPLATES, TWO_CAUSES};
use layouts::{FIELDS, LAYOUTS, LONG_NAMES, NAMED, SIZES};
use records::{CAPABILITIES, DISCRIMINANTS, LEAVES, MISMATCHES, VARIANTS};
use references::{CHAINS, CYCLES, KEYS, REFERENCES, SEALED_CHAINS, UNSIZED_PARTS};
use std::alloc::{AllocError, Global};
use std::process::Abort;
use std::test::Fail;

// A script with the answers to its lines, and the id that its next draft gets.
#[derive(Drop)]
struct Script {
    alloc: Global,
    text: String,
    next: usize,
}

impl Script {
    fn new(alloc: Global) -> Script {
        Script {
            alloc,
            text: String::new(alloc),
            next: 16,
        }
    }

    fn add_number(&mut self, number: usize) -> Result<(), AllocError> {
        let text = format!(in self.alloc; "{number}")?;
        self.text.push_str(text.as_str())
    }

    // Adds a draft, whose answer is its id. In its declaration `%` is the id `first`, `<` the id before its own, and `>`
    // the id behind it.
    fn add_draft(&mut self, declaration: &str, first: usize) -> Result<(), AllocError> {
        let id = self.next;
        self.text.push_str("shape ")?;
        for character in declaration.chars() {
            match character {
                '%' => self.add_number(first)?,
                '<' => self.add_number(id.saturating_sub(1))?,
                '>' => self.add_number(id.saturating_add(1))?,
                _ => self.text.push(character)?,
            }
        }
        self.text.push_str(" => #")?;
        self.add_number(id)?;
        self.next = id.saturating_add(1);
        self.text.push('\n')
    }

    // Adds the drafts of a row, of which the first one has the id `first`. Each is sealed before the next one if so told.
    fn add_drafts(&mut self, drafts: &str, one_by_one: bool) -> Result<(), AllocError> {
        let first = self.next;
        for piece in drafts.split("; ") {
            let (times, declaration) = repeated(piece);
            self.add_equal_drafts(declaration, times, first, one_by_one)?;
        }
        Ok(())
    }

    fn add_equal_drafts(
        &mut self,
        declaration: &str,
        times: usize,
        first: usize,
        one_by_one: bool,
    ) -> Result<(), AllocError> {
        for _ in 0..times {
            if one_by_one && self.next != first {
                self.add_seal("ok")?;
            }
            self.add_draft(declaration, first)?;
        }
        Ok(())
    }

    fn add_seal(&mut self, answer: &str) -> Result<(), AllocError> {
        self.text.push_str("seal => ")?;
        self.text.push_str(answer)?;
        self.text.push('\n')
    }

    // Adds that the shape of an id meets a cause.
    fn add_refusal(&mut self, cause: &str, id: usize) -> Result<(), AllocError> {
        let answer = format!(in self.alloc; "refused {cause} #{id}")?;
        self.add_seal(answer.as_str())
    }

    // Runs over the script.
    fn is_answered(mut self, rt: &impl Abort) -> Result<(), Fail> {
        self.text.push_str("end")?;
        rows_are_answered(rt, self.alloc, self.text.as_str(), 4096)
    }
}

// How often a draft is there, and its declaration.
fn repeated(piece: &str) -> (usize, &str) {
    match piece.split_once(" * ") {
        Some((times, declaration)) => match times.parse::<usize>() {
            Ok(times) => (times, declaration),
            Err(_) => (0, declaration),
        },
        None => (1, piece),
    }
}

// Runs over the drafts of each row.
fn drafts_are_answered(
    rt: &impl Abort,
    alloc: Global,
    rows: &str,
    one_by_one: bool,
) -> Result<(), Fail> {
    for line in rows.lines() {
        let (drafts, answer) = line.split_once(" => ").ok_or("no answer")?;
        let mut script = Script::new(alloc);
        script.add_drafts(drafts, one_by_one)?;
        script.add_seal(answer)?;
        script.is_answered(rt)?;
    }
    Ok(())
}

#[test]
fn drafts_are_sealed_or_the_cause_is_named(rt: HostRuntime) -> Result<(), Fail> {
    let alloc = rt.alloc();
    drafts_are_answered(&rt, alloc, CAUSES, false)?;
    drafts_are_answered(&rt, alloc, HOSTILE, false)?;
    drafts_are_answered(&rt, alloc, TWO_CAUSES, false)
}

#[test]
fn what_a_shape_refers_to_is_there_and_has_a_size_and_an_order(
    rt: HostRuntime,
) -> Result<(), Fail> {
    let alloc = rt.alloc();
    drafts_are_answered(&rt, alloc, REFERENCES, false)?;
    drafts_are_answered(&rt, alloc, CYCLES, false)?;
    drafts_are_answered(&rt, alloc, CHAINS, false)?;
    drafts_are_answered(&rt, alloc, UNSIZED_PARTS, false)?;
    drafts_are_answered(&rt, alloc, KEYS, false)
}

#[test]
fn what_a_shape_says_of_itself_fits_together(rt: HostRuntime) -> Result<(), Fail> {
    let alloc = rt.alloc();
    drafts_are_answered(&rt, alloc, MISMATCHES, false)?;
    drafts_are_answered(&rt, alloc, DISCRIMINANTS, false)?;
    drafts_are_answered(&rt, alloc, LEAVES, false)?;
    drafts_are_answered(&rt, alloc, CAPABILITIES, false)
}

#[test]
fn values_have_sizes_layouts_and_fields_that_can_be(rt: HostRuntime) -> Result<(), Fail> {
    let alloc = rt.alloc();
    drafts_are_answered(&rt, alloc, SIZES, false)?;
    drafts_are_answered(&rt, alloc, LAYOUTS, false)?;
    drafts_are_answered(&rt, alloc, FIELDS, false)
}

#[test]
fn what_is_sealed_counts_for_what_is_drafted_over_it(rt: HostRuntime) -> Result<(), Fail> {
    drafts_are_answered(&rt, rt.alloc(), SEALED_CHAINS, true)
}

#[test]
fn a_refusal_cuts_the_drafts_and_leaves_what_is_sealed(rt: HostRuntime) -> Result<(), Fail> {
    rows_are_answered(&rt, rt.alloc(), SEAL_SCRIPTS, 4096)
}

// Runs over the drafts of one template and then of another, of which the first or the second has the cause that is to be
// named.
fn pair_is_answered(
    rt: &impl Abort,
    alloc: Global,
    one: &str,
    other: &str,
    is_first: bool,
) -> Result<(), Fail> {
    let (drafts, cause) = one.split_once(" => ").ok_or("no cause")?;
    let (other_drafts, other_cause) = other.split_once(" => ").ok_or("no cause")?;
    let mut script = Script::new(alloc);
    script.add_drafts(drafts, false)?;
    let last = script.next.saturating_sub(1);
    script.add_drafts(other_drafts, false)?;
    let other_last = script.next.saturating_sub(1);
    if is_first {
        script.add_refusal(cause, last)?;
    } else {
        script.add_refusal(other_cause, other_last)?;
    }
    script.is_answered(rt)
}

// Runs over the template at an index, and behind it each of them.
fn pairs_of_one_are_answered(
    rt: &impl Abort,
    alloc: Global,
    templates: &str,
    index: usize,
    one: &str,
) -> Result<(), Fail> {
    for (other_index, other) in templates.lines().enumerate() {
        pair_is_answered(rt, alloc, one, other, index <= other_index)?;
    }
    Ok(())
}

// Runs over each ordered pair of templates, which stand in the order of their causes.
fn pairs_are_answered(rt: &impl Abort, alloc: Global, templates: &str) -> Result<(), Fail> {
    for (index, one) in templates.lines().enumerate() {
        pairs_of_one_are_answered(rt, alloc, templates, index, one)?;
    }
    assert_eq!(rt; templates.lines().count(), 15);
    Ok(())
}

#[test]
fn of_two_causes_the_earlier_is_named_and_of_one_the_least_shape(
    rt: HostRuntime,
) -> Result<(), Fail> {
    pairs_are_answered(&rt, rt.alloc(), TEMPLATES)
}

// An enum of so many variants without discriminants.
fn enum_of(alloc: Global, head: &str, count: usize) -> Result<String, AllocError> {
    let mut declaration = format!(in alloc; "enum A {head} -")?;
    for _ in 0..count {
        declaration.push_str(" X")?;
    }
    Ok(declaration)
}

fn variants_are_answered(
    rt: &impl Abort,
    alloc: Global,
    rows: &[(&str, usize, &str)],
) -> Result<(), Fail> {
    for (head, count, answer) in rows {
        let declaration = enum_of(alloc, head, *count)?;
        let mut script = Script::new(alloc);
        script.add_drafts(declaration.as_str(), false)?;
        script.add_seal(answer)?;
        script.is_answered(rt)?;
    }
    Ok(())
}

#[test]
fn an_enum_has_as_many_variants_as_its_representation_has_numbers(
    rt: HostRuntime,
) -> Result<(), Fail> {
    variants_are_answered(&rt, rt.alloc(), &VARIANTS)
}

// Adds the drafts up to #24, whose name has 65,513 bytes and those letters.
fn add_long_name(alloc: Global, script: &mut Script, letters: usize) -> Result<(), Fail> {
    let name = "ABCDEFGHIJKLMNOPQRSTUVW".get(..letters).ok_or("too few")?;
    script.add_drafts("struct ABCDEFGHIJKLMNOPQRSTUVW 0 1 epo", false)?;
    let declaration = format!(in alloc; "struct {name} 0 1 epo")?;
    script.add_drafts(declaration.as_str(), false)?;
    script.add_drafts(LONG_NAMES, false)?;
    Ok(())
}

// Runs over drafts behind #24, whose last one adds so many bytes to the name of #24: with a name of 65,536 bytes, and of
// one more. What they are made of is sealed before, or not.
fn name_is_answered(
    rt: &impl Abort,
    alloc: Global,
    drafts: &str,
    added: usize,
    is_sealed: bool,
) -> Result<(), Fail> {
    for (bytes, fits) in [(23usize, true), (24, false)] {
        let mut script = Script::new(alloc);
        add_long_name(alloc, &mut script, bytes.saturating_sub(added))?;
        if is_sealed {
            script.add_seal("ok")?;
        }
        script.add_drafts(drafts, false)?;
        if fits {
            script.add_seal("ok")?;
        } else {
            let last = script.next.saturating_sub(1);
            script.add_refusal("TooLarge", last)?;
        }
        script.is_answered(rt)?;
    }
    Ok(())
}

fn names_are_answered(rt: &impl Abort, alloc: Global, rows: &[(&str, usize)]) -> Result<(), Fail> {
    for (drafts, added) in rows {
        name_is_answered(rt, alloc, drafts, *added, false)?;
        name_is_answered(rt, alloc, drafts, *added, true)?;
    }
    Ok(())
}

#[test]
fn a_name_has_65536_bytes_at_most(rt: HostRuntime) -> Result<(), Fail> {
    names_are_answered(&rt, rt.alloc(), &NAMED)
}
