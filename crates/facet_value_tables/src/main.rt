//! Answers tables of questions on values: each row builds values in blocks, makes one call on them, and says what the
//! call is to return. A row is answered the same where an allocation fails.
#![tactic(auto)]

mod comparing;
mod holding;
mod leaves;
mod looking;
mod making;
mod notation;
mod operand;
mod question;
mod registry;
mod table;
mod words;
mod writing;

use std::io::{self, Read};
use std::process::ExitCode;
use std::str::from_utf8;
use table::answer_table;

fn main(rt: HostRuntime) -> ExitCode {
    match answer(&rt) {
        Ok(true) => ExitCode::SUCCESS,
        _ => ExitCode::FAILURE,
    }
}

// Answers the table on standard input.
fn answer(rt: &HostRuntime) -> io::Result<bool> {
    let table = read_table(rt)?;
    match from_utf8(&table) {
        Ok(text) => answer_table(rt, text),
        Err(_) => Ok(false),
    }
}

// All bytes of standard input.
fn read_table(rt: &HostRuntime) -> io::Result<Vec<u8>> {
    let mut table = Vec::new(rt.alloc());
    let mut stdin = rt.stdin();
    let mut piece = [0u8; 4096];
    for _ in 0..u64::MAX {
        let count = stdin.read(&mut piece)?;
        if count == 0 {
            break;
        }
        let bytes = &piece[..count];
        if table.extend_from_slice(bytes).is_err() {
            table.extend_from_slice(bytes)?;
        }
    }
    Ok(table)
}
