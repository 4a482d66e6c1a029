//! Reads a script from standard input, and answers each line on standard output.
#![tactic(auto)]

mod fault;
mod standard;
#[cfg(test)]
mod tests;

use facet_leaf::Scalar;
use facet_script::{Session, Status, run};
use fault::MainFault;
use standard::{StdinSource, StdoutSink};
use std::env;
use std::io::ErrorKind;
use std::process::ExitCode;

fn main(rt: HostRuntime) -> ExitCode {
    match MainFault::of(answer(&rt)) {
        None => ExitCode::SUCCESS,
        Some(fault) => {
            let code = fault.code();
            let _ = rt.eprintln(fault);
            ExitCode::from(code)
        }
    }
}

// How one run over the standard streams ended.
fn answer(rt: &HostRuntime) -> Status {
    let alloc = rt.alloc();
    let args = match env::args(rt) {
        Ok(args) => args,
        Err(error) if error.kind() == ErrorKind::OutOfMemory => return Status::NoMemory,
        Err(_) => return Status::Usage,
    };
    let Ok(words) = args.skip(1).collect(alloc) else {
        return Status::NoMemory;
    };
    let Ok(mut session) = Session::<Scalar>::new(alloc) else {
        return Status::NoMemory;
    };
    let mut source = StdinSource::new(rt.stdin());
    let mut sink = StdoutSink::new(rt.stdout());
    run(alloc, &words, &mut source, &mut sink, &mut session).status
}
