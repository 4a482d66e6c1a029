// The standard streams, with counts of what failed. Their bytes are not known.
ghost use Rattle.std.specs.Prelude.{None, ◌≡◌, ◌<◌, ◌≤◌, length, IfSome, IfOk, OnOk, OnErr};
ghost use Rattle.std.specs.Io.{ReadsAtMost, WritesAtMost};
ghost use Rattle.facet_stream.specs.Causes.{raised};
ghost use Rattle.facet_stream.specs.Stream.{TakesSome};

use facet_stream::{Failed, Sink, Source};
use std::io::{Read, Stdin, Stdout, Write};
use std::marker::Model;

/// Standard input. Contracts see how many bytes were taken and how many reads failed.
#[derive(Drop)]
pub struct StdinSource {
    stdin: Stdin,
    taken: u64,
    faults: u64,
}

impl Model for StdinSource {
    ghost use Rattle.facet_vectors.specs.Tally.{Tally};

    ghost Value = { Tally };

    ghost view = { λ s. record { taken = s.taken; faults = s.faults } };
}

impl StdinSource {
    /// Standard input, of which nothing was taken yet.
    pub fn new(stdin: Stdin) -> StdinSource
        ensures { result ≡ record { taken = 0; faults = 0 } }
    {
        StdinSource {
            stdin,
            taken: 0,
            faults: 0,
        }
    }
}

impl Source for StdinSource {
    ghost left = { λ _. None };

    ghost taken = { λ s. s.taken };

    ghost faults = { λ s. s.faults };

    fn read(&mut self, buf: &mut [u8]) -> Result<usize, Failed>
        ensures bound { ReadsAtMost result buf.new }
        ensures ok { IfOk result (λ n. self.new ≡ record (self.old) { taken = raised self.old.taken n }) }
        ensures err { OnErr result (self.new ≡ record (self.old) { faults = raised self.old.faults 1 }) }
    {
        match self.stdin.read(buf) {
            Ok(count) => {
                self.taken = self.taken.saturating_add(count as u64);
                Ok(count)
            }
            Err(_) => {
                self.faults = self.faults.saturating_add(1);
                Err(Failed)
            }
        }
    }
}

/// Standard output, which is flushed after each write. Contracts see how many writes failed.
#[derive(Drop)]
pub struct StdoutSink {
    stdout: Stdout,
    faults: u64,
}

impl Model for StdoutSink {
    ghost use Rattle.std.specs.Prelude.{ℕ};

    ghost Value = { ℕ };

    ghost view = { λ s. s.faults };
}

impl StdoutSink {
    /// Standard output, to which nothing was written yet.
    pub fn new(stdout: Stdout) -> StdoutSink
        ensures { result ≡ 0 }
    {
        StdoutSink { stdout, faults: 0 }
    }
}

// How much of a piece was written and flushed, and none where either failed. A write that takes nothing of
// a piece that isn't empty has failed.
fn write_through(stdout: &mut Stdout, piece: &[u8]) -> Option<usize>
    ensures bound { IfSome result (λ count. count ≤ length piece.now) }
    ensures some { 0 < length piece.now → IfSome result (λ count. 0 < count) }
{
    let count = stdout.write(piece).ok()?;
    stdout.flush().ok()?;
    if count == 0 && !piece.is_empty() {
        return None;
    }
    Some(count)
}

impl Sink for StdoutSink {
    ghost written = { λ _. None };

    ghost faults = { λ s. s };

    fn write(&mut self, piece: &[u8]) -> Result<usize, Failed>
        ensures bound { WritesAtMost result piece.now }
        ensures some { TakesSome result piece.now }
        ensures ok { OnOk result (self.new ≡ self.old) }
        ensures err { OnErr result (self.new ≡ raised self.old 1) }
    {
        match write_through(&mut self.stdout, piece) {
            Some(count) => Ok(count),
            None => {
                self.faults = self.faults.saturating_add(1);
                Err(Failed)
            }
        }
    }
}
