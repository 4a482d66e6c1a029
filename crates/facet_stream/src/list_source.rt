ghost use Rattle.std.specs.Prelude.{Some, ◌≡◌, ◌<◌, ◌↔◌, min, IsErr, IfOk, OnErr, length, take, drop, ◌++◌};
ghost use Rattle.facet_stream.specs.ListStreams.{IsListed, read_count, after_read, after_failed_read};

use crate::{Failed, Source};
use facet_base::Many;
use std::marker::Model;

/// A source in memory, which returns the bytes of a list. It fails at the listed calls.
#[derive(Drop)]
pub struct ListSource {
    bytes: Vec<u8>,
    at: usize,
    fail: Many<usize>,
    most: usize,
    calls: usize,
    faults: usize,
    taken: u64,
}

impl Model for ListSource {
    ghost use Rattle.std.specs.Prelude.{◌≤◌, ◌<◌, drop, vec_len};
    ghost use Rattle.facet_stream.specs.ListStreams.{Supply};

    ghost Value = { Supply };

    ghost view = { λ s. record { left = drop s.at s.bytes.items; fail = s.fail.items; most = s.most; calls = s.calls; faults = s.faults; taken = s.taken } };

    ghost invariant = { λ s. (s.at ≤ vec_len s.bytes) × (0 < s.most) };
}

impl ListSource {
    /// A source of `bytes`, which returns at most `most` bytes at a call and fails at the calls listed in
    /// `fail`. The first call is 1.
    pub fn new(bytes: Vec<u8>, fail: Many<usize>, most: usize) -> ListSource
        requires { 0 < most }
        ensures { result ≡ record { left = bytes.items; fail = fail.items; most = most; calls = 0; faults = 0; taken = 0 } }
    {
        ListSource {
            bytes,
            at: 0,
            fail,
            most,
            calls: 0,
            faults: 0,
            taken: 0,
        }
    }
}

impl Source for ListSource {
    ghost left = { λ s. Some s.left };

    ghost taken = { λ s. s.taken };

    ghost faults = { λ s. s.faults };

    fn read(&mut self, buf: &mut [u8]) -> Result<usize, Failed>
        ensures failing { IsErr result ↔ IsListed self.old.fail self.old.calls }
        ensures count { IfOk result (λ n. n ≡ read_count self.old (length buf.old)) }
        ensures most { 0 < self.old.most }

        ensures ok { IfOk result (λ n. self.new ≡ after_read self.old n) }
        ensures filled { IfOk result (λ n. buf.new ≡ take n self.old.left ++ drop n buf.old) }

        ensures err { OnErr result (self.new ≡ after_failed_read self.old) }
        ensures unfilled { OnErr result (buf.new ≡ buf.old) }
    {
        self.calls = self.calls.saturating_add(1);
        if self.fail.as_slice().contains(&self.calls) {
            self.faults = self.faults.saturating_add(1);
            return Err(Failed);
        }
        let count = copy_front(&self.bytes[self.at..], buf, self.most);
        self.at += count;
        self.taken = self.taken.saturating_add(count as u64);
        Ok(count)
    }
}

// Copies up to `most` bytes to the front of `buf`.
fn copy_front(bytes: &[u8], buf: &mut [u8], most: usize) -> usize
    ensures count { result ≡ min (min most (length buf.old)) (length bytes.now) }
    ensures copied { buf.new ≡ take result bytes.now ++ drop result buf.old }
{
    let count = most.min(buf.len()).min(bytes.len());
    buf[..count].copy_from_slice(&bytes[..count]);
    count
}
