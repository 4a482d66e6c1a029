ghost use Rattle.std.specs.Prelude.{Some, ◌≡◌, ◌<◌, ◌↔◌, ◌⊎◌, [], IsErr, IfOk, OnErr, length, take};
ghost use Rattle.facet_stream.specs.ListStreams.{IsListed, IsPastRoom, write_count, after_write, after_failed_write};

use crate::{Failed, Sink};
use facet_base::Many;
use std::alloc::{AllocError, Global};
use std::marker::Model;

/// A sink in memory, which holds what is written up to its room. It fails at the listed calls, and where
/// it is full.
#[derive(Drop)]
pub struct ListSink {
    bytes: Vec<u8>,
    room: usize,
    fail: Many<usize>,
    most: usize,
    calls: usize,
    faults: usize,
}

impl Model for ListSink {
    ghost use Rattle.std.specs.Prelude.{◌≤◌, ◌<◌, vec_len, vec_capacity};
    ghost use Rattle.facet_stream.specs.ListStreams.{Store};

    ghost Value = { Store };

    ghost view = { λ s. record { bytes = s.bytes.items; room = s.room; fail = s.fail.items; most = s.most; calls = s.calls; faults = s.faults } };

    ghost invariant = { λ s. (vec_len s.bytes ≤ s.room) × (s.room ≤ vec_capacity s.bytes) × (0 < s.most) };
}

impl ListSink {
    /// An empty sink with room for `room` bytes, which takes at most `most` bytes at a call and fails at the
    /// calls listed in `fail`. The first call is 1. All memory is allocated here.
    pub fn new(
        alloc: Global,
        room: usize,
        fail: Many<usize>,
        most: usize,
    ) -> Result<ListSink, AllocError>
        requires { 0 < most }
        ensures { IfOk result (λ sink. sink ≡ record { bytes = []; room = room; fail = fail.items; most = most; calls = 0; faults = 0 }) }
    {
        Ok(ListSink {
            bytes: Vec::with_capacity(alloc, room)?,
            room,
            fail,
            most,
            calls: 0,
            faults: 0,
        })
    }

    /// The bytes written so far, in order.
    pub fn bytes(&self) -> &[u8]
        ensures { result.now ≡ self.now.bytes }
    {
        &self.bytes
    }
}

impl Sink for ListSink {
    ghost written = { λ s. Some s.bytes };

    ghost faults = { λ s. s.faults };

    fn write(&mut self, piece: &[u8]) -> Result<usize, Failed>
        ensures failing { IsErr result ↔ (IsListed self.old.fail self.old.calls ⊎ IsPastRoom self.old piece.now) }
        ensures count { IfOk result (λ n. n ≡ write_count self.old (length piece.now)) }
        ensures most { 0 < self.old.most }
        ensures ok { IfOk result (λ n. self.new ≡ after_write self.old (take n piece.now)) }
        ensures err { OnErr result (self.new ≡ after_failed_write self.old) }
    {
        self.calls = self.calls.saturating_add(1);
        let free = self.room - self.bytes.len();
        if self.fail.as_slice().contains(&self.calls) || (free == 0 && !piece.is_empty()) {
            self.faults = self.faults.saturating_add(1);
            return Err(Failed);
        }
        let count = self.most.min(piece.len()).min(free);
        self.bytes.extend_from_slice(&piece[..count]).unwrap();
        Ok(count)
    }
}
