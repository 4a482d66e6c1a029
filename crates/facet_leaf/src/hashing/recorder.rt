ghost use Rattle.std.specs.Prelude.{◌≡◌, [], IfOk};

use crate::hashing::hash_sink::HashSink;
use std::alloc::{AllocError, Global};
use std::marker::Model;

/// A hash sink that keeps the first bytes of its writes, and counts all. Contracts see what it holds.
#[derive(Drop)]
pub struct Recorder {
    kept: Vec<u8>,
    room: usize,
    count: u64,
}

impl Model for Recorder {
    ghost use Rattle.facet_leaf.specs.hashing.Recorder.{Recording};

    ghost Value = { Recording };

    ghost use Rattle.std.specs.Prelude.{◌≤◌, vec_len, vec_capacity};

    ghost view = { λ r. record { kept = r.kept.items; room = r.room; count = r.count } };

    ghost invariant = { λ r. (vec_len r.kept ≤ r.room) × (r.room ≤ vec_capacity r.kept) };
}

impl Recorder {
    /// A sink that keeps the first `room` bytes. It takes the memory for them, and a write takes none.
    pub fn new(alloc: Global, room: usize) -> Result<Recorder, AllocError>
        ensures { IfOk result (λ r. r ≡ record { kept = []; room = room; count = 0 }) }
    {
        Ok(Recorder {
            kept: Vec::with_capacity(alloc, room)?,
            room,
            count: 0,
        })
    }

    /// The bytes that it kept.
    pub fn bytes(&self) -> &[u8]
        ensures { result.now ≡ self.now.kept }
    {
        self.kept.as_slice()
    }
}

impl HashSink for Recorder {
    ghost use Rattle.facet_leaf.specs.hashing.HashWrite.{bytes_written};
    ghost use Rattle.facet_leaf.specs.hashing.Recorder.{recorded};

    ghost fed = { λ r w. recorded r (bytes_written w) };

    ghost finished = { λ r. r.count };

    fn write(&mut self, bytes: &[u8]) {
        let free = self.room - self.kept.len();
        let len = free.min(bytes.len());
        self.kept.extend_from_slice(&bytes[..len]).unwrap();
        self.count = self.count.saturating_add(bytes.len() as u64);
    }

    fn write_u8(&mut self, i: u8) {
        self.write(&i.to_le_bytes());
    }

    fn write_u16(&mut self, i: u16) {
        self.write(&i.to_le_bytes());
    }

    fn write_u32(&mut self, i: u32) {
        self.write(&i.to_le_bytes());
    }

    fn write_u64(&mut self, i: u64) {
        self.write(&i.to_le_bytes());
    }

    fn write_u128(&mut self, i: u128) {
        self.write(&i.to_le_bytes());
    }

    fn write_usize(&mut self, i: usize) {
        self.write(&i.to_le_bytes());
    }

    fn write_i8(&mut self, i: i8) {
        self.write_u8(i.cast_unsigned());
    }

    fn write_i16(&mut self, i: i16) {
        self.write_u16(i.cast_unsigned());
    }

    fn write_i32(&mut self, i: i32) {
        self.write_u32(i.cast_unsigned());
    }

    fn write_i64(&mut self, i: i64) {
        self.write_u64(i.cast_unsigned());
    }

    fn write_i128(&mut self, i: i128) {
        self.write_u128(i.cast_unsigned());
    }

    fn write_isize(&mut self, i: isize) {
        self.write_usize(i.cast_unsigned());
    }

    fn finish(&self) -> u64 {
        self.count
    }
}
