ghost use Rattle.std.specs.Prelude.{◌≡◌};
ghost use Rattle.facet_base.specs.Fnv.{fnv_start};

use crate::hashing::hash_sink::HashSink;
use facet_base::{FNV_START, fnv1a_128};
use std::marker::Model;

/// A hash sink that is 128-bit FNV-1a over the bytes of its writes. Contracts see its state as a number.
#[derive(Drop)]
pub struct Fnv128 {
    state: u128,
}

impl Model for Fnv128 {
    ghost use Rattle.std.specs.Prelude.{ℕ};

    ghost Value = { ℕ };

    ghost view = { λ sink. sink.state };
}

impl Fnv128 {
    /// The sink before the first byte.
    pub fn new() -> Fnv128
        ensures { result ≡ fnv_start }
    {
        Fnv128 { state: FNV_START }
    }

    /// The hash of all bytes that were written.
    pub fn digest(&self) -> u128
        ensures { result ≡ self.now }
    {
        self.state
    }
}

impl HashSink for Fnv128 {
    ghost use Rattle.std.specs.Prelude.{◌%◌, ◌^◌};
    ghost use Rattle.facet_base.specs.Fnv.{fnv};
    ghost use Rattle.facet_leaf.specs.hashing.HashWrite.{bytes_written};

    ghost fed = { λ state w. fnv state (bytes_written w) };

    ghost finished = { λ state. state % 2 ^ 64 };

    fn write(&mut self, bytes: &[u8]) {
        self.state = fnv1a_128(self.state, bytes);
    }

    fn write_u8(&mut self, i: u8) {
        self.write(&i.to_le_bytes());
    }

    fn write_u16(&mut self, i: u16) {
        self.write(&i.to_le_bytes());
    }

    fn write_u32(&mut self, i: u32) {
        self.write(&i.to_le_bytes());
    }

    fn write_u64(&mut self, i: u64) {
        self.write(&i.to_le_bytes());
    }

    fn write_u128(&mut self, i: u128) {
        self.write(&i.to_le_bytes());
    }

    fn write_usize(&mut self, i: usize) {
        self.write(&i.to_le_bytes());
    }

    fn write_i8(&mut self, i: i8) {
        self.write_u8(i.cast_unsigned());
    }

    fn write_i16(&mut self, i: i16) {
        self.write_u16(i.cast_unsigned());
    }

    fn write_i32(&mut self, i: i32) {
        self.write_u32(i.cast_unsigned());
    }

    fn write_i64(&mut self, i: i64) {
        self.write_u64(i.cast_unsigned());
    }

    fn write_i128(&mut self, i: i128) {
        self.write_u128(i.cast_unsigned());
    }

    fn write_isize(&mut self, i: isize) {
        self.write_usize(i.cast_unsigned());
    }

    fn finish(&self) -> u64 {
        (self.state % 0x1_0000_0000_0000_0000) as u64
    }
}
