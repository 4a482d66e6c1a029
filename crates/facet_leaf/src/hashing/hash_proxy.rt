ghost use Rattle.std.specs.Prelude.{◌≡◌};

use crate::hashing::hash_sink::HashSink;

/// A hash sink that passes each call on to the one that it borrows.
#[derive(Drop)]
pub struct HashProxy<'a, H> {
    pub hasher: &'a mut H,
}

impl<'a, H: HashSink> HashProxy<'a, H> {
    /// The proxy of a hash sink.
    pub fn new(hasher: &'a mut H) -> HashProxy<'a, H>
        ensures { result.hasher ≡ hasher.entry }
    {
        HashProxy { hasher }
    }
}

impl<H: HashSink> HashSink for HashProxy<'_, H> {
    ghost use Rattle.facet_leaf.specs.hashing.HashProxy.{proxy_fed};

    ghost fed = { proxy_fed H.fed };

    ghost finished = { λ proxy. H.finished proxy.hasher.now };

    fn write(&mut self, bytes: &[u8]) {
        self.hasher.write(bytes);
    }

    fn write_u8(&mut self, i: u8) {
        self.hasher.write_u8(i);
    }

    fn write_u16(&mut self, i: u16) {
        self.hasher.write_u16(i);
    }

    fn write_u32(&mut self, i: u32) {
        self.hasher.write_u32(i);
    }

    fn write_u64(&mut self, i: u64) {
        self.hasher.write_u64(i);
    }

    fn write_u128(&mut self, i: u128) {
        self.hasher.write_u128(i);
    }

    fn write_usize(&mut self, i: usize) {
        self.hasher.write_usize(i);
    }

    fn write_i8(&mut self, i: i8) {
        self.hasher.write_i8(i);
    }

    fn write_i16(&mut self, i: i16) {
        self.hasher.write_i16(i);
    }

    fn write_i32(&mut self, i: i32) {
        self.hasher.write_i32(i);
    }

    fn write_i64(&mut self, i: i64) {
        self.hasher.write_i64(i);
    }

    fn write_i128(&mut self, i: i128) {
        self.hasher.write_i128(i);
    }

    fn write_isize(&mut self, i: isize) {
        self.hasher.write_isize(i);
    }

    fn finish(&self) -> u64 {
        self.hasher.finish()
    }
}
