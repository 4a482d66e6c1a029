ghost use Rattle.std.specs.Prelude.{◌≡◌, ℕ, pos};
ghost use Rattle.facet_base.specs.declared.scalar_type.ScalarType.TheVariants as kind;
ghost use Rattle.facet_leaf.specs.hashing.HashWrite.{HashWrite, bytes as of_bytes, number};

/// Where the hash of a value is written to. Each write makes a new state of the old one and can't fail.
pub trait HashSink {
    /// The state after a write.
    ghost fed: { Self → HashWrite → Self };

    /// What `finish` returns in a state.
    ghost finished: { Self → ℕ };

    fn write(&mut self, bytes: &[u8])
        ensures { self.new ≡ fed self.old (of_bytes bytes.now) };

    fn write_u8(&mut self, i: u8)
        ensures { self.new ≡ fed self.old (number kind.U8 (pos i)) };

    fn write_u16(&mut self, i: u16)
        ensures { self.new ≡ fed self.old (number kind.U16 (pos i)) };

    fn write_u32(&mut self, i: u32)
        ensures { self.new ≡ fed self.old (number kind.U32 (pos i)) };

    fn write_u64(&mut self, i: u64)
        ensures { self.new ≡ fed self.old (number kind.U64 (pos i)) };

    fn write_u128(&mut self, i: u128)
        ensures { self.new ≡ fed self.old (number kind.U128 (pos i)) };

    fn write_usize(&mut self, i: usize)
        ensures { self.new ≡ fed self.old (number kind.USize (pos i)) };

    fn write_i8(&mut self, i: i8)
        ensures { self.new ≡ fed self.old (number kind.I8 i) };

    fn write_i16(&mut self, i: i16)
        ensures { self.new ≡ fed self.old (number kind.I16 i) };

    fn write_i32(&mut self, i: i32)
        ensures { self.new ≡ fed self.old (number kind.I32 i) };

    fn write_i64(&mut self, i: i64)
        ensures { self.new ≡ fed self.old (number kind.I64 i) };

    fn write_i128(&mut self, i: i128)
        ensures { self.new ≡ fed self.old (number kind.I128 i) };

    fn write_isize(&mut self, i: isize)
        ensures { self.new ≡ fed self.old (number kind.ISize i) };

    /// The hash of the state.
    fn finish(&self) -> u64
        ensures { result ≡ finished self.now };
}
