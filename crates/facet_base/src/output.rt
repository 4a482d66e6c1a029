ghost use Rattle.std.specs.Prelude.{◌≡◌, ◌++◌, ◌+◌, ◌<◌, ◌≤◌, List, ℕ, OnOk, OnErr, length, vec_capacity};
ghost use Rattle.bytes.specs.Filled.{MakesSpare};

use bytes::BytesMut;
use std::alloc::AllocError;

/// Where bytes are written to, and kept.
pub trait Write {
    /// The bytes that were written, in order.
    ghost contents: { Self → List ℕ };

    /// Appends all of `buf`. After an allocation failure nothing has changed.
    fn write(&mut self, buf: &[u8]) -> Result<(), AllocError>
        ensures appended { OnOk result (contents self.new ≡ contents self.old ++ buf.now) }
        ensures refused { OnErr result (contents self.new ≡ contents self.old) };

    /// Makes room for `additional` bytes more. What was written stays, also after an allocation failure.
    fn reserve(&mut self, additional: usize) -> Result<(), AllocError>
        ensures { contents self.new ≡ contents self.old };
}

impl Write for Vec<u8> {
    ghost contents = { λ v. v.items };

    fn write(&mut self, buf: &[u8]) -> Result<(), AllocError> {
        self.extend_from_slice(buf)
    }

    // After Ok the capacity holds the bytes more. An allocation failure comes only where it didn't.
    fn reserve(&mut self, additional: usize) -> Result<(), AllocError>
        ensures contents { self.new.items ≡ self.old.items }
        ensures room { OnOk result (length self.new.items + additional ≤ vec_capacity self.new) }
        ensures refused { OnErr result (vec_capacity self.old < length self.old.items + additional) }
    {
        self.try_reserve(additional)
    }
}

impl Write for BytesMut {
    ghost contents = { λ bytes. bytes.items };

    fn write(&mut self, buf: &[u8]) -> Result<(), AllocError> {
        BytesMut::extend_from_slice(self, buf)
    }

    // After Ok there is room for the bytes more.
    fn reserve(&mut self, additional: usize) -> Result<(), AllocError>
        ensures contents { self.new.items ≡ self.old.items }
        ensures room { MakesSpare result self.old.spare self.new.spare additional }
    {
        BytesMut::reserve(self, additional)
    }
}
