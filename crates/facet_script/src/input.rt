ghost use Rattle.std.specs.Prelude.{◌≡◌, ◌≢◌, ◌+◌, ◌<◌, ◌≤◌, IfOk, OnOk, IfErr, IfSome, IsErrOf, length, vec_len};
ghost use Rattle.std.specs.Io.KnownBytes.{Consumes, IsAtEnd};
ghost use Rattle.facet_stream.specs.Causes.{Rose, RoseBy};
ghost use Rattle.facet_script.specs.declared.input.ReadError.TheVariants.{Memory};

use facet_stream::{Failed, Source};
use std::alloc::{AllocError, Global};

/// The most bytes that a script may have.
pub const LIMIT: usize = 1_048_576;

/// The most bytes that one read asks for.
pub const PIECE: usize = 4096;

/// Why not all of a source was read.
#[derive(Clone, Copy, Debug, PartialEq, Eq)]
pub enum ReadError {
    Failed,
    TooLong,
    Memory,
}

impl From<AllocError> for ReadError {
    ghost from_gives = { λ _ e. e ≡ Memory };

    fn from(_: AllocError) -> Self {
        ReadError::Memory
    }
}

/// The bytes of a source up to its end. It stops as soon as more than `LIMIT` bytes were taken.
pub fn read_all<S: Source>(alloc: Global, source: &mut S) -> Result<Vec<u8>, ReadError>
    ensures bytes { IfOk result (λ bytes. Consumes (S.left source.old) (S.left source.new) bytes.items) }
    ensures end { OnOk result (IsAtEnd (S.left source.new)) }
    ensures short { IfOk result (λ bytes. vec_len bytes ≤ LIMIT) }
    ensures kept { OnOk result (S.faults source.new ≡ S.faults source.old) }
    ensures kept_after { IfErr result (λ error. error ≢ ReadError.Failed → S.faults source.new ≡ S.faults source.old) }

    ensures failed { IsErrOf result ReadError.Failed → Rose (S.faults source.old) (S.faults source.new) }
    ensures too_long { IsErrOf result ReadError.TooLong → RoseBy (LIMIT + 1) (S.taken source.old) (S.taken source.new) }
    ensures too_long_only { S.taken source.old + LIMIT < S.taken source.new → IsErrOf result ReadError.TooLong }
    ensures too_long_known { IsErrOf result ReadError.TooLong → IfSome (S.left source.old) (λ bytes. LIMIT < length bytes) }
    ensures taken { S.taken source.new ≤ S.taken source.old + LIMIT + PIECE }
{
    let mut bytes = Vec::new(alloc);
    let mut buffer = [0; PIECE];
    'reading: loop {
        let Ok(count) = source.read(&mut buffer) else {
            return Err(ReadError::Failed);
        };
        if count == 0 {
            return Ok(bytes);
        }
        if count > LIMIT - bytes.len() {
            return Err(ReadError::TooLong);
        }
        bytes.extend_from_slice(&buffer[..count])?;
    }
}
