ghost use Rattle.std.specs.Prelude.{◌≡◌, ◌≢◌, ◌∷◌, ◌++◌, [], ℕ, OnOk, IfErr, MatchResult, IsErrOf};
ghost use Rattle.std.specs.Io.KnownBytes.{Appends};
ghost use Rattle.facet_stream.specs.Causes.{Rose, HasCause};
ghost use Rattle.facet_script.specs.Output.{AppendsSome, AppendsPart, IsProperPrefix, status_of};

use crate::Status;
use facet_base::Text;
use facet_stream::{Failed, Sink};

/// Why a line was not written whole.
#[derive(Clone, Copy, Debug, PartialEq, Eq)]
pub enum OutputError {
    Failed,
    Memory,
}

impl OutputError {
    /// How a run ends after the error.
    pub fn status(self) -> Status
        ensures { result ≡ status_of self }
    {
        match self {
            OutputError::Failed => Status::WriteFault,
            OutputError::Memory => Status::NoMemory,
        }
    }
}

/// Writes a text and a newline to a sink, in one piece. An allocation failure leaves the sink as it was.
pub fn write_line<K: Sink>(sink: &mut K, text: Text) -> Result<(), OutputError>
    ensures bytes { MatchResult result (λ _. Appends (K.written sink.old) (K.written sink.new) (text ++ 10 ∷ []))
        (λ error. AppendsPart error (K.written sink.old) (K.written sink.new) (text ++ 10 ∷ [])) }
    ensures kept { OnOk result (K.faults sink.new ≡ K.faults sink.old) }
    ensures kept_after { IfErr result (λ error. error ≢ OutputError.Failed → K.faults sink.new ≡ K.faults sink.old) }
    ensures failed { IsErrOf result OutputError.Failed → Rose (K.faults sink.old) (K.faults sink.new) }
{
    let mut bytes = text.into_bytes();
    if bytes.push(b'\n').is_err() {
        return Err(OutputError::Memory);
    }
    match write_all(sink, &bytes) {
        Ok(()) => Ok(()),
        Err(Failed) => Err(OutputError::Failed),
    }
}

/// Writes a piece to a sink, and again what the sink left, until all is taken. A failed write leaves a proper
/// prefix of the piece.
pub fn write_all<K: Sink>(sink: &mut K, piece: &[u8]) -> Result<(), Failed>
    ensures bytes { MatchResult result (λ _. Appends (K.written sink.old) (K.written sink.new) piece.now)
        (λ _. AppendsSome (K.written sink.old) (K.written sink.new) (λ bytes. IsProperPrefix bytes piece.now)) }
    ensures cause { HasCause (K.faults sink.old) (K.faults sink.new) result }
{
    let mut sent = 0;
    while sent < piece.len() {
        match sink.write(&piece[sent..]) {
            Ok(count) => sent += count,
            Err(Failed) => return Err(Failed),
        }
    }
    Ok(())
}
