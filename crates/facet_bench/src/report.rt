ghost use Rattle.std.specs.Prelude.{◌<◌};

use std::io;
use std::time::Instant;

/// How many nanoseconds have passed since an instant.
pub fn nanoseconds_since(rt: &HostRuntime, start: Instant) -> io::Result<u128> {
    Ok(start.elapsed(rt)?.as_nanos())
}

/// Prints how long each element took.
pub fn report(rt: &HostRuntime, call: &str, nanoseconds: u128, elements: u64) -> io::Result<()>
    requires { 0 < elements }
{
    let each = nanoseconds / elements as u128;
    eprintln!(rt; "{call}: {each} ns for each element")
}
