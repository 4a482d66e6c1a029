use facet_script::Status;
use thiserror::Error;

/// Why the program did not end well.
#[derive(Debug, Drop, Error)]
pub enum MainFault {
    /// The words that it was called with are not those that it takes.
    #[error("usage: facet_vectors [demo N]")]
    Usage,
    /// Standard input could not be read.
    #[error("read fault")]
    ReadFault,
    /// Standard output could not be written.
    #[error("write fault")]
    WriteFault,
    /// Standard input has more bytes than a script may have.
    #[error("input too long")]
    TooLong,
    /// Out of memory.
    #[error("no memory")]
    NoMemory,
}

impl MainFault {
    ghost use Rattle.std.specs.Prelude.{◌≡◌};
    ghost use Rattle.facet_vectors.specs.MainFault.{exit_status, fault_of};

    /// The fault that a status is, and none for a run that ended well.
    pub fn of(status: Status) -> Option<MainFault>
        ensures { result ≡ fault_of status }
    {
        match status {
            Status::Ok => None,
            Status::Usage => Some(MainFault::Usage),
            Status::ReadFault => Some(MainFault::ReadFault),
            Status::WriteFault => Some(MainFault::WriteFault),
            Status::TooLong => Some(MainFault::TooLong),
            Status::NoMemory => Some(MainFault::NoMemory),
        }
    }

    /// The exit status.
    pub fn code(&self) -> u8
        ensures { result ≡ exit_status self.now }
    {
        match self {
            MainFault::Usage => 2,
            MainFault::ReadFault => 3,
            MainFault::WriteFault => 4,
            MainFault::TooLong => 5,
            MainFault::NoMemory => 6,
        }
    }
}
