/// How a run ended.
#[derive(Clone, Copy, Debug, PartialEq, Eq)]
pub enum Status {
    Ok,
    Usage,
    ReadFault,
    WriteFault,
    TooLong,
    NoMemory,
}

/// How a run ended, and how many answers' commands were carried out, also where the last of these was not
/// written whole.
#[derive(Clone, Copy, Debug, PartialEq, Eq)]
pub struct Report {
    pub status: Status,
    pub lines: usize,
}
