/// The outcome of a conversion of a value into another type.
#[derive(Clone, Copy, PartialEq, Eq, Debug)]
pub enum TryFromOutcome {
    /// The value was converted.
    Converted,
    /// The type takes no values of the value's type, and the value is as it was.
    Unsupported,
    /// The type takes values of the value's type, but not this one, which is dropped.
    Failed,
}
