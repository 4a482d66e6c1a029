/// What a date-time says beside its date and time.
#[derive(Clone, Copy, PartialEq, Eq, Debug)]
pub enum DynDateTimeKind {
    /// A date and a time, so many minutes ahead of UTC.
    Offset { offset_minutes: i16 },
    /// A date and a time of no known zone.
    LocalDateTime,
    /// A date alone.
    LocalDate,
    /// A time alone.
    LocalTime,
}

/// What a value is.
#[derive(Clone, Copy, PartialEq, Eq, Debug)]
pub enum DynValueKind {
    Null,
    Bool,
    Number,
    String,
    Bytes,
    Array,
    Object,
    DateTime,
    QName,
    Uuid,
}
