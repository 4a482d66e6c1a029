/// What a value is apart from its parts, where it is no leaf.
#[derive(Clone, Copy, PartialEq, Eq, Debug)]
pub enum Form {
    Unit,
    Record,
    /// The variant of an enum at a place.
    Variant(u32),
    Array,
    List,
    BoxedSlice,
    Map,
    Set,
    /// An option that is None.
    Absent,
    /// An option that is Some.
    Present,
    /// A result that is Ok.
    Ok,
    /// A result that is Err.
    Err,
    Box,
}
