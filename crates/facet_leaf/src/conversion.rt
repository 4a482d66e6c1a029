/// What a leaf becomes in another kind.
#[derive(Drop)]
pub enum Conversion<L> {
    /// A leaf of that kind with the same value.
    Converted(L),
    /// The kinds don't convert into one another. It holds the leaf that was given.
    Unsupported(L),
    /// The value isn't one of that kind. It holds the leaf that was given.
    Failed(L),
}

/// A conversion ran out of memory. It holds the leaf that was given.
#[derive(Drop)]
pub struct NoRoom<L> {
    pub from: L,
}
