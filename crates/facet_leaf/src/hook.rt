/// What leaves of a kind can do beyond the characteristics.
#[derive(Clone, Copy, PartialEq, Eq, Debug)]
pub enum LeafHook {
    ParseBytes,
    TryFrom,
    Invariants,
    Truthy,
}
