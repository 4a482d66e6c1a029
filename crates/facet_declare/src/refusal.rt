/// Why a declaration is refused.
#[derive(Clone, Copy, Debug, PartialEq, Eq)]
pub enum DeclarationRefusal {
    /// A shape that the maker names isn't there, not even as a draft.
    NoSuchShape,
    /// The box of a slice, or the boxed slice of another shape.
    WrongShape,
    /// There are parameters, and neither a module path nor a declaration id other than 0.
    MissingDeclId,
}
