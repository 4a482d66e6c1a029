use facet_base::ShapeId;

/// A shape has parameters, but neither a declaration id nor a module path to hash one from.
#[derive(Drop)]
pub struct MissingDeclId;

/// Two shapes differ: the ids of `self` and of the other.
#[derive(Drop)]
pub struct ShapeMismatch {
    pub left: ShapeId,
    pub right: ShapeId,
}

/// Why there is no block for a value.
#[derive(Drop)]
pub enum AllocateError {
    /// The values of the shape share no layout.
    Unsized,
    /// There is no memory.
    NoMemory,
}
