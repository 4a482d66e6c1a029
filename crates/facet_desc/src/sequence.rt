use facet_base::ShapeId;

/// The types of which a value is items of one shape, one after another.
#[derive(Drop)]
pub enum SequenceType {
    Array(ArrayType),
    Slice(SliceType),
}

/// `n` items of the shape `t`.
#[derive(Drop)]
pub struct ArrayType {
    pub t: ShapeId,
    pub n: usize,
}

/// Items of the shape `t`, however many.
#[derive(Drop)]
pub struct SliceType {
    pub t: ShapeId,
}
