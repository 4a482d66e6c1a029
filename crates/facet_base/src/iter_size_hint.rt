/// How many items an iterator has left: at least `lower`, and at most `upper` where it has that bound.
#[derive(Clone, Copy)]
pub struct IterSizeHint {
    pub lower: usize,
    pub upper: usize,
    pub has_upper: bool,
}
