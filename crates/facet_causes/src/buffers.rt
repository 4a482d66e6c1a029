use facet_base::ShapeId;
use facet_graph::Span;
use facet_outline::PlacedField;
use std::alloc::Global;

/// Lists that one look at a shape after another writes over.
#[derive(Drop)]
pub struct Buffers {
    pub ids: Vec<ShapeId>,
    pub fields: Vec<PlacedField>,
    pub spans: Vec<Span>,
    pub discriminants: Vec<i64>,
}

impl Buffers {
    /// Empty lists.
    pub fn new(alloc: Global) -> Buffers {
        Buffers {
            ids: Vec::new(alloc),
            fields: Vec::new(alloc),
            spans: Vec::new(alloc),
            discriminants: Vec::new(alloc),
        }
    }
}
