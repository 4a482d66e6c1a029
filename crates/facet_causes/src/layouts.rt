ghost use Rattle.facet_causes.specs.Reading.{layout_at as layout_in_list};

use crate::shape_list::ShapeList;
use facet_base::{ShapeId, ShapeLayout};
use facet_outline::LayoutLookup;

impl LayoutLookup for ShapeList {
    ghost layout_at = { λ shapes. layout_in_list shapes };

    fn layout_of(&self, id: ShapeId) -> ShapeLayout {
        match self.get(id.0 as usize) {
            Some(shape) => shape.layout,
            None => ShapeLayout::Unsized,
        }
    }
}
