ghost use Rattle.std.specs.Prelude.{◌≡◌};
ghost use Rattle.facet_base.specs.declared.layout.ShapeId.{ShapeId};
ghost use Rattle.facet_base.specs.declared.layout.ShapeLayout.{ShapeLayout};

use facet_base::{ShapeId, ShapeLayout};

/// Where the layouts of shapes are looked up.
pub trait LayoutLookup {
    /// The layout of the shape under an id, which is unsized where there is none.
    ghost layout_at: { Self → ShapeId → ShapeLayout };

    /// The layout of the shape under an id, which is unsized where there is none.
    fn layout_of(&self, id: ShapeId) -> ShapeLayout
        ensures { result ≡ layout_at self.now id };
}
