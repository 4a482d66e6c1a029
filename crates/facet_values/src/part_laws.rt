ghost use Rattle.std.specs.Prelude.{◌<◌, ℕ, All, AllPairs, List, length};
ghost use Rattle.facet_block.specs.Span.{IsApart};
ghost use Rattle.facet_causes.specs.Causes.{IsWellFormed};
ghost use Rattle.facet_shape.specs.declared.shape.Shape.{Shape};
ghost use Rattle.facet_trees.specs.Structure.{structure_at};
ghost use Rattle.facet_values.specs.Laid.{IsLaidOut, bodies_of};
ghost use Rattle.facet_values.specs.Place.{LiesInBlock, Place, part_place, range_of};

use facet_leaf::Leaf;

/// The parts of the values of each sealed shape lie inside, apart from each other, and beside the tag.
pub fn sealed_shapes_are_laid_out<L: Leaf>()
    ensures { (shapes : List Shape) (s : ℕ) → IsWellFormed L.model shapes → s < length shapes → IsLaidOut shapes s }
{}

/// Among sealed shapes: where a place lies in its block, so does the place of each inline part of a value there, and the
/// part's shape is among them too.
pub fn parts_lie_inside<L: Leaf>()
    ensures { (shapes : List Shape) (p : Place L) → IsWellFormed L.model shapes → p.shape < length shapes → LiesInBlock shapes p
        → All (All (λ part. (part.shape.0 < length shapes) × LiesInBlock shapes (part_place p part))) (bodies_of (structure_at shapes p.shape)) }
{}

/// Among sealed shapes: inline parts that lie side by side in a value at a place, as the fields of a struct or of a
/// variant do, share no byte.
pub fn parts_are_apart<L: Leaf>()
    ensures { (shapes : List Shape) (p : Place L) → IsWellFormed L.model shapes → p.shape < length shapes
        → All (AllPairs (λ a b. IsApart (range_of shapes (part_place p a)) (range_of shapes (part_place p b)))) (bodies_of (structure_at shapes p.shape)) }
{}
