ghost use Rattle.std.specs.Prelude.{◌≡◌, List, None, Some};
ghost use Rattle.facet_causes.specs.Causes.{IsWellFormed};
ghost use Rattle.facet_causes.specs.First.{IsFirstCause};
ghost use Rattle.facet_causes.specs.declared.cause.SealError.{SealError};
ghost use Rattle.facet_shape.specs.declared.shape.Shape.{Shape};
ghost use Rattle.facet_verdict.specs.Verdict.{Verdict, answer_of};

use facet_leaf::Leaf;

/// The verdict on shapes that are well formed names no cause.
pub fn well_formed_shapes_have_no_cause<L: Leaf>()
    ensures { (shapes : List Shape) (verdict : Verdict L.model shapes) → IsWellFormed L.model shapes → answer_of verdict ≡ None }
{}

/// The verdict on shapes of which some cause comes first names that cause and that shape.
pub fn the_first_cause_is_named<L: Leaf>()
    ensures { (shapes : List Shape) (verdict : Verdict L.model shapes) (error : SealError) → IsFirstCause L.model shapes error.cause error.shape.0 → answer_of verdict ≡ Some error }
{}
