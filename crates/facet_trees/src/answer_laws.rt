ghost use Rattle.std.specs.Prelude.{◌≡◌, ◌⊎◌, ℕ, Contains, List, IsSome, None, false};
ghost use Rattle.facet_base.specs.declared.characteristic.Characteristic.TheVariants as trait;
ghost use Rattle.facet_causes.specs.Causes.{IsWellFormed};
ghost use Rattle.facet_causes.specs.Reading.{parts_at};
ghost use Rattle.facet_outline.specs.declared.value_kind.ValueKind.TheVariants as kind;
ghost use Rattle.facet_registry.specs.Registry.{kind_at, offers};
ghost use Rattle.facet_shape.specs.declared.shape.Shape.{Shape};
ghost use Rattle.facet_trees.specs.Answered.{AllOffer};
ghost use Rattle.facet_trees.specs.Equal.{equality};
ghost use Rattle.facet_trees.specs.Fits.{Fits};
ghost use Rattle.facet_trees.specs.Order.{capability_of, ordering, Which};
ghost use Rattle.facet_trees.specs.Value.{Value};

use facet_leaf::Leaf;

/// Where each shape that is reached by parts has the order, or equality, it has an answer for any two values.
pub fn comparisons_have_answers<L: Leaf>()
    ensures order { (shapes : List Shape) (which : Which) (s : ℕ) (v w : Value L) → IsWellFormed L.model shapes → AllOffer shapes (capability_of which) s
        → Fits L.model shapes s v → Fits L.model shapes s w → IsSome (ordering L.model shapes which s v w) }
    ensures equality { (shapes : List Shape) (s : ℕ) (v w : Value L) → IsWellFormed L.model shapes → AllOffer shapes trait.PartialEq s
        → Fits L.model shapes s v → Fits L.model shapes s w → IsSome (equality L.model shapes s v w) }
{}

/// Two values of a shape without the capability have no answer.
pub fn no_answer_without_capability<L: Leaf>()
    ensures order { (shapes : List Shape) (which : Which) (s : ℕ) (v w : Value L) → offers shapes s (capability_of which) ≡ false → ordering L.model shapes which s v w ≡ None }
    ensures equality { (shapes : List Shape) (s : ℕ) (v w : Value L) → offers shapes s trait.PartialEq ≡ false → equality L.model shapes s v w ≡ None }
{}

/// Two lists or boxed slices whose elements are without the capability have no answer, even where both are empty.
pub fn lists_ask_their_elements<L: Leaf>()
    ensures order { (shapes : List Shape) (which : Which) (s element : ℕ) (v w : Value L) → (kind_at shapes s ≡ kind.List) ⊎ (kind_at shapes s ≡ kind.BoxedSlice)
        → Contains (parts_at shapes s) element → offers shapes element (capability_of which) ≡ false → ordering L.model shapes which s v w ≡ None }
    ensures equality { (shapes : List Shape) (s element : ℕ) (v w : Value L) → (kind_at shapes s ≡ kind.List) ⊎ (kind_at shapes s ≡ kind.BoxedSlice)
        → Contains (parts_at shapes s) element → offers shapes element trait.PartialEq ≡ false → equality L.model shapes s v w ≡ None }
{}

/// Two maps or two sets have no answer.
pub fn maps_and_sets_have_no_answer<L: Leaf>()
    ensures order { (shapes : List Shape) (which : Which) (s : ℕ) (v w : Value L) → (kind_at shapes s ≡ kind.Map) ⊎ (kind_at shapes s ≡ kind.Set) → ordering L.model shapes which s v w ≡ None }
    ensures equality { (shapes : List Shape) (s : ℕ) (v w : Value L) → (kind_at shapes s ≡ kind.Map) ⊎ (kind_at shapes s ≡ kind.Set) → equality L.model shapes s v w ≡ None }
{}
