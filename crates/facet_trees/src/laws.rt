ghost use Rattle.std.specs.Prelude.{◌≡◌, ◌↔◌, ◌⊎◌, ◌<◌, ℕ, List, Some, length, option_map, true};
ghost use Rattle.std.specs.Ordering.{ordering_reverse};
ghost use Rattle.std.specs.declared.cmp.Ordering.TheVariants.{Less, Equal, Greater};
ghost use Rattle.facet_base.specs.declared.characteristic.Characteristic.TheVariants as trait;
ghost use Rattle.facet_causes.specs.Causes.{IsWellFormed};
ghost use Rattle.facet_shape.specs.declared.shape.Shape.{Shape};
ghost use Rattle.facet_trees.specs.Answered.{AllOffer};
ghost use Rattle.facet_trees.specs.Equal.{equality};
ghost use Rattle.facet_trees.specs.Fits.{Fits};
ghost use Rattle.facet_trees.specs.Order.{by_partial, by_total, capability_of, IsAtMost, IsOrdered, ordered, ordering, reversed, Which};
ghost use Rattle.facet_trees.specs.Value.{Value};

use facet_leaf::Leaf;

/// Where each shape that is reached by parts has the total order, any two values are ordered by it.
pub fn total_order_is_total<L: Leaf>()
    ensures { (shapes : List Shape) (s : ℕ) (v w : Value L) → IsWellFormed L.model shapes → AllOffer shapes trait.Ord s
        → Fits L.model shapes s v → Fits L.model shapes s w → IsOrdered (ordering L.model shapes by_total s v w) }
{}

/// There each value is equal to itself.
pub fn total_order_is_reflexive<L: Leaf>()
    ensures { (shapes : List Shape) (s : ℕ) (v : Value L) → IsWellFormed L.model shapes → AllOffer shapes trait.Ord s
        → Fits L.model shapes s v → ordering L.model shapes by_total s v v ≡ ordered Equal }
{}

/// With its arguments exchanged either order is reversed, also where there is no answer.
pub fn orders_are_reversed<L: Leaf>()
    ensures { (shapes : List Shape) (which : Which) (s : ℕ) (v w : Value L) → IsWellFormed L.model shapes
        → Fits L.model shapes s v → Fits L.model shapes s w
        → ordering L.model shapes which s w v ≡ reversed (ordering L.model shapes which s v w) }
{}

/// What is less than a lesser value is less, and what is at most one that is at most another is at most that.
pub fn total_order_is_transitive<L: Leaf>()
    ensures less { (shapes : List Shape) (s : ℕ) (u v w : Value L) → IsWellFormed L.model shapes
        → Fits L.model shapes s u → Fits L.model shapes s v → Fits L.model shapes s w
        → ordering L.model shapes by_total s u v ≡ ordered Less → ordering L.model shapes by_total s v w ≡ ordered Less
        → ordering L.model shapes by_total s u w ≡ ordered Less }
    ensures at_most { (shapes : List Shape) (s : ℕ) (u v w : Value L) → IsWellFormed L.model shapes
        → Fits L.model shapes s u → Fits L.model shapes s v → Fits L.model shapes s w
        → IsAtMost (ordering L.model shapes by_total s u v) → IsAtMost (ordering L.model shapes by_total s v w)
        → IsAtMost (ordering L.model shapes by_total s u w) }
{}

/// Where each shape that is reached by parts has the total order, it is Equal exactly where the values are equal.
pub fn total_order_agrees_with_equality<L: Leaf>()
    ensures { (shapes : List Shape) (s : ℕ) (v w : Value L) → IsWellFormed L.model shapes → AllOffer shapes trait.Ord s
        → Fits L.model shapes s v → Fits L.model shapes s w
        → ((ordering L.model shapes by_total s v w ≡ ordered Equal) ↔ (equality L.model shapes s v w ≡ Some true)) }
{}
