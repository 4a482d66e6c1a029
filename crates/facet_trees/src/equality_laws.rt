ghost use Rattle.std.specs.Prelude.{◌≡◌, ◌↔◌, ◌⊎◌, ℕ, List, Some, true, false};
ghost use Rattle.std.specs.declared.cmp.Ordering.TheVariants.{Equal};
ghost use Rattle.facet_base.specs.declared.characteristic.Characteristic.TheVariants as trait;
ghost use Rattle.facet_causes.specs.Causes.{IsWellFormed};
ghost use Rattle.facet_shape.specs.declared.shape.Shape.{Shape};
ghost use Rattle.facet_trees.specs.Answered.{AllOffer, is_answered, rank_at};
ghost use Rattle.facet_trees.specs.Equal.{equality};
ghost use Rattle.facet_trees.specs.Fits.{Fits};
ghost use Rattle.facet_trees.specs.Order.{by_partial, ordered, ordering};
ghost use Rattle.facet_trees.specs.Value.{Value, Values, count, node};
ghost use Rattle.facet_trees.specs.declared.form.Form.{Form};

use facet_leaf::Leaf;

/// Equality is the same with its arguments exchanged, also where there is no answer.
pub fn equality_is_symmetric<L: Leaf>()
    ensures { (shapes : List Shape) (s : ℕ) (v w : Value L) → IsWellFormed L.model shapes
        → Fits L.model shapes s v → Fits L.model shapes s w → equality L.model shapes s w v ≡ equality L.model shapes s v w }
{}

/// Where each shape that is reached by parts has the partial order, it is Equal exactly where the values are equal.
pub fn partial_order_agrees_with_equality<L: Leaf>()
    ensures { (shapes : List Shape) (s : ℕ) (v w : Value L) → IsWellFormed L.model shapes → AllOffer shapes trait.PartialOrd s
        → Fits L.model shapes s v → Fits L.model shapes s w
        → ((ordering L.model shapes by_partial s v w ≡ ordered Equal) ↔ (equality L.model shapes s v w ≡ Some true)) }
{}

/// Values whose forms differ in rank, or which have another number of parts, aren't equal, whatever their parts have.
pub fn ranks_and_lengths_come_first<L: Leaf>()
    ensures { (shapes : List Shape) (s : ℕ) (form other : Form) (vs ws : Values L) → is_answered shapes trait.PartialEq s ≡ true
        → ¬ (rank_at shapes s form ≡ rank_at shapes s other) ⊎ ¬ (count vs ≡ count ws) → equality L.model shapes s (node form vs) (node other ws) ≡ Some false }
{}

/// Equal values are of one form, and have as many parts.
pub fn equal_values_have_one_form<L: Leaf>()
    ensures { (shapes : List Shape) (s : ℕ) (form other : Form) (vs ws : Values L) → IsWellFormed L.model shapes
        → Fits L.model shapes s (node form vs) → Fits L.model shapes s (node other ws)
        → equality L.model shapes s (node form vs) (node other ws) ≡ Some true → (form ≡ other) × (count vs ≡ count ws) }
{}
