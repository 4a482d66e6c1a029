ghost use Rattle.std.specs.Prelude.{◌≡◌, ℕ, false, true, List, Some};
ghost use Rattle.facet_base.specs.declared.characteristic.Characteristic.TheVariants as trait;
ghost use Rattle.facet_causes.specs.Causes.{IsWellFormed};
ghost use Rattle.facet_compare.specs.Hash.{hash_writes, no_hash};
ghost use Rattle.facet_registry.specs.Registry.{offers};
ghost use Rattle.facet_shape.specs.declared.shape.Shape.{Shape};
ghost use Rattle.facet_trees.specs.Answered.{AllOffer};
ghost use Rattle.facet_trees.specs.Equal.{equality};
ghost use Rattle.facet_trees.specs.Fits.{Fits};
ghost use Rattle.facet_trees.specs.Order.{by_partial, by_total, ordering};
ghost use Rattle.facet_trees.specs.Value.{Value};

use facet_leaf::Leaf;

/// Values of a shape without a hash write nothing.
pub fn no_hash_without_capability<L: Leaf>()
    ensures { (shapes : List Shape) (s : ℕ) (v : Value L) → offers shapes s trait.Hash ≡ false → hash_writes L.model shapes s v ≡ no_hash }
{}

/// Where each shape that is reached by parts has a hash, the shape itself too, the writes of a value are finished.
pub fn hashes_are_finished<L: Leaf>()
    ensures { (shapes : List Shape) (s : ℕ) (v : Value L) → IsWellFormed L.model shapes → AllOffer shapes trait.Hash s
        → Fits L.model shapes s v → (hash_writes L.model shapes s v).finished ≡ true }
{}

/// Where everything that is reached by parts has the total order, what is equal to one of two equal values is equal to
/// the other.
pub fn equality_is_transitive<L: Leaf>()
    ensures { (shapes : List Shape) (s : ℕ) (u v w : Value L) → IsWellFormed L.model shapes → AllOffer shapes trait.Ord s
        → Fits L.model shapes s u → Fits L.model shapes s v → Fits L.model shapes s w
        → equality L.model shapes s u v ≡ Some true → equality L.model shapes s v w ≡ Some true → equality L.model shapes s u w ≡ Some true }
{}

/// Equal values have the same hash writes, finished or not.
pub fn equal_values_write_the_same<L: Leaf>()
    ensures { (shapes : List Shape) (s : ℕ) (v w : Value L) → IsWellFormed L.model shapes → Fits L.model shapes s v → Fits L.model shapes s w
        → equality L.model shapes s v w ≡ Some true → hash_writes L.model shapes s v ≡ hash_writes L.model shapes s w }
{}

/// Where everything that is reached by parts has the total order, the partial one answers the same.
pub fn orders_agree<L: Leaf>()
    ensures { (shapes : List Shape) (s : ℕ) (v w : Value L) → IsWellFormed L.model shapes → AllOffer shapes trait.Ord s
        → Fits L.model shapes s v → Fits L.model shapes s w
        → ordering L.model shapes by_partial s v w ≡ ordering L.model shapes by_total s v w }
{}
