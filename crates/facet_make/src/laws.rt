ghost use Rattle.std.specs.Prelude.{◌≡◌, ◌⊎◌, ◌≤◌, ℕ, [], false, length, List, None, Some, true};
ghost use Rattle.facet_base.specs.declared.characteristic.Characteristic.TheVariants as trait;
ghost use Rattle.facet_causes.specs.Causes.{IsWellFormed};
ghost use Rattle.facet_causes.specs.Reading.{inline_at};
ghost use Rattle.facet_graph.specs.Height.{IsWithin};
ghost use Rattle.facet_make.specs.Clone.{clone_case};
ghost use Rattle.facet_make.specs.Default.{default_case};
ghost use Rattle.facet_make.specs.Made.{made, refused};
ghost use Rattle.facet_registry.specs.Registry.{offers};
ghost use Rattle.facet_shape.specs.declared.shape.Shape.{Shape};
ghost use Rattle.facet_trees.specs.Equal.{equality};
ghost use Rattle.facet_trees.specs.Fits.{Fits};
ghost use Rattle.facet_trees.specs.Value.{depth, leaves, Value};

use facet_leaf::Leaf;

/// From the inline height of a shape on, its default doesn't depend on the number of levels. The height of a sealed shape
/// is at most 100.
pub fn defaults_need_no_more_levels<L: Leaf>()
    ensures height { (shapes : List Shape) (s h n : ℕ) → IsWithin (inline_at shapes) h s → h ≤ n → default_case L.model shapes n s ≡ default_case L.model shapes h s }
    ensures sealed { (shapes : List Shape) (s n : ℕ) → IsWellFormed L.model shapes → 100 ≤ n → default_case L.model shapes n s ≡ default_case L.model shapes 100 s }
{}

/// A shape without a default has none, and nothing is made of it.
pub fn no_default_without_capability<L: Leaf>()
    ensures { (shapes : List Shape) (levels s : ℕ) → offers shapes s trait.Default ≡ false → default_case L.model shapes levels s ≡ refused [] }
{}

/// A default is a value of its shape, with no more levels than were allowed.
pub fn defaults_fit<L: Leaf>()
    ensures fits { (shapes : List Shape) (levels s : ℕ) (v : Value L) → default_case L.model shapes levels s ≡ made v → Fits L.model shapes s v }
    ensures levels { (shapes : List Shape) (levels s : ℕ) (v : Value L) → default_case L.model shapes levels s ≡ made v → depth v ≤ levels }
{}

/// Values of a shape without a clone have none, and nothing is made of them.
pub fn no_clone_without_capability<L: Leaf>()
    ensures { (shapes : List Shape) (s : ℕ) (v : Value L) → offers shapes s trait.Clone ≡ false → clone_case L.model shapes s v ≡ refused [] }
{}

/// The clone of a value is a value of the same shape.
pub fn clones_fit<L: Leaf>()
    ensures { (shapes : List Shape) (s : ℕ) (v w : Value L) → IsWellFormed L.model shapes → Fits L.model shapes s v → clone_case L.model shapes s v ≡ made w → Fits L.model shapes s w }
{}

/// Where two values of the shape have an answer about equality, a value equals its clone.
pub fn clones_are_equal<L: Leaf>()
    ensures { (shapes : List Shape) (s : ℕ) (v w : Value L) → IsWellFormed L.model shapes → Fits L.model shapes s v → clone_case L.model shapes s v ≡ made w
        → (equality L.model shapes s v w ≡ None) ⊎ (equality L.model shapes s v w ≡ Some true) }
{}

/// A clone has as many leaves and as many levels as its source.
pub fn clones_have_as_many_leaves<L: Leaf>()
    ensures leaves { (shapes : List Shape) (s : ℕ) (v w : Value L) → Fits L.model shapes s v → clone_case L.model shapes s v ≡ made w → length (leaves w) ≡ length (leaves v) }
    ensures levels { (shapes : List Shape) (s : ℕ) (v w : Value L) → Fits L.model shapes s v → clone_case L.model shapes s v ≡ made w → depth w ≡ depth v }
{}
