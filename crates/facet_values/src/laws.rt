ghost use Rattle.std.specs.Prelude.{◌≡◌, ◌<◌, ◌≤◌, ◌↔◌, ◌++◌, ◌+◌, ℕ, List, length};
ghost use Rattle.facet_causes.specs.Causes.{IsWellFormed};
ghost use Rattle.facet_block.specs.declared.block.Block.{Block};
ghost use Rattle.facet_block.specs.Block.{moved_in, moved_out, size_of};
ghost use Rattle.facet_block.specs.Span.{IsCleared};
ghost use Rattle.facet_registry.specs.Registry.{kind_at, size_at};
ghost use Rattle.facet_outline.specs.declared.value_kind.ValueKind.TheVariants as ValueKind;
ghost use Rattle.facet_shape.specs.declared.shape.Shape.{Shape};
ghost use Rattle.facet_trees.specs.Fits.{Fits};
ghost use Rattle.facet_trees.specs.Value.{Value, depth};
ghost use Rattle.facet_values.specs.Place.{Place, place_in, range_of};
ghost use Rattle.facet_values.specs.Reading.{HoldsSame, IsReadableWithin, Reads, value_at};
ghost use Rattle.facet_values.specs.Seen.{leaf_at};

use facet_leaf::Leaf;

/// Two values that one place reads as are one value.
pub fn one_reading<L: Leaf>()
    ensures { (shapes : List Shape) (p : Place L) (v w : Value L) →
        Reads L.model shapes p v → Reads L.model shapes p w → v ≡ w }
{}

/// A place of a shape without values reads as none.
pub fn shapes_without_values_have_none<L: Leaf>()
    ensures { (shapes : List Shape) (p : Place L) (v : Value L) → kind_at shapes p.shape ≡ ValueKind.NoValue → ¬ Reads L.model shapes p v }
{}

/// What a place reads as fits its shape: its leaves, its forms, and the shapes of its parts.
pub fn readings_fit<L: Leaf>()
    ensures { (shapes : List Shape) (p : Place L) (v : Value L) → Reads L.model shapes p v → Fits L.model shapes p.shape v }
{}

/// A place reads as a value of so many levels at most exactly where some such value is there, and it is the one that
/// `value_at` gives.
pub fn the_value_is_found<L: Leaf>()
    ensures { (shapes : List Shape) (levels : ℕ) (p : Place L) (v : Value L) →
        ((Reads L.model shapes p v × (depth v ≤ levels)) ↔ (IsReadableWithin L.model shapes levels p × (value_at shapes levels p ≡ v))) }
{}

/// What a place reads as depends on the items of its range alone: a place of the same shape whose range
/// holds the same items reads as the same value, wherever it stands.
pub fn same_reading<L: Leaf>()
    ensures { (shapes : List Shape) (p q : Place L) (v : Value L) → IsWellFormed L.model shapes → p.shape < length shapes →
        HoldsSame shapes p q → Reads L.model shapes p v → Reads L.model shapes q v }
{}

/// A value that is moved to a place of another block is read there, and leaves its old range empty.
pub fn moved_values_read<L: Leaf>()
    ensures reads { (shapes : List Shape) (p : Place L) (to : Block L) (at : ℕ) (v : Value L) → IsWellFormed L.model shapes → p.shape < length shapes →
        at + size_at shapes p.shape ≤ size_of to → Reads L.model shapes p v →
        Reads L.model shapes (place_in p.shape (moved_in to at p.block p.offset (size_at shapes p.shape)) at) v }
    ensures cleared { (shapes : List Shape) (p : Place L) (v : Value L) → Reads L.model shapes p v →
        IsCleared p.block (moved_out p.block p.offset (size_at shapes p.shape)) (range_of shapes p) }
{}

/// When further shapes are sealed, a place of a sealed shape reads as what it read as, and has the same leaf.
pub fn readings_stay<L: Leaf>()
    ensures value { (sealed more : List Shape) (p : Place L) (v : Value L) → IsWellFormed L.model sealed → p.shape < length sealed →
        (Reads L.model sealed p v ↔ Reads L.model (sealed ++ more) p v) }
    ensures leaf { (sealed more : List Shape) (p : Place L) → IsWellFormed L.model sealed → p.shape < length sealed →
        leaf_at (sealed ++ more) p ≡ leaf_at sealed p }
{}
