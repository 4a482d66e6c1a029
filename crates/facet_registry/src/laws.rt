ghost use Rattle.std.specs.Prelude.{◌≡◌, ◌<◌, ◌++◌, ℕ, List, length};
ghost use Rattle.facet_base.specs.declared.characteristic.Characteristic.{Characteristic};
ghost use Rattle.facet_causes.specs.Causes.{IsWellFormed};
ghost use Rattle.facet_registry.specs.Offsets.{pair_value_offset_at, part_offset_at, tag_width_at};
ghost use Rattle.facet_registry.specs.Registry.{kind_at, offers, size_at};
ghost use Rattle.facet_shape.specs.declared.shape.Shape.{Shape};

use facet_leaf::Leaf;

/// When further shapes are sealed, what the values of a sealed shape are, their size, what they can do, and where their
/// tag and their parts lie, stay as they were.
pub fn descriptions_stay<L: Leaf>()
    ensures kind { (sealed more : List Shape) (s : ℕ) → IsWellFormed L.model sealed → s < length sealed
        → kind_at (sealed ++ more) s ≡ kind_at sealed s }
    ensures size { (sealed more : List Shape) (s : ℕ) → IsWellFormed L.model sealed → s < length sealed
        → size_at (sealed ++ more) s ≡ size_at sealed s }
    ensures can { (sealed more : List Shape) (s : ℕ) (c : Characteristic) → IsWellFormed L.model sealed → s < length sealed
        → offers (sealed ++ more) s c ≡ offers sealed s c }
    ensures tag { (sealed more : List Shape) (s : ℕ) → IsWellFormed L.model sealed → s < length sealed
        → tag_width_at (sealed ++ more) s ≡ tag_width_at sealed s }
    ensures part { (sealed more : List Shape) (s : ℕ) → IsWellFormed L.model sealed → s < length sealed
        → part_offset_at (sealed ++ more) s ≡ part_offset_at sealed s }
    ensures pair { (sealed more : List Shape) (s : ℕ) → IsWellFormed L.model sealed → s < length sealed
        → pair_value_offset_at (sealed ++ more) s ≡ pair_value_offset_at sealed s }
{}
