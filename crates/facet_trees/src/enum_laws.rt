ghost use Rattle.std.specs.Prelude.{◌≡◌, ℕ, ℤ, List, Some, slice_get, true};
ghost use Rattle.std.specs.Ordering.{int_cmp};
ghost use Rattle.facet_causes.specs.DistinctVariants.{discriminants_in};
ghost use Rattle.facet_causes.specs.Reading.{kind_in};
ghost use Rattle.facet_desc.specs.declared.enum_type.EnumType.{EnumType};
ghost use Rattle.facet_desc.specs.declared.ty.Ty.TheVariants as ty;
ghost use Rattle.facet_desc.specs.declared.ty.UserType.TheVariants as user;
ghost use Rattle.facet_outline.specs.declared.value_kind.ValueKind.TheVariants as kind;
ghost use Rattle.facet_registry.specs.Registry.{offers};
ghost use Rattle.facet_shape.specs.declared.shape.Shape.{Shape};
ghost use Rattle.facet_trees.specs.Enums.{IsOfVariant};
ghost use Rattle.facet_trees.specs.Fits.{Fits};
ghost use Rattle.facet_trees.specs.Order.{capability_of, ordered, ordering, Which};
ghost use Rattle.facet_trees.specs.Value.{Value, Values, node};
ghost use Rattle.facet_trees.specs.declared.form.Form.TheVariants as form;

use facet_leaf::Leaf;

/// A value of an enum is of one of its variants.
pub fn values_of_enums_are_of_variants<L: Leaf>()
    ensures { (shapes : List Shape) (s : ℕ) (shape : Shape) (e : EnumType) (v : Value L) → slice_get shapes s ≡ Some shape → kind_in shapes shape ≡ kind.Enum
        → shape.ty ≡ ty.User (user.Enum e) → Fits L.model shapes s v → IsOfVariant L.model shapes e v }
{}

/// Values of two variants are ordered as the discriminants are, whatever their fields are.
pub fn variants_are_ordered_by_discriminants<L: Leaf>()
    ensures { (shapes : List Shape) (which : Which) (s i j : ℕ) (a b : ℤ) (shape : Shape) (vs ws : Values L) → slice_get shapes s ≡ Some shape
        → slice_get (discriminants_in shapes shape) i ≡ Some a → slice_get (discriminants_in shapes shape) j ≡ Some b → ¬ (a ≡ b)
        → offers shapes s (capability_of which) ≡ true
        → ordering L.model shapes which s (node (form.Variant i) vs) (node (form.Variant j) ws) ≡ ordered (int_cmp a b) }
{}
