ghost use Rattle.std.specs.Prelude.{◌≡◌, ◌⊎◌, ℕ, Contains, Option};
ghost use Rattle.std.specs.Option.{option_to_list};
ghost use Rattle.facet_base.specs.declared.layout.ShapeId.{ShapeId};
ghost use Rattle.facet_base.specs.declared.layout.ShapeLayout.{ShapeLayout};
ghost use Rattle.facet_desc.specs.WithoutSpare.{ty_without_spare};
ghost use Rattle.facet_desc.specs.declared.ty.Ty.{Ty};
ghost use Rattle.facet_outline.specs.BadLayout.{has_bad_layout, has_unsized_part};
ghost use Rattle.facet_outline.specs.Discriminant.{discriminants_of_kind, repr_of_kind};
ghost use Rattle.facet_outline.specs.Field.{bodies, is_packed_struct, placed_fields, tag_bytes};
ghost use Rattle.facet_outline.specs.Layout.{IsLeastMultiple, alignment, up};
ghost use Rattle.facet_outline.specs.Mismatch.{is_mismatched};
ghost use Rattle.facet_outline.specs.Offered.{has_unoffered_member};
ghost use Rattle.facet_outline.specs.Part.{inline_parts, parts};
ghost use Rattle.facet_outline.specs.References.{eager_references, height_references, references};
ghost use Rattle.facet_outline.specs.ValueKind.{kind_of};
ghost use Rattle.facet_outline.specs.declared.value_kind.ValueKind.{ValueKind};
ghost use Rattle.facet_shape.specs.WithoutSpare.{shape_without_spare};
ghost use Rattle.facet_shape.specs.declared.shape.Shape.{Shape};

use facet_leaf::Leaf;

/// What is read off a shape depends on the items of its lists, and not on how much room they have for more.
pub fn readings_are_of_items()
    ensures kind { (element : Option ShapeId) (s : Shape) → kind_of element (shape_without_spare s) ≡ kind_of element s }
    ensures inline_parts { (element : Option ShapeId) (s : Shape) → inline_parts element (shape_without_spare s) ≡ inline_parts element s }
    ensures parts { (element : Option ShapeId) (s : Shape) → parts element (shape_without_spare s) ≡ parts element s }
    ensures height_references { (s : Shape) → height_references (shape_without_spare s) ≡ height_references s }
    ensures eager_references { (s : Shape) → eager_references (shape_without_spare s) ≡ eager_references s }
    ensures references { (s : Shape) → references (shape_without_spare s) ≡ references s }
{}

/// The same of the fields, the discriminants and the tag of the values of a kind.
pub fn readings_of_a_kind_are_of_items()
    ensures placed_fields { (k : ValueKind) (t : Ty) → placed_fields k (ty_without_spare t) ≡ placed_fields k t }
    ensures bodies { (k : ValueKind) (t : Ty) → bodies k (ty_without_spare t) ≡ bodies k t }
    ensures is_packed_struct { (k : ValueKind) (t : Ty) → is_packed_struct k (ty_without_spare t) ≡ is_packed_struct k t }
    ensures repr { (k : ValueKind) (t : Ty) → repr_of_kind k (ty_without_spare t) ≡ repr_of_kind k t }
    ensures tag_bytes { (k : ValueKind) (t : Ty) → tag_bytes k (ty_without_spare t) ≡ tag_bytes k t }
    ensures discriminants { (k : ValueKind) (t : Ty) → discriminants_of_kind k (ty_without_spare t) ≡ discriminants_of_kind k t }
{}

/// The same of the causes that are asked of one shape.
pub fn causes_are_of_items<L: Leaf>()
    ensures mismatched { (layouts : ShapeId → ShapeLayout) (s : Shape) → is_mismatched layouts (shape_without_spare s) ≡ is_mismatched layouts s }
    ensures unsized_part { (layouts : ShapeId → ShapeLayout) (element : Option ShapeId) (s : Shape) → has_unsized_part layouts element (shape_without_spare s) ≡ has_unsized_part layouts element s }
    ensures bad_layout { (layouts : ShapeId → ShapeLayout) (element : Option ShapeId) (s : Shape) → has_bad_layout layouts element (shape_without_spare s) ≡ has_bad_layout layouts element s }
    ensures capability { (element : Option ShapeId) (s : Shape) → has_unoffered_member L.model element (shape_without_spare s) ≡ has_unoffered_member L.model element s }
{}

/// Inline parts are parts, and parts are references, but for the elements of a slice that a shape points to.
pub fn parts_are_references()
    ensures inline_parts { (element : Option ShapeId) (s : Shape) (id : ShapeId) → Contains (inline_parts element s) id → Contains (parts element s) id }
    ensures parts { (element : Option ShapeId) (s : Shape) (id : ShapeId) → Contains (parts element s) id → Contains (references s) id ⊎ Contains (option_to_list element) id }
    ensures height { (s : Shape) (id : ShapeId) → Contains (height_references s) id → Contains (eager_references s) id }
    ensures eager { (s : Shape) (id : ShapeId) → Contains (eager_references s) id → Contains (references s) id }
{}

/// A number of bytes is rounded up to the least multiple of the alignment that is no less.
pub fn rounding_is_least()
    ensures { (n a : ℕ) → IsLeastMultiple (alignment a) n (up n a) }
{}
