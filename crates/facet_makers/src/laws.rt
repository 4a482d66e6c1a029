ghost use Rattle.std.specs.Prelude.{◌≡◌, ℕ, List, None, Some, map};
ghost use Rattle.facet_base.specs.declared.layout.Layout.{Layout};
ghost use Rattle.facet_base.specs.declared.layout.ShapeId.{ShapeId};
ghost use Rattle.facet_base.specs.declared.layout.ShapeLayout.{ShapeLayout};
ghost use Rattle.facet_makers.specs.Makers.{array_shape, box_shape, boxed_slice_shape, list_shape, map_shape, option_shape, result_shape, set_shape, slice_shape, tuple_shape};
ghost use Rattle.facet_makers.specs.SuitsKind.{SuitsKind};
ghost use Rattle.facet_makers.specs.Types.{tuple_parts};
ghost use Rattle.facet_outline.specs.Layout.{offsets_behind, part_layout, rounded, tuple_layout};
ghost use Rattle.facet_outline.specs.declared.value_kind.ValueKind.TheVariants as kind;

use facet_leaf::Leaf;

/// What each maker drafts is of the kind that its name says, whatever the layouts of the shapes that are there. What
/// it says of itself fits together, and it offers no more than may be asked of the kind.
pub fn drafts_suit_their_kinds<L: Leaf>()
    ensures option { (layouts : ShapeId → ShapeLayout) (t : ShapeId) → SuitsKind L.model layouts None kind.Option (option_shape L.model t (part_layout (layouts t))) }
    ensures result { (layouts : ShapeId → ShapeLayout) (t e : ShapeId) → SuitsKind L.model layouts None kind.Result (result_shape L.model t e (part_layout (layouts t)) (part_layout (layouts e))) }
    ensures list { (layouts : ShapeId → ShapeLayout) (t : ShapeId) → SuitsKind L.model layouts None kind.List (list_shape L.model t) }
    ensures map { (layouts : ShapeId → ShapeLayout) (k v : ShapeId) → SuitsKind L.model layouts None kind.Map (map_shape L.model k v (part_layout (layouts k)) (part_layout (layouts v))) }
    ensures set { (layouts : ShapeId → ShapeLayout) (t : ShapeId) → SuitsKind L.model layouts None kind.Set (set_shape L.model t) }
    ensures array { (layouts : ShapeId → ShapeLayout) (t : ShapeId) (n : ℕ) → SuitsKind L.model layouts None kind.Array (array_shape L.model t n (part_layout (layouts t))) }
    ensures slice { (layouts : ShapeId → ShapeLayout) (t : ShapeId) → SuitsKind L.model layouts None kind.NoValue (slice_shape L.model t) }
    ensures boxed { (layouts : ShapeId → ShapeLayout) (t : ShapeId) → SuitsKind L.model layouts None kind.Box (box_shape L.model t) }
    ensures boxed_slice { (layouts : ShapeId → ShapeLayout) (t element : ShapeId) → SuitsKind L.model layouts (Some element) kind.BoxedSlice (boxed_slice_shape L.model t) }
    ensures tuple { (layouts : ShapeId → ShapeLayout) (ids : List ShapeId) → SuitsKind L.model layouts None kind.Struct (tuple_shape (λ t. part_layout (layouts t)) ids) }
{}

/// The fields of a tuple lie one behind the other, each at the next offset of its alignment, and the tuple has the
/// layout of its parts.
pub fn tuples_are_laid_out()
    ensures offsets { (part : ShapeId → Layout) (ids : List ShapeId) → map (λ field. field.offset) (tuple_parts part ids).fields ≡ offsets_behind 0 (map part ids) }
    ensures layout { (part : ShapeId → Layout) (ids : List ShapeId) → rounded (tuple_parts part ids).end (tuple_parts part ids).align ≡ tuple_layout (map part ids) }
    ensures shapes { (part : ShapeId → Layout) (ids : List ShapeId) → map (λ field. field.shape) (tuple_parts part ids).fields ≡ ids }
{}
