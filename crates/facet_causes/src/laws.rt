ghost use Rattle.std.specs.Prelude.{◌≡◌, ◌++◌, ◌<◌, ℕ, All, List, Some, length, slice_get};
ghost use Rattle.facet_causes.specs.Bounds.{HeightFalls, IsBounded, OwnItemHasByte};
ghost use Rattle.facet_causes.specs.Causes.{IsWellFormed};
ghost use Rattle.facet_causes.specs.DistinctVariants.{VariantsAreDistinct};
ghost use Rattle.facet_causes.specs.First.{IsFirstCause, NoneOfFirst};
ghost use Rattle.facet_causes.specs.KnownParts.{PartsAreSized, PlacedAreInline, ReferencesAreKnown};
ghost use Rattle.facet_causes.specs.OfferedMembers.{MembersAreOffered};
ghost use Rattle.facet_causes.specs.OrderedKeys.{KeysAreOrdered};
ghost use Rattle.facet_causes.specs.PartPlaces.{PairsHoldBoth, PartsAreAligned, PartsAreApart, PartsLieInside};
ghost use Rattle.facet_causes.specs.declared.cause.SealCause.{SealCause};
ghost use Rattle.facet_shape.specs.declared.shape.Shape.{Shape};

use facet_leaf::Leaf;

/// At most one cause and one shape come first.
pub fn one_first_cause<L: Leaf>()
    ensures { (shapes : List Shape) (c d : SealCause) (s t : ℕ) → IsFirstCause L.model shapes c s → IsFirstCause L.model shapes d t → (c ≡ d) × (s ≡ t) }
{}

/// Where a cause comes first the shapes aren't well formed.
pub fn first_cause_refuses<L: Leaf>()
    ensures { (shapes : List Shape) (c : SealCause) (s : ℕ) → IsFirstCause L.model shapes c s → ¬ IsWellFormed L.model shapes }
{}

/// Shapes that are well formed stay so when further ones stand behind them.
pub fn sealed_shapes_stay<L: Leaf>()
    ensures { (shapes drafts : List Shape) → IsWellFormed L.model shapes → NoneOfFirst L.model (shapes ++ drafts) (length shapes) }
{}

/// Of shapes that are well formed the tag and each inline part of a value lie inside it.
pub fn parts_lie_inside<L: Leaf>()
    ensures { (shapes : List Shape) → IsWellFormed L.model shapes → All (PartsLieInside shapes) shapes }
{}

/// No two of the tag and the inline parts that lie side by side share a byte.
pub fn parts_are_apart<L: Leaf>()
    ensures { (shapes : List Shape) → IsWellFormed L.model shapes → All (PartsAreApart shapes) shapes }
{}

/// Layouts are even, and inline parts are aligned, but for the fields of a packed struct.
pub fn parts_are_aligned<L: Leaf>()
    ensures { (shapes : List Shape) → IsWellFormed L.model shapes → All (PartsAreAligned shapes) shapes }
{}

/// A pair of a map holds the key and behind it the value.
pub fn pairs_hold_both<L: Leaf>()
    ensures { (shapes : List Shape) → IsWellFormed L.model shapes → PairsHoldBoth shapes }
{}

/// What a shape refers to is there.
pub fn references_are_known<L: Leaf>()
    ensures { (shapes : List Shape) → IsWellFormed L.model shapes → All (ReferencesAreKnown shapes) shapes }
{}

/// Values and their parts are sized, and the parts are there.
pub fn parts_are_sized<L: Leaf>()
    ensures { (shapes : List Shape) → IsWellFormed L.model shapes → All (PartsAreSized shapes) shapes }
{}

/// Each part that has a place is an inline part. This holds of all shapes.
pub fn placed_are_inline()
    ensures { (shapes : List Shape) → All (PlacedAreInline shapes) shapes }
{}

/// Values take few bytes, and have few parts.
pub fn values_are_bounded<L: Leaf>()
    ensures { (shapes : List Shape) → IsWellFormed L.model shapes → (s : ℕ) (shape : Shape) → slice_get shapes s ≡ Some shape → IsBounded shapes s shape }
{}

/// At most 100 values lie one in another, and each inline part has a level less.
pub fn heights_fall<L: Leaf>()
    ensures { (shapes : List Shape) → IsWellFormed L.model shapes → (s : ℕ) → s < length shapes → HeightFalls shapes s }
{}

/// Values that begin with an item of their own have a byte for it.
pub fn own_items_have_bytes<L: Leaf>()
    ensures { (shapes : List Shape) → IsWellFormed L.model shapes → All (OwnItemHasByte shapes) shapes }
{}

/// The keys of maps and the items of sets have a total order, with all parts of theirs.
pub fn keys_are_ordered<L: Leaf>()
    ensures { (shapes : List Shape) → IsWellFormed L.model shapes → All (KeysAreOrdered shapes) shapes }
{}

/// A shape has no member that isn't offered for the kind of its values.
pub fn members_are_offered<L: Leaf>()
    ensures { (shapes : List Shape) → IsWellFormed L.model shapes → All (MembersAreOffered L.model shapes) shapes }
{}

/// A discriminant names one variant at most, and is a number of the representation's type.
pub fn variants_are_distinct<L: Leaf>()
    ensures { (shapes : List Shape) → IsWellFormed L.model shapes → All (VariantsAreDistinct shapes) shapes }
{}
