ghost use Rattle.std.specs.Prelude.{◌≡◌, ◌<◌, [], All, length, slice_get, Some};
ghost use Rattle.facet_block.specs.Block.{with_item};
ghost use Rattle.facet_block.specs.PtrUninit.{place_of};
ghost use Rattle.facet_block.specs.Span.{IsChanged, IsVacant, span};
ghost use Rattle.facet_block.specs.declared.block.Block.{Block};
ghost use Rattle.facet_block.specs.declared.block.Item.{Tag};
ghost use Rattle.facet_desc.specs.declared.variant.Variant.{Variant};
ghost use Rattle.facet_init.specs.Variants.{HasFields, variants_at};
ghost use Rattle.facet_outline.specs.Field.{placed};
ghost use Rattle.facet_outline.specs.declared.value_kind.ValueKind.TheVariants as ValueKind;
ghost use Rattle.facet_registry.specs.Registry.{kind_at, size_at};
ghost use Rattle.facet_trees.specs.Value.{Values, node, none};
ghost use Rattle.facet_trees.specs.declared.form.Form.TheVariants as Form;
ghost use Rattle.facet_values.specs.Place.{part_place, place_in, range_of};
ghost use Rattle.facet_values.specs.Reading.{Reads};

use facet_base::ShapeId;
use facet_block::PtrUninit;
use facet_contain::destinations::put_tag;
use facet_leaf::Leaf;
use facet_registry::Shapes;

/// Puts the tag of a variant where an empty range begins. The ranges of its fields are still empty: once a value was moved
/// into each, the place holds the value of that variant. Without fields it holds it at once. Requires that the shape is
/// sealed and an enum, and `variant` an index of its variants.
pub fn init_variant<L: Leaf>(
    shapes: &Shapes<L>,
    s: ShapeId,
    dst: &mut PtrUninit<'_, L>,
    variant: u32,
)
    requires sealed { s.0 < length shapes.now.sealed }
    requires kind { kind_at shapes.now.sealed s.0 ≡ ValueKind.Enum }
    requires variant { variant < length (variants_at shapes.now.sealed s.0) }
    requires vacant { IsVacant (place_of dst.old).block.now (span (place_of dst.old).offset (size_at shapes.now.sealed s.0)) }
    ensures same_reference { (place_of dst.new).block.ghost_name ≡ (place_of dst.old).block.ghost_name }
    ensures same_offset { (place_of dst.new).offset ≡ (place_of dst.old).offset }
    ensures tag { (place_of dst.new).block.now ≡ with_item (place_of dst.old).block.now (place_of dst.old).offset (Some (Tag variant)) }
    ensures elsewhere { IsChanged (place_of dst.old).block.now (place_of dst.new).block.now (span (place_of dst.old).offset (size_at shapes.now.sealed s.0)) }
    ensures fields { (v : Variant) → slice_get (variants_at shapes.now.sealed s.0) variant ≡ Some v
        → All (λ field. IsVacant (place_of dst.new).block.now (range_of shapes.now.sealed (part_place (place_in s.0 (place_of dst.new).block.now (place_of dst.old).offset) field))) (placed v.body) }
    ensures made { (v : Variant) → slice_get (variants_at shapes.now.sealed s.0) variant ≡ Some v → placed v.body ≡ []
        → Reads L.model shapes.now.sealed (place_in s.0 (place_of dst.new).block.now (place_of dst.old).offset) (node (Form.Variant variant) none) }
    ensures filled { (v : Variant) → slice_get (variants_at shapes.now.sealed s.0) variant ≡ Some v
        → (later : Block L) (vs : Values L) → HasFields L.model shapes.now.sealed (placed v.body) (place_in s.0 (place_of dst.new).block.now (place_of dst.old).offset) later vs
        → Reads L.model shapes.now.sealed (place_in s.0 later (place_of dst.old).offset) (node (Form.Variant variant) vs) }
{
    // proof: the registry says that an enum has a byte for its tag
    let _sealed = shapes.sealed();
    put_tag(dst, variant);
}
