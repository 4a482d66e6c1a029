ghost use Rattle.std.specs.Prelude.{◌≡◌, ◌<◌, [], ◌∷◌, length};
ghost use Rattle.facet_causes.specs.Arrangement.{single};
ghost use Rattle.facet_outline.specs.declared.value_kind.ValueKind.TheVariants as ValueKind;
ghost use Rattle.facet_registry.specs.Offsets.{part_offset_at};
ghost use Rattle.facet_registry.specs.Registry.{kind_at};
ghost use Rattle.facet_trees.specs.Structure.{option_form, result_form, structure_at, tagged};

use facet_base::ShapeId;
use facet_def::Def;
use facet_leaf::Leaf;
use facet_registry::Shapes;
use facet_walk::sealed_shape;

/// The shape of what an option holds.
pub(crate) fn option_part<L: Leaf>(shapes: &Shapes<L>, s: ShapeId) -> ShapeId
    requires sealed { s.0 < length shapes.now.sealed }
    requires kind { kind_at shapes.now.sealed s.0 ≡ ValueKind.Option }
    ensures { structure_at shapes.now.sealed s.0 ≡ tagged option_form ([] ∷ single result (part_offset_at shapes.now.sealed s.0) ∷ []) }
{
    match &sealed_shape(shapes, s).def {
        Def::Option(option) => option.t,
        _ => unreachable!(),
    }
}

/// The shapes of the value and of the error of a result.
pub(crate) fn result_parts<L: Leaf>(shapes: &Shapes<L>, s: ShapeId) -> (ShapeId, ShapeId)
    requires sealed { s.0 < length shapes.now.sealed }
    requires kind { kind_at shapes.now.sealed s.0 ≡ ValueKind.Result }
    ensures { structure_at shapes.now.sealed s.0
        ≡ tagged result_form (single result.0 (part_offset_at shapes.now.sealed s.0) ∷ single result.1 (part_offset_at shapes.now.sealed s.0) ∷ []) }
{
    match &sealed_shape(shapes, s).def {
        Def::Result(result) => (result.t, result.e),
        _ => unreachable!(),
    }
}
