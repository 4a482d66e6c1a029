ghost use Rattle.std.specs.Prelude.{◌≡◌, ◌<◌, length};
ghost use Rattle.facet_base.specs.declared.characteristic.Characteristic.TheVariants as trait;
ghost use Rattle.facet_lookup.specs.Find.{HasKeys, key_shape};
ghost use Rattle.facet_trees.specs.Answered.{AllOffer};

use facet_base::ShapeId;
use facet_def::Def;
use facet_leaf::Leaf;
use facet_registry::Shapes;
use facet_walk::sealed_shape;

/// The shape of the keys of a map or of the items of a set.
pub(crate) fn key_shape<L: Leaf>(shapes: &Shapes<L>, s: ShapeId) -> ShapeId
    requires sealed { s.0 < length shapes.now.sealed }
    requires kind { HasKeys shapes.now.sealed s.0 }
    ensures key { result.0 ≡ key_shape shapes.now.sealed s.0 }
    ensures sealed { result.0 < length shapes.now.sealed }
    ensures ordered { AllOffer shapes.now.sealed trait.Ord result.0 }
{
    // proof: keys are ordered, with all parts of theirs
    let _sealed = shapes.sealed();
    match &sealed_shape(shapes, s).def {
        Def::Map(map) => map.k,
        Def::Set(set) => set.t,
        _ => unreachable!(),
    }
}
