ghost use Rattle.std.specs.Prelude.{◌≡◌, ◌<◌, List, length};
ghost use Rattle.facet_base.specs.declared.layout.ShapeId.{ShapeId};
ghost use Rattle.facet_init.specs.Blocks.{HasBlocks};
ghost use Rattle.facet_registry.specs.Registry.{kind_at};
ghost use Rattle.facet_trees.specs.Structure.{block_size, sequence, structure_at};
ghost use Rattle.facet_trees.specs.declared.form.Form.{Form};

use facet_base::ShapeId;
use facet_def::Def;
use facet_leaf::Leaf;
use facet_outline::pair_layout;
use facet_registry::Shapes;
use facet_walk::{element_in, sealed_shape};

/// The size in bytes of the blocks of a list, a map, a set or a box.
pub(crate) fn block_size<L: Leaf>(shapes: &Shapes<L>, s: ShapeId) -> usize
    requires sealed { s.0 < length shapes.now.sealed }
    requires kind { HasBlocks (kind_at shapes.now.sealed s.0) }
    ensures { (form : Form) (ids : List ShapeId) → structure_at shapes.now.sealed s.0 ≡ sequence form ids → result ≡ block_size shapes.now.sealed ids }
{
    // proof: what a sealed shape refers to is sealed
    let _sealed = shapes.sealed();
    let def = &sealed_shape(shapes, s).def;
    match def {
        Def::Map(map) => pair_layout(shapes.part_layout(map.k), shapes.part_layout(map.v)).size,
        _ => match element_in(def) {
            Some(element) => shapes.part_layout(element).size,
            None => unreachable!(),
        },
    }
}
