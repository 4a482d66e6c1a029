ghost use Rattle.std.specs.Prelude.{◌≡◌, ◌<◌, ◌⊎◌, length};
ghost use Rattle.facet_outline.specs.declared.value_kind.ValueKind.TheVariants as kind;
ghost use Rattle.facet_registry.specs.Offsets.{pair_value_offset_at, pair_value_offset_by_def, part_at, part_offset_at, part_offset_by_def, tag_width_at};
ghost use Rattle.facet_registry.specs.Registry.{all_shapes, kind_at};

use crate::registry::Shapes;
use facet_base::{Layout, ShapeId, ShapeLayout};
use facet_causes::ShapeList;
use facet_def::Def;
use facet_leaf::Leaf;
use facet_outline::{
    ValueKind, option_offset, part_layout, result_offset, tag_bytes, value_offset,
};

impl<L: Leaf> Shapes<L> {
    /// What the layout of a shape counts as in one that is made of it, without a shape under the id as an unsized one.
    pub fn part_layout(&self, id: ShapeId) -> Layout
        ensures { result ≡ part_at (all_shapes self.now) id }
    {
        part_at(self.all_shapes(), id)
    }

    /// How many bytes the tag of an enum takes. Requires that the shape is sealed, and an enum.
    pub fn tag_width(&self, id: ShapeId) -> usize
        requires sealed { id.0 < length self.now.sealed }
        requires kind { kind_at self.now.sealed id.0 ≡ kind.Enum }
        ensures { result ≡ tag_width_at self.now.sealed id.0 }
    {
        tag_width_at(self.all_shapes(), id)
    }

    /// The offset in bytes of the part of an option or a result. Requires that the shape is sealed, and one of these.
    pub fn part_offset(&self, id: ShapeId) -> usize
        requires sealed { id.0 < length self.now.sealed }
        requires kind { (kind_at self.now.sealed id.0 ≡ kind.Option) ⊎ (kind_at self.now.sealed id.0 ≡ kind.Result) }
        ensures { result ≡ part_offset_at self.now.sealed id.0 }
    {
        part_offset_at(self.all_shapes(), id)
    }

    /// The offset in bytes of the value in a pair of a map. Requires that the shape is sealed, and a map.
    pub fn pair_value_offset(&self, id: ShapeId) -> usize
        requires sealed { id.0 < length self.now.sealed }
        requires kind { kind_at self.now.sealed id.0 ≡ kind.Map }
        ensures { result ≡ pair_value_offset_at self.now.sealed id.0 }
    {
        pair_value_offset_at(self.all_shapes(), id)
    }
}

// What the layout of the shape under an id counts as in one that is made of it.
fn part_at(shapes: &ShapeList, id: ShapeId) -> Layout
    ensures { result ≡ part_at shapes.now id }
{
    match shapes.get(id.0 as usize) {
        Some(shape) => part_layout(shape.layout),
        None => part_layout(ShapeLayout::Unsized),
    }
}

// How many bytes the tag of the enum under an id takes.
fn tag_width_at(shapes: &ShapeList, id: ShapeId) -> usize
    ensures { result ≡ tag_width_at shapes.now id.0 }
{
    match shapes.get(id.0 as usize) {
        Some(shape) => tag_bytes(ValueKind::Enum, &shape.ty),
        None => 0,
    }
}

// Where the part of the option or of the result under an id lies.
fn part_offset_at(shapes: &ShapeList, id: ShapeId) -> usize
    ensures { result ≡ part_offset_at shapes.now id.0 }
{
    match shapes.get(id.0 as usize) {
        Some(shape) => part_offset_by_def(shapes, &shape.def),
        None => 0,
    }
}

// The same by the definition.
fn part_offset_by_def(shapes: &ShapeList, def: &Def) -> usize
    ensures { result ≡ part_offset_by_def shapes.now def.now }
{
    match def {
        Def::Option(option) => option_offset(part_at(shapes, option.t)),
        Def::Result(result) => {
            result_offset(part_at(shapes, result.t), part_at(shapes, result.e))
        }
        _ => 0,
    }
}

// Where the value lies in a pair of the map under an id.
fn pair_value_offset_at(shapes: &ShapeList, id: ShapeId) -> usize
    ensures { result ≡ pair_value_offset_at shapes.now id.0 }
{
    match shapes.get(id.0 as usize) {
        Some(shape) => pair_value_offset_by_def(shapes, &shape.def),
        None => 0,
    }
}

// The same by the definition.
fn pair_value_offset_by_def(shapes: &ShapeList, def: &Def) -> usize
    ensures { result ≡ pair_value_offset_by_def shapes.now def.now }
{
    match def {
        Def::Map(map) => value_offset(part_at(shapes, map.k), part_at(shapes, map.v)),
        _ => 0,
    }
}
