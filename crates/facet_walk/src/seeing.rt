ghost use Rattle.std.specs.Prelude.{◌≡◌, ◌<◌, length};
ghost use Rattle.std.specs.Option.{option_map_or};
ghost use Rattle.facet_block.specs.Block.{item_at, leaf_of};
ghost use Rattle.facet_outline.specs.Field.{bodies};
ghost use Rattle.facet_outline.specs.declared.value_kind.ValueKind.TheVariants as kind;
ghost use Rattle.facet_registry.specs.Registry.{all_shapes};
ghost use Rattle.facet_trees.specs.Structure.{body_under};
ghost use Rattle.facet_values.specs.Seen.{a_leaf, no_value, seen};
ghost use Rattle.facet_walk.specs.Look.{elements_in_a_row, parts_behind, places_of, pointed, seen_of};

use crate::items::leaf_at;
use crate::parts::Parts;
use crate::sealed::{pointed_elements, sealed_shape};
use crate::sequences::{element_in, see_elements, see_pairs};
use crate::tags::{see_option, see_result, see_variant};
use facet_base::ShapeId;
use facet_block::PtrConst;
use facet_def::Def;
use facet_desc::{Ty, UserType};
use facet_leaf::Leaf;
use facet_registry::{Shapes, ValueKind};
use facet_trees::Form;

/// What a value at a place begins with.
#[derive_where(Clone, Copy)]
pub enum Seen<'a, L> {
    /// The value is a leaf.
    Leaf(&'a L),
    /// The value has a form, and parts at these places.
    Node(Form, Parts<'a, L>),
}

/// What a value of a sealed shape at a place begins with, and None where there is nothing that one begins with,
/// whatever else lies there.
pub fn see<'a, L: Leaf>(
    shapes: &'a Shapes<L>,
    id: ShapeId,
    at: PtrConst<'a, L>,
) -> Option<Seen<'a, L>>
    requires { id.0 < length shapes.now.sealed }
    ensures { seen_of result ≡ seen shapes.now.sealed (pointed id at.entry) }
{
    // proof: what a sealed shape refers to is sealed
    let _sealed = shapes.sealed();
    let shape = sealed_shape(shapes, id);
    match shapes.kind_of(id) {
        ValueKind::NoValue => None,
        ValueKind::Unit => Some(Seen::Node(Form::Unit, Parts::None)),
        ValueKind::Leaf(_) => see_leaf(at),
        ValueKind::Struct => Some(Seen::Node(Form::Record, struct_parts(&shape.ty, at))),
        ValueKind::Array => Some(Seen::Node(Form::Array, array_parts(shapes, &shape.def, at))),
        ValueKind::Enum => see_variant(&shape.ty, at),
        ValueKind::Option => see_option(&shape.def, shapes.part_offset(id), at),
        ValueKind::Result => see_result(&shape.def, shapes.part_offset(id), at),
        ValueKind::List => see_elements(Form::List, element_in(&shape.def), at),
        ValueKind::Set => see_elements(Form::Set, element_in(&shape.def), at),
        ValueKind::Box => see_elements(Form::Box, element_in(&shape.def), at),
        ValueKind::BoxedSlice => {
            see_elements(Form::BoxedSlice, pointed_elements(shapes, &shape.def), at)
        }
        ValueKind::Map => see_pairs(&shape.def, shapes.pair_value_offset(id), at),
    }
}

// What is seen of a leaf.
fn see_leaf<'a, L>(at: PtrConst<'a, L>) -> Option<Seen<'a, L>>
    ensures { seen_of result ≡ option_map_or a_leaf (leaf_of (item_at at.entry.block.now at.entry.offset)) no_value }
{
    match leaf_at(at) {
        Some(leaf) => Some(Seen::Leaf(leaf)),
        None => None,
    }
}

// The parts of a struct by its type.
fn struct_parts<'a, L>(ty: &'a Ty, at: PtrConst<'a, L>) -> Parts<'a, L>
    ensures { places_of result ≡ parts_behind at.entry (body_under (bodies kind.Struct ty.now) 0) }
{
    match ty {
        Ty::User(UserType::Struct(struct_type)) => {
            Parts::Fields(struct_type.fields.as_slice(), at)
        }
        _ => Parts::None,
    }
}

// The parts of an array by its definition.
fn array_parts<'a, L: Leaf>(shapes: &Shapes<L>, def: &Def, at: PtrConst<'a, L>) -> Parts<'a, L>
    ensures { places_of result ≡ parts_behind at.entry (elements_in_a_row (all_shapes shapes.now) def.now) }
{
    match def {
        Def::Array(array) => Parts::Row {
            shape: array.t,
            count: array.n,
            size: shapes.part_layout(array.t).size,
            at,
        },
        _ => Parts::None,
    }
}
