ghost use Rattle.std.specs.Prelude.{◌≡◌, [], ◌++◌, length, map, OnOk};
ghost use Rattle.facet_causes.specs.Reading.{before_at, before_of, indices, inline_at, inline_of, lacks_order, name_children_of, named_at, own_name_bytes_of, parts_at, parts_of, repeated_at, repetition_of};
ghost use Rattle.facet_causes.specs.TooLarge.{each_counts};
ghost use Rattle.facet_graph.specs.declared.graph.WeightedEdge.{WeightedEdge};

use crate::reading::{element_of, has_order};
use crate::shape_list::ShapeList;
use facet_base::ShapeId;
use facet_graph::{Graph, Search, WeightedEdge, WeightedGraph};
use facet_outline::{push_height_references, push_inline_parts, push_parts, repetition};
use facet_type_name::{own_name_bytes, push_name_children};
use std::alloc::{AllocError, Global};

/// The shapes, with edges to the parts that lie inside their values, once or each as often as it is there.
#[derive(Drop)]
pub struct InlineParts<'a> {
    pub alloc: Global,
    pub shapes: &'a ShapeList,
}

impl<'a> Graph for InlineParts<'a> {
    ghost count = { λ graph. length graph.shapes.now };

    ghost edges = { λ graph. inline_at graph.shapes.now };

    fn len(&self) -> usize {
        self.shapes.len()
    }

    fn push_edges(&self, node: usize, to: &mut Vec<usize>) -> Result<(), AllocError> {
        let mut ids = Vec::new(self.alloc);
        push_inline(self.shapes, node, &mut ids)?;
        push_indices(&ids, to)
    }
}

impl<'a> WeightedGraph for InlineParts<'a> {
    ghost count = { λ graph. length graph.shapes.now };

    ghost weighted = { λ graph. repeated_at graph.shapes.now };

    ghost own = { λ graph. each_counts };

    fn len(&self) -> usize {
        self.shapes.len()
    }

    fn own_cost(&self, _node: usize) -> usize {
        1
    }

    fn push_weighted_edges(
        &self,
        node: usize,
        to: &mut Vec<WeightedEdge>,
    ) -> Result<(), AllocError> {
        let mut ids = Vec::new(self.alloc);
        push_inline(self.shapes, node, &mut ids)?;
        push_weighted(&ids, repetition_at(self.shapes, node), to)
    }
}

/// The shapes, with edges to the parts of their values. Those whose values have no order are bad.
#[derive(Drop)]
pub struct Parts<'a> {
    pub alloc: Global,
    pub shapes: &'a ShapeList,
}

impl<'a> Graph for Parts<'a> {
    ghost count = { λ graph. length graph.shapes.now };

    ghost edges = { λ graph. parts_at graph.shapes.now };

    fn len(&self) -> usize {
        self.shapes.len()
    }

    fn push_edges(&self, node: usize, to: &mut Vec<usize>) -> Result<(), AllocError> {
        let mut ids = Vec::new(self.alloc);
        push_parts_at(self.shapes, node, &mut ids)?;
        push_indices(&ids, to)
    }
}

impl<'a> Search for Parts<'a> {
    ghost bad = { λ graph. lacks_order graph.shapes.now };

    fn is_bad(&self, node: usize) -> bool {
        lacks_order(self.shapes, node)
    }
}

/// The shapes, with edges to those that must stand before them for another reason than their variance.
#[derive(Drop)]
pub struct Before<'a> {
    pub alloc: Global,
    pub shapes: &'a ShapeList,
}

impl<'a> Graph for Before<'a> {
    ghost count = { λ graph. length graph.shapes.now };

    ghost edges = { λ graph. before_at graph.shapes.now };

    fn len(&self) -> usize {
        self.shapes.len()
    }

    fn push_edges(&self, node: usize, to: &mut Vec<usize>) -> Result<(), AllocError> {
        let mut ids = Vec::new(self.alloc);
        push_before(self.shapes, node, &mut ids)?;
        push_indices(&ids, to)
    }
}

/// The shapes, with edges to the children of their names. What else must stand before a shape has the weight 0, so that
/// heights are those of `Before`.
#[derive(Drop)]
pub struct Names<'a> {
    pub alloc: Global,
    pub shapes: &'a ShapeList,
}

impl<'a> WeightedGraph for Names<'a> {
    ghost count = { λ graph. length graph.shapes.now };

    ghost weighted = { λ graph. named_at graph.shapes.now };

    ghost own = { λ graph. own_name_bytes_of graph.shapes.now };

    fn len(&self) -> usize {
        self.shapes.len()
    }

    fn own_cost(&self, node: usize) -> usize {
        own_name_bytes_at(self.shapes, node)
    }

    fn push_weighted_edges(
        &self,
        node: usize,
        to: &mut Vec<WeightedEdge>,
    ) -> Result<(), AllocError> {
        let mut children = Vec::new(self.alloc);
        push_children(self.shapes, node, &mut children)?;
        push_weighted(&children, 1, to)?;
        let mut before = Vec::new(self.alloc);
        push_before(self.shapes, node, &mut before)?;
        push_weighted(&before, 0, to)
    }
}

// Adds the ids as indices.
fn push_indices(ids: &[ShapeId], to: &mut Vec<usize>) -> Result<(), AllocError>
    ensures { OnOk result (to.new.items ≡ to.old.items ++ indices ids.now) }
{
    for id in ids {
        to.push(id.0 as usize)?;
    }
    Ok(())
}

// Adds the parts that lie inside the values of the shape under an id.
fn push_inline(shapes: &ShapeList, s: usize, to: &mut Vec<ShapeId>) -> Result<(), AllocError>
    ensures { OnOk result (to.new.items ≡ to.old.items ++ inline_of shapes.now s) }
{
    match shapes.get(s) {
        Some(shape) => push_inline_parts(shape, element_of(shapes, &shape.def), to),
        None => Ok(()),
    }
}

// Adds the parts of the values of the shape under an id.
fn push_parts_at(shapes: &ShapeList, s: usize, to: &mut Vec<ShapeId>) -> Result<(), AllocError>
    ensures { OnOk result (to.new.items ≡ to.old.items ++ parts_of shapes.now s) }
{
    match shapes.get(s) {
        Some(shape) => push_parts(shape, element_of(shapes, &shape.def), to),
        None => Ok(()),
    }
}

// Adds what must stand before the shape under an id.
fn push_before(shapes: &ShapeList, s: usize, to: &mut Vec<ShapeId>) -> Result<(), AllocError>
    ensures { OnOk result (to.new.items ≡ to.old.items ++ before_of shapes.now s) }
{
    match shapes.get(s) {
        Some(shape) => push_height_references(shape, to),
        None => Ok(()),
    }
}

// Adds the shapes whose names the full name of the shape under an id has.
fn push_children(shapes: &ShapeList, s: usize, to: &mut Vec<ShapeId>) -> Result<(), AllocError>
    ensures { OnOk result (to.new.items ≡ to.old.items ++ name_children_of shapes.now s) }
{
    match shapes.get(s) {
        Some(shape) => push_name_children(shape, to),
        None => Ok(()),
    }
}

// How many bytes of the full name of the shape under an id aren't those of a child.
fn own_name_bytes_at(shapes: &ShapeList, s: usize) -> usize
    ensures { result ≡ own_name_bytes_of shapes.now s }
{
    match shapes.get(s) {
        Some(shape) => own_name_bytes(shape),
        None => 0,
    }
}

// How often each inline part of the shape under an id is there.
fn repetition_at(shapes: &ShapeList, s: usize) -> usize
    ensures { result ≡ repetition_of shapes.now s }
{
    match shapes.get(s) {
        Some(shape) => repetition(&shape.def),
        None => 1,
    }
}

// Adds an edge of that weight to each shape.
fn push_weighted(
    ids: &[ShapeId],
    weight: usize,
    to: &mut Vec<WeightedEdge>,
) -> Result<(), AllocError>
    ensures { OnOk result (to.new.items ≡ to.old.items ++ map (λ id. record { node = id.0; weight = weight }) ids.now) }
{
    for id in ids {
        to.push(WeightedEdge {
            node: id.0 as usize,
            weight,
        })?;
    }
    Ok(())
}

// Whether there is no order of the values of the shape under an id.
fn lacks_order(shapes: &ShapeList, s: usize) -> bool
    ensures { result ≡ lacks_order shapes.now s }
{
    match shapes.get(s) {
        Some(shape) => !has_order(shapes, shape),
        None => true,
    }
}
