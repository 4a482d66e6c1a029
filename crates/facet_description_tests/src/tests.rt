mod attributes;
mod capabilities;
mod declarations;
mod definitions;
mod fields;
mod identity;
mod memory;
mod proxies;
mod questions;
mod registry;
mod shapes;
mod types;
mod variants;

use facet_base::{HookId, Layout, Many, ShapeId, Text};
use facet_desc::{Attr, AttrData, Field, FieldBuilder, ProxyDef, Variant, VariantBuilder};
use facet_leaf::Scalar;
use facet_registry::Shapes;
use facet_shape::{Shape, ShapeBuilder};
use std::alloc::{AllocError, Global};

// An attribute that holds a number.
fn attribute(alloc: Global, ns: Option<&str>, key: &str, number: i128) -> Result<Attr, AllocError> {
    let ns = match ns {
        Some(ns) => Some(Text::new(alloc, ns)?),
        None => None,
    };
    Ok(Attr::new(ns, Text::new(alloc, key)?, AttrData::Int(number)))
}

fn list_of_one<T: Drop>(alloc: Global, item: T) -> Result<Many<T>, AllocError> {
    let mut items = Many::new(alloc);
    items.push(item)?;
    Ok(items)
}

fn one_attribute(alloc: Global, ns: Option<&str>, key: &str) -> Result<Many<Attr>, AllocError> {
    list_of_one(alloc, attribute(alloc, ns, key, 0)?)
}

fn field_with(alloc: Global, attributes: Many<Attr>) -> Result<Field, AllocError> {
    let name = Text::new(alloc, "a")?;
    Ok(
        FieldBuilder::new(alloc, name, ShapeId(6), 8)
            .attributes(attributes)
            .build(),
    )
}

fn variant_with(alloc: Global, attributes: Many<Attr>) -> Result<Variant, AllocError> {
    let name = Text::new(alloc, "A")?;
    Ok(
        VariantBuilder::unit(alloc, name)
            .attributes(attributes)
            .build(),
    )
}

// The proxy of a shape.
fn proxy(shape: u32) -> ProxyDef {
    ProxyDef {
        shape: ShapeId(shape),
        convert_in: HookId(10),
        convert_out: HookId(11),
    }
}

// One attribute, and one line of description.
fn lists(alloc: Global) -> Result<(Many<Attr>, Many<Text>), AllocError> {
    let attributes = one_attribute(alloc, None, "k")?;
    let doc = list_of_one(alloc, Text::new(alloc, " A line.")?)?;
    Ok((attributes, doc))
}

// False everywhere but at these indices, of which 9 is none.
fn true_at(first: usize, second: usize) -> [bool; 9] {
    let mut expected = [false; 9];
    if first < 9 {
        expected[first] = true;
    }
    if second < 9 {
        expected[second] = true;
    }
    expected
}

// The shape of a type of eight bytes, with nothing else set.
fn begin(alloc: Global, identifier: Text) -> ShapeBuilder {
    Shape::builder_for_sized(alloc, identifier, Layout { size: 8, align: 8 })
}

// The id under which a shape is added, where it is one and there is memory.
fn push(shapes: &mut Shapes<Scalar>, builder: ShapeBuilder) -> Option<u32> {
    if shapes.len() >= 100 {
        return None;
    }
    let Ok(shape) = builder.build() else {
        return None;
    };
    match shapes.push(shape) {
        Ok(id) => Some(id.0),
        Err(_) => None,
    }
}
