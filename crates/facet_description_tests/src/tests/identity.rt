use super::push;
use facet_base::{ShapeId, Text};
use facet_leaf::Scalar;
use facet_registry::Shapes;
use facet_shape::Shape;
use std::alloc::{AllocError, Global};
use std::cmp::Ordering;
use std::hash::{DefaultHasher, Hash, Hasher};
use std::test::Fail;

fn hash_of<T: Hash>(value: &T) -> u64 {
    let mut state = DefaultHasher::new();
    value.hash(&mut state);
    state.finish()
}

fn is_below<T: PartialOrd>(first: &T, second: &T) -> bool {
    first < second
}

fn order_of<T: Ord>(first: &T, second: &T) -> Ordering {
    first.cmp(second)
}

// Whether two shapes are one by each of two questions, are equal and hash alike; whether the first is below the
// second; and how they are ordered.
type Comparison = ([bool; 4], bool, Ordering);

fn compared(first: &Shape, second: &Shape) -> Comparison {
    let alike = [
        first.is_shape(second),
        first.assert_shape(second).is_ok(),
        first == second,
        hash_of(first) == hash_of(second),
    ];
    (alike, is_below(first, second), order_of(first, second))
}

fn compared_where_there(first: Option<&Shape>, second: Option<&Shape>) -> Option<Comparison> {
    Some(compared(first?, second?))
}

// Adds a shape of this identifier and nothing else to a registry.
fn add(shapes: &mut Shapes<Scalar>, alloc: Global, identifier: &str) -> Result<(), AllocError> {
    let identifier = Text::new(alloc, identifier)?;
    push(shapes, Shape::builder_for_unsized(alloc, identifier));
    Ok(())
}

// How two shapes compare that are alike but for their ids.
fn of_two_ids(alloc: Global) -> Result<Option<Comparison>, AllocError> {
    let mut shapes = Shapes::prelude(alloc)?;
    add(&mut shapes, alloc, "A")?;
    add(&mut shapes, alloc, "A")?;
    Ok(compared_where_there(shapes.get(ShapeId(16)), shapes.get(ShapeId(17))))
}

// How two shapes of different identifiers compare that have one id, in two registries.
fn of_one_id(alloc: Global) -> Result<Option<Comparison>, AllocError> {
    let mut shapes = Shapes::prelude(alloc)?;
    add(&mut shapes, alloc, "A")?;
    let mut others = Shapes::prelude(alloc)?;
    add(&mut others, alloc, "B")?;
    Ok(compared_where_there(shapes.get(ShapeId(16)), others.get(ShapeId(16))))
}

#[test]
fn shapes_are_told_apart_by_their_ids_alone(rt: HostRuntime) -> Result<(), Fail> {
    let equal = ([true; 4], false, Ordering::Equal);
    assert!(rt; of_one_id(rt.alloc())? == Some(equal));
    let below = ([false; 4], true, Ordering::Less);
    assert!(rt; of_two_ids(rt.alloc())? == Some(below));
    Ok(())
}
