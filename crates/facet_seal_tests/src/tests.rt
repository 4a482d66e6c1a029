mod definition;
mod draft;
mod layouts;
mod mismatches;
mod order;
mod types;

use definition::Definition;
use draft::{Draft, push_draft};
use facet_base::{Layout, ShapeId, ShapeLayout};
use facet_leaf::Scalar;
use facet_makers::slice_of;
use facet_registry::{SealCause, SealFault, Shapes};
use std::alloc::{AllocError, Global};
use std::process::Abort;
use std::test::Fail;
use types::Type;

// What a table expects of `seal`: the cause, and None where the draft is sealed.
type Answer = Option<SealCause>;

const SEALED: Answer = None;

const MISMATCH: Answer = Some(SealCause::Mismatch);

const BAD_LAYOUT: Answer = Some(SealCause::BadLayout);

// A draft, by its definition, its type, its type parameters and its layout, with what `seal` is to say.
type Row<'a> = (Definition, Type<'a>, &'a [u32], ShapeLayout, Answer);

fn sized(size: usize, align: usize) -> ShapeLayout {
    ShapeLayout::Sized(Layout { size, align })
}

// The scalars, the slice #16 of `u32`, and #17, a type of four bytes without values that can be asked.
fn registry(alloc: Global) -> Result<Shapes<Scalar>, AllocError> {
    let mut shapes: Shapes<Scalar> = Shapes::prelude(alloc)?;
    let len = shapes.len();
    if 6 < len && len < 100 {
        slice_of(alloc, &mut shapes, ShapeId(6))?;
    }
    let opaque = Draft::new(Definition::Undefined, Type::Opaque, &[], sized(4, 4));
    push_draft(alloc, &mut shapes, opaque)?;
    Ok(shapes)
}

// What `seal` returns, as the cause and the shape where it is a refusal; the number of shapes and that of sealed ones
// after it.
type Outcome = (Option<(SealCause, u32)>, usize, usize);

fn outcome(shapes: &mut Shapes<Scalar>) -> Result<Outcome, AllocError> {
    let refusal = match shapes.seal() {
        Ok(()) => None,
        Err(SealFault::Refused(error)) => Some((error.cause, error.shape.0)),
        Err(SealFault::NoMemory) => return Err(AllocError),
    };
    Ok((refusal, shapes.len(), shapes.sealed()))
}

// What comes of the draft under the id 18.
fn outcome_of(alloc: Global, draft: Draft) -> Result<Outcome, AllocError> {
    let mut shapes = registry(alloc)?;
    push_draft(alloc, &mut shapes, draft)?;
    outcome(&mut shapes)
}

// What is to come of it: all is sealed, or the draft is named and nothing changed.
fn expected(answer: Answer) -> Outcome {
    match answer {
        None => (None, 19, 19),
        Some(cause) => (Some((cause, 18)), 19, 16),
    }
}

// Seals each row's draft.
fn rows_are_answered(rt: &impl Abort, alloc: Global, rows: &[Row]) -> Result<(), Fail> {
    for (row, (definition, ty, parameters, layout, answer)) in rows.iter().enumerate() {
        let draft = Draft::new(*definition, *ty, *parameters, *layout);
        let outcome = outcome_of(alloc, draft)?;
        assert_eq!(rt; outcome, expected(*answer), "at row {row}");
    }
    Ok(())
}
