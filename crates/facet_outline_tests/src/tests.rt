mod causes;
mod draft;
mod names;
mod parts;
mod references;

use draft::{Definition, Draft, EMPTY, Form, Type, shape};
use facet_base::{Layout, ShapeId, ShapeLayout};
use facet_outline::LayoutLookup;
use facet_shape::Shape;
use std::alloc::{AllocError, Global};

// What is asked of a shape.
#[derive(Clone, Copy)]
enum Question {
    References,
    // Where it points to a slice, with the shape of that slice's elements.
    Parts(Option<ShapeId>),
    Variants,
    Name,
    Causes,
}

// What is read off it. Of a list of shapes it is how many there are, and the ids of the first two, or 0.
#[derive(Clone, Copy, PartialEq, Eq)]
enum Answer {
    // It isn't built.
    Nothing,
    // Whether the references, the eager ones and those that the height counts are as many shapes, from #1 on.
    References([bool; 3]),
    // How many parts lie inside a value, and all its parts.
    Parts(usize, (usize, [u32; 2])),
    // How many fields an enum has, and its second variant; the offset of that variant's last span; the last
    // discriminant.
    Variants(usize, usize, usize, i64),
    // How many bytes of the name are its own, and the children.
    Name(usize, (usize, [u32; 2])),
    // Whether it meets Mismatch, UnsizedPart, BadLayout, CapabilityMissing; FieldOutside, FieldMisaligned;
    // DiscriminantRange.
    Causes([bool; 4], [bool; 2], bool),
}

fn answer_of(alloc: Global, shape: &Shape, question: Question) -> Result<Answer, AllocError> {
    match question {
        Question::References => references::references(alloc, shape),
        Question::Parts(element) => parts::parts(alloc, shape, element),
        Question::Variants => parts::variants(alloc, &shape.ty),
        Question::Name => names::name(alloc, shape),
        Question::Causes => causes::causes(alloc, shape),
    }
}

// The answer for the shape of a draft.
fn ask(alloc: Global, draft: Draft, question: Question) -> Result<Answer, AllocError> {
    match shape(alloc, draft)? {
        Some(shape) => answer_of(alloc, &shape, question),
        None => Ok(Answer::Nothing),
    }
}

// Every shape has four bytes.
struct FourBytes;

impl LayoutLookup for FourBytes {
    ghost use Rattle.facet_base.specs.declared.layout.ShapeLayout.TheVariants as layout;

    ghost layout_at = { λ _ _. layout.Sized (record { size = 4; align = 4 }) };

    fn layout_of(&self, _id: ShapeId) -> ShapeLayout {
        ShapeLayout::Sized(Layout { size: 4, align: 4 })
    }
}

// Whether the ids are these.
fn are(ids: &[ShapeId], expected: &[u32]) -> bool {
    if ids.len() != expected.len() {
        return false;
    }
    for (i, id) in ids.iter().enumerate() {
        if id.0 != expected[i] {
            return false;
        }
    }
    true
}

// How many ids there are, and the first two of them, or 0.
fn first_two(ids: &[ShapeId]) -> (usize, [u32; 2]) {
    let mut first = [0; 2];
    for (i, id) in ids.iter().enumerate() {
        if i < 2 {
            first[i] = id.0;
        }
    }
    (ids.len(), first)
}
