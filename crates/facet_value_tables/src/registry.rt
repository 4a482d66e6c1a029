ghost use Rattle.std.specs.Bool.{OnTrue};
ghost use Rattle.facet_declare.specs.Outcome.{HasPartsOfTuple};

use crate::question::answer;
use facet_declaration::Decl;
use facet_declare::declare;
use facet_grammar::{Command, read_command};
use facet_leaf::{Leaf, Scalar};
use facet_registry::{SealFault, Shapes};
use facet_test_leaves::OddlyOrdered;
use std::alloc::{AllocError, Global};

/// How many shapes a table has at most.
const MOST_SHAPES: usize = 10_000;

/// The shapes of a table, with one of two leaf types.
#[derive(Drop)]
pub enum Registry {
    Scalars(Shapes<Scalar>),
    OddlyOrdered(Shapes<OddlyOrdered>),
}

impl Registry {
    /// The sixteen scalars alone, of the leaf type `scalar` or `oddly ordered`.
    pub fn new(alloc: Global, leaf: &str) -> Result<Option<Registry>, AllocError> {
        match leaf {
            "scalar" => Ok(Some(Registry::Scalars(Shapes::prelude(alloc)?))),
            "oddly ordered" => Ok(Some(Registry::OddlyOrdered(Shapes::prelude(alloc)?))),
            _ => Ok(None),
        }
    }

    /// Carries out a line that declares or seals shapes. False where it is none, or is refused. Nothing changes out of
    /// memory.
    pub fn describe(&mut self, alloc: Global, line: &str) -> Result<bool, AllocError> {
        match self {
            Registry::Scalars(shapes) => describe(alloc, shapes, line),
            Registry::OddlyOrdered(shapes) => describe(alloc, shapes, line),
        }
    }

    /// The answer to a question.
    pub fn answer(&self, alloc: Global, question: &str) -> Result<Vec<u8>, AllocError> {
        match self {
            Registry::Scalars(shapes) => answer(alloc, shapes, question),
            Registry::OddlyOrdered(shapes) => answer(alloc, shapes, question),
        }
    }
}

// Carries out a line that declares or seals shapes.
fn describe<L: Leaf>(
    alloc: Global,
    shapes: &mut Shapes<L>,
    line: &str,
) -> Result<bool, AllocError> {
    match read_command(alloc, line.as_bytes())? {
        Some(Command::Shape(decl)) => add(alloc, shapes, &decl),
        Some(Command::Seal) => match shapes.seal() {
            Ok(()) => Ok(true),
            Err(SealFault::NoMemory) => Err(AllocError),
            Err(SealFault::Refused(_)) => Ok(false),
        },
        _ => Ok(false),
    }
}

// Drafts the shape of a declaration. False where it is refused.
fn add<L: Leaf>(alloc: Global, shapes: &mut Shapes<L>, decl: &Decl) -> Result<bool, AllocError> {
    if shapes.len() > MOST_SHAPES || !has_parts(decl) {
        return Ok(false);
    }
    Ok(declare(alloc, shapes, decl)?.is_ok())
}

// Whether a tuple has 1 to 12 parts.
fn has_parts(decl: &Decl) -> bool
    ensures { OnTrue result (HasPartsOfTuple decl.now) }
{
    match decl {
        Decl::TupleOf(parts) => !parts.is_empty() && parts.len() <= 12,
        _ => true,
    }
}
