ghost use Rattle.std.specs.Prelude.{◌≡◌, ◌↔◌, [], IsTrue, IfOk};
ghost use Rattle.facet_session.specs.Session.{IsNew};

use facet_base::{Many, ShapeId, Text};
use facet_block::{Block, DropLog, Leaf};
use facet_registry::Shapes;
use std::alloc::{AllocError, Global};

/// A named value: a block of the shape's size, in which the value stands at offset 0.
#[derive(Drop)]
pub struct Cell<L> {
    pub name: Text,
    pub shape: ShapeId,
    pub block: Block<L>,
}

/// A registry, the cells in order of creation, and the leaves that the last step dropped.
#[derive(Drop)]
pub struct Session<L: Leaf> {
    pub shapes: Shapes<L>,
    pub cells: Many<Cell<L>>,
    pub log: DropLog<L>,
}

/// What a command answers, without a newline, and how many leaves it made and dropped.
#[derive(Drop)]
pub struct Answer {
    pub text: Text,
    pub made: usize,
    pub dropped: usize,
}

impl<L: Leaf> Session<L> {
    /// The prelude, no cell and an empty log.
    pub fn new(alloc: Global) -> Result<Session<L>, AllocError>
        ensures { IfOk result (IsNew L.model) }
    {
        Ok(Session {
            shapes: Shapes::prelude(alloc)?,
            cells: Many::new(alloc),
            log: DropLog::new(alloc),
        })
    }

    /// Whether it is as `new` returns it.
    pub fn is_new(&self) -> bool
        ensures { IsTrue result ↔ IsNew L.model self.now }
    {
        self.shapes.is_prelude() && self.cells.len() == 0 && self.log.leaves().is_empty()
    }
}
