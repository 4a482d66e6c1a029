ghost use Rattle.std.specs.Prelude.{◌≡◌, [], ◌∷◌, ◌++◌, ◌≤◌, length, option_map, slice_get, take, OnOk, OnErr};
ghost use Rattle.std.specs.Option.{option_copied};
ghost use Rattle.facet_shape.specs.WithoutSpare.{shape_without_spare};

use facet_shape::Shape;
use std::alloc::{AllocError, Global};
use std::marker::Model;

/// Shapes, in order. Contracts see what each describes, with each list by its items.
#[derive(Drop)]
pub struct ShapeList {
    shapes: Vec<Shape>,
}

impl Model for ShapeList {
    ghost use Rattle.std.specs.Prelude.{List, map};
    ghost use Rattle.facet_shape.specs.declared.shape.Shape.{Shape};
    ghost use Rattle.facet_shape.specs.WithoutSpare.{shape_without_spare};

    ghost Value = { List Shape };

    ghost view = { λ list. map shape_without_spare list.shapes.items };
}

impl ShapeList {
    /// No shape.
    pub fn new(alloc: Global) -> ShapeList
        ensures { result ≡ [] }
    {
        ShapeList {
            shapes: Vec::new(alloc),
        }
    }

    /// The number of shapes.
    pub fn len(&self) -> usize
        ensures { result ≡ length self.now }
    {
        self.shapes.len()
    }

    /// Where its memory comes from.
    pub fn allocator(&self) -> Global {
        *self.shapes.allocator()
    }

    /// The shape at index `i`, and none exactly at or above the length.
    pub fn get(&self, i: usize) -> Option<&Shape>
        ensures { option_map shape_without_spare (option_copied result) ≡ slice_get self.now i }
    {
        self.shapes.get(i)
    }

    /// Adds a shape at the end. A refusal drops it.
    pub fn push(&mut self, shape: Shape) -> Result<(), AllocError>
        ensures ok { OnOk result (self.new ≡ self.old ++ shape_without_spare shape ∷ []) }
        ensures err { OnErr result (self.new ≡ self.old) }
    {
        self.shapes.push(shape)?;
        Ok(())
    }

    /// Drops the shapes from index `n` on.
    pub fn truncate(&mut self, n: usize)
        requires { n ≤ length self.old }
        ensures { self.new ≡ take n self.old }
    {
        self.shapes.truncate(n);
    }
}
