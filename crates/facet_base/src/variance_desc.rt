ghost use Rattle.std.specs.Prelude.{◌≡◌, []};

use crate::layout::ShapeId;
use crate::many::Many;
use crate::variance::Variance;
use std::alloc::Global;

/// How many shapes deep the original crate follows dependencies. A computed variance has no such bound here.
pub const MAX_VARIANCE_DEPTH: usize = 32;

/// What becomes of the variance of a shape where another depends on it: in covariant position it stays, in
/// contravariant position it is flipped, and in invariant position it is `Invariant` unless it is `Bivariant`.
#[derive(Clone, Copy, PartialEq, Eq, Hash, Debug)]
pub enum VariancePosition {
    Covariant,
    Contravariant,
    Invariant,
}

/// A shape on which a variance depends, and its position.
#[derive(Clone, Copy)]
pub struct VarianceDep {
    pub position: VariancePosition,
    pub shape: ShapeId,
}

impl VarianceDep {
    /// A shape in covariant position.
    pub fn covariant(shape: ShapeId) -> VarianceDep
        ensures { result ≡ record { position = VariancePosition.Covariant; shape = shape } }
    {
        VarianceDep {
            position: VariancePosition::Covariant,
            shape,
        }
    }

    /// A shape in contravariant position.
    pub fn contravariant(shape: ShapeId) -> VarianceDep
        ensures { result ≡ record { position = VariancePosition.Contravariant; shape = shape } }
    {
        VarianceDep {
            position: VariancePosition::Contravariant,
            shape,
        }
    }

    /// A shape in invariant position.
    pub fn invariant(shape: ShapeId) -> VarianceDep
        ensures { result ≡ record { position = VariancePosition.Invariant; shape = shape } }
    {
        VarianceDep {
            position: VariancePosition::Invariant,
            shape,
        }
    }
}

/// The variance of a type: one of its own, joined with those that follow from the shapes that it depends on.
#[derive(Drop)]
pub struct VarianceDesc {
    pub base: Variance,
    pub deps: Many<VarianceDep>,
}

impl VarianceDesc {
    /// The description with these members.
    pub fn new(base: Variance, deps: Many<VarianceDep>) -> VarianceDesc
        ensures { result ≡ record { base = base; deps = deps } }
    {
        VarianceDesc { base, deps }
    }

    /// `Bivariant`, whatever other shapes are.
    pub fn bivariant(alloc: Global) -> VarianceDesc
        ensures base { result.base ≡ Variance.Bivariant }
        ensures deps { result.deps.items ≡ [] }
    {
        VarianceDesc::new(Variance::Bivariant, Many::new(alloc))
    }

    /// `Invariant`, whatever other shapes are.
    pub fn invariant(alloc: Global) -> VarianceDesc
        ensures base { result.base ≡ Variance.Invariant }
        ensures deps { result.deps.items ≡ [] }
    {
        VarianceDesc::new(Variance::Invariant, Many::new(alloc))
    }
}
