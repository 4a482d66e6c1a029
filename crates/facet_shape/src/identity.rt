ghost use Rattle.std.specs.Prelude.{◌≡◌, ◌==◌, None, Some, if◌then◌else◌};
ghost use Rattle.std.specs.Result.{result_err};

use crate::errors::ShapeMismatch;
use crate::shape::Shape;
use std::cmp::Ordering;
use std::hash::{Hash, Hasher};

impl Shape {
    /// Whether both are one shape, which is to have one id.
    pub fn is_shape(&self, other: &Shape) -> bool
        ensures { result ≡ (self.now.id.0 == other.now.id.0) }
    {
        self == other
    }

    /// Refused exactly where the ids differ.
    pub fn assert_shape(&self, other: &Shape) -> Result<(), ShapeMismatch>
        ensures { result_err result ≡ (if self.now.id.0 == other.now.id.0 then None else Some (record { left = self.now.id; right = other.now.id })) }
    {
        if self.is_shape(other) {
            Ok(())
        } else {
            Err(ShapeMismatch {
                left: self.id,
                right: other.id,
            })
        }
    }
}

// Shapes are compared and hashed by their ids alone.
impl PartialEq for Shape {
    ghost use Rattle.std.specs.Prelude.{◌==◌};
    ghost use Rattle.std.specs.Ordering.{on};
    ghost use Rattle.std.specs.Cmp.Rules.{comparing};
    ghost use Rattle.std.proofs.Common.{rules};

    ghost eq = { on (λ s. s.id.0) ◌==◌ };

    ghost laws = { Prim.search (comparing, rules) };

    fn eq(&self, other: &Shape) -> bool {
        self.id == other.id
    }
}

impl Eq for Shape {
    ghost use Rattle.std.specs.Cmp.Rules.{comparing};
    ghost use Rattle.std.proofs.Common.{rules};

    ghost laws = { Prim.search (comparing, rules) };
}

impl PartialOrd for Shape {
    ghost use Rattle.std.specs.Cmp.{partial_order_from_own_ties};
    ghost use Rattle.std.specs.Cmp.Rules.{comparing};
    ghost use Rattle.std.specs.Ordering.{nat_cmp, on, as_partial_cmp};
    ghost use Rattle.std.proofs.Common.{rules};

    ghost partial_cmp = { as_partial_cmp (on (λ s. s.id.0) nat_cmp) };

    ghost laws = { partial_order_from_own_ties (Prim.search (comparing, rules)) (Prim.search (comparing, rules)) };

    fn partial_cmp(&self, other: &Shape) -> Option<Ordering> {
        Some(self.cmp(other))
    }
}

impl Ord for Shape {
    ghost use Rattle.std.specs.Cmp.Rules.{comparing};
    ghost use Rattle.std.specs.Ordering.{nat_cmp, on};
    ghost use Rattle.std.proofs.Common.{rules};

    ghost cmp = { on (λ s. s.id.0) nat_cmp };

    ghost total = { Prim.search (comparing, rules) };

    ghost matches_partial_cmp = { Prim.search (comparing, rules) };

    ghost matches_eq = { Prim.search (comparing, rules) };

    fn cmp(&self, other: &Shape) -> Ordering {
        self.id.cmp(&other.id)
    }
}

impl Hash for Shape {
    ghost use Rattle.std.specs.Cmp.Rules.{comparing, hashing};
    ghost use Rattle.std.specs.Hash as fed;
    ghost use Rattle.std.proofs.Common.{rules};

    ghost hash_input = { λ s. fed.u32 s.id.0 };

    ghost respects_eq = { Prim.search (hashing, rules) };

    fn hash<H: Hasher>(&self, state: &mut H) {
        self.id.hash(state);
    }
}
