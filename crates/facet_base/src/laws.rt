//! Facts about flag sets, variances and scalar kinds: each is the contract of a function.

ghost use Rattle.std.specs.Prelude.{◌≡◌, ◌↔◌, ◌<◌, ◌^◌, IsTrue};
ghost use Rattle.std.specs.Ordering.{nat_cmp};
ghost use Rattle.facet_base.specs.Flags.{IsPart, IsUnion, IsIntersection, IsDifference};
ghost use Rattle.facet_base.specs.Fnv.{fnv_start};
ghost use Rattle.facet_base.specs.ScalarType.{rank_of};
ghost use Rattle.facet_base.specs.Variance.{join, flipped, IsAtOrBelow};
ghost use Rattle.facet_base.specs.declared.variance.Variance.{Variance};
ghost use Rattle.facet_base.specs.declared.variance.Variance.TheVariants.{Bivariant, Covariant, Contravariant, Invariant};
ghost use Rattle.facet_base.specs.declared.variance.TheConstants.Variance.{BIVARIANT, COVARIANT, CONTRAVARIANT, INVARIANT};

use crate::fnv::FNV_START;
use crate::scalar_type::ScalarType;
use crate::variance_desc::MAX_VARIANCE_DEPTH;
use bitflags::Flags;
use std::cmp::Ordering;

/// Each constant of `Variance` is the variant of its name, and the two other constants have their values.
pub fn constants_have_their_values()
    ensures bivariant { BIVARIANT ≡ Bivariant }
    ensures covariant { COVARIANT ≡ Covariant }
    ensures contravariant { CONTRAVARIANT ≡ Contravariant }
    ensures invariant { INVARIANT ≡ Invariant }
    ensures max_variance_depth { MAX_VARIANCE_DEPTH ≡ 32 }
    ensures fnv_start { FNV_START ≡ fnv_start }
{}

/// Scalar kinds are ordered as they are declared.
pub fn scalar_kinds_are_ordered(first: ScalarType, second: ScalarType) -> Ordering
    ensures { result ≡ nat_cmp (rank_of first) (rank_of second) }
{
    first.cmp(&second)
}

/// What `combine` returns is the least variance at or above both.
pub fn join_is_least()
    ensures first { (a b : Variance) → IsAtOrBelow a (join a b) }
    ensures second { (a b : Variance) → IsAtOrBelow b (join a b) }
    ensures least { (a b v : Variance) → IsAtOrBelow a v → IsAtOrBelow b v → IsAtOrBelow (join a b) v }
{}

/// `combine` is commutative, associative and idempotent; `Bivariant` is neutral, and `Invariant` absorbs.
pub fn join_laws()
    ensures commutative { (a b : Variance) → join a b ≡ join b a }
    ensures associative { (a b c : Variance) → join (join a b) c ≡ join a (join b c) }
    ensures idempotent { (a : Variance) → join a a ≡ a }
    ensures neutral { (a : Variance) → join a Bivariant ≡ a }
    ensures absorbing { (a : Variance) → join a Invariant ≡ Invariant }
{}

/// `flip` is its own inverse, and goes through `combine`.
pub fn flip_laws()
    ensures own_inverse { (a : Variance) → flipped (flipped a) ≡ a }
    ensures of_join { (a b : Variance) → flipped (join a b) ≡ join (flipped a) (flipped b) }
{}

/// `contains` returns whether each bit of `other` is one of the set.
pub fn contains_by_bits<F: Flags>(set: &F, other: F) -> bool
    requires { F.exact }
    ensures { IsTrue result ↔ IsPart (F.set_of other) (F.set_of set.now) }
{
    set.contains(other)
}

/// After `insert` the set has its bits and those of `other`.
pub fn insert_by_bits<F: Flags>(set: &mut F, other: F)
    requires { F.exact }
    ensures { IsUnion (F.set_of set.old) (F.set_of other) (F.set_of set.new) }
{
    set.insert(other);
}

/// After `remove` the set has those of its bits that `other` hasn't. The premises hold of every set whose
/// bits are a value of the type `F::Bits`.
pub fn remove_by_bits<F: Flags>(set: &mut F, other: F)
    requires { F.exact }
    ensures { F.set_of set.old < 2 ^ F.Bits.size → F.set_of other < 2 ^ F.Bits.size →
        IsDifference (F.set_of set.old) (F.set_of other) (F.set_of set.new) }
{
    set.remove(other);
}

/// `union` has the bits of either.
pub fn union_by_bits<F: Flags>(set: F, other: F) -> F
    requires { F.exact }
    ensures { IsUnion (F.set_of set) (F.set_of other) (F.set_of result) }
{
    set.union(other)
}

/// `intersection` has the bits of both.
pub fn intersection_by_bits<F: Flags>(set: F, other: F) -> F
    requires { F.exact }
    ensures { IsIntersection (F.set_of set) (F.set_of other) (F.set_of result) }
{
    set.intersection(other)
}

/// The set that is made of the bits of a set has these bits.
pub fn set_of_its_bits<F: Flags>(set: F) -> F
    requires { F.exact }
    ensures { F.set_of result ≡ F.set_of set }
{
    F::from_bits_retain(set.bits())
}

/// The bits of the set that is made of some bits are these bits, known or not.
pub fn bits_of_their_set<F: Flags>(bits: F::Bits) -> F::Bits
    requires { F.exact }
    ensures { F.Bits.pattern result ≡ F.Bits.pattern bits }
{
    F::from_bits_retain(bits).bits()
}
