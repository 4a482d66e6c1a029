ghost use Rattle.std.specs.Prelude.{◌≡◌};
ghost use Rattle.facet_base.specs.Variance.{shrinks, grows, join, flipped};

/// How the lifetimes in a type may change: under `Bivariant` they may shrink and grow, under `Covariant` shrink
/// alone, under `Contravariant` grow alone, and under `Invariant` neither.
#[derive(Clone, Copy, PartialEq, Eq, Hash, Debug, Default)]
pub enum Variance {
    Bivariant,
    Covariant,
    Contravariant,
    #[default]
    Invariant,
}

impl Variance {
    pub const BIVARIANT: Variance = Variance::Bivariant;

    pub const COVARIANT: Variance = Variance::Covariant;

    pub const CONTRAVARIANT: Variance = Variance::Contravariant;

    pub const INVARIANT: Variance = Variance::Invariant;

    /// The join of two variances, that of a type which has parts of both.
    pub fn combine(self, other: Variance) -> Variance
        ensures { result ≡ join self other }
    {
        match (self, other) {
            (Variance::Bivariant, v) | (v, Variance::Bivariant) => v,
            (Variance::Covariant, Variance::Covariant) => Variance::Covariant,
            (Variance::Contravariant, Variance::Contravariant) => Variance::Contravariant,
            _ => Variance::Invariant,
        }
    }

    /// The variance with `Covariant` and `Contravariant` exchanged, that of a function of arguments of the type.
    pub fn flip(self) -> Variance
        ensures { result ≡ flipped self }
    {
        match self {
            Variance::Covariant => Variance::Contravariant,
            Variance::Contravariant => Variance::Covariant,
            v => v,
        }
    }

    /// Whether lifetimes may shrink.
    pub fn can_shrink(self) -> bool
        ensures { result ≡ shrinks self }
    {
        matches!(self, Variance::Bivariant | Variance::Covariant)
    }

    /// Whether lifetimes may grow.
    pub fn can_grow(self) -> bool
        ensures { result ≡ grows self }
    {
        matches!(self, Variance::Bivariant | Variance::Contravariant)
    }
}
