ghost use Rattle.std.specs.Prelude.{◌≡◌};
ghost use Rattle.facet_shape.specs.Capability.{can, has_operation};

use crate::shape::Shape;
use facet_base::Characteristic;

impl Shape {
    /// Whether its values can do that.
    pub fn is(&self, c: Characteristic) -> bool
        ensures { result ≡ can self.now c }
    {
        match c {
            Characteristic::Clone => self
                .type_ops
                .is_some_and(|operations| operations.has_clone_into()),
            Characteristic::Display => self.vtable.has_display(),
            Characteristic::Debug => self.vtable.has_debug(),
            Characteristic::PartialEq => self.vtable.has_partial_eq(),
            Characteristic::PartialOrd => self.vtable.has_partial_ord(),
            Characteristic::Ord => self.vtable.has_ord(),
            Characteristic::Hash => self.vtable.has_hash(),
            Characteristic::Default => self
                .type_ops
                .is_some_and(|operations| operations.has_default_in_place()),
            Characteristic::FromStr => self.vtable.has_parse(),
        }
    }

    /// Whether its values can be cloned.
    pub fn is_clone(&self) -> bool
        ensures { result ≡ can self.now Characteristic.Clone }
    {
        self.is(Characteristic::Clone)
    }

    /// Whether its values have a `Display` text.
    pub fn is_display(&self) -> bool
        ensures { result ≡ can self.now Characteristic.Display }
    {
        self.is(Characteristic::Display)
    }

    /// Whether its values have a `Debug` text.
    pub fn is_debug(&self) -> bool
        ensures { result ≡ can self.now Characteristic.Debug }
    {
        self.is(Characteristic::Debug)
    }

    /// Whether its values can be tested for equality.
    pub fn is_partial_eq(&self) -> bool
        ensures { result ≡ can self.now Characteristic.PartialEq }
    {
        self.is(Characteristic::PartialEq)
    }

    /// Whether its values are partially ordered.
    pub fn is_partial_ord(&self) -> bool
        ensures { result ≡ can self.now Characteristic.PartialOrd }
    {
        self.is(Characteristic::PartialOrd)
    }

    /// Whether its values are totally ordered.
    pub fn is_ord(&self) -> bool
        ensures { result ≡ can self.now Characteristic.Ord }
    {
        self.is(Characteristic::Ord)
    }

    /// Whether its values can be hashed.
    pub fn is_hash(&self) -> bool
        ensures { result ≡ can self.now Characteristic.Hash }
    {
        self.is(Characteristic::Hash)
    }

    /// Whether it has a default value.
    pub fn is_default(&self) -> bool
        ensures { result ≡ can self.now Characteristic.Default }
    {
        self.is(Characteristic::Default)
    }

    /// Whether its values can be read from a text.
    pub fn is_from_str(&self) -> bool
        ensures { result ≡ can self.now Characteristic.FromStr }
    {
        self.is(Characteristic::FromStr)
    }

    /// Whether it can be asked if a value counts as true.
    pub fn truthiness_fn(&self) -> bool
        ensures { result ≡ has_operation (λ o. o.is_truthy) self.now }
    {
        self.type_ops
            .is_some_and(|operations| operations.truthiness_fn())
    }
}
