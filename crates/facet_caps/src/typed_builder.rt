ghost use Rattle.std.specs.Prelude.{◌≡◌};

use crate::vtable::VTableDirect;
use std::marker::Model;

/// Builds a `VTableDirect`. Contracts see the record so far.
#[derive(Drop)]
pub struct TypedVTableDirectBuilder {
    vtable: VTableDirect,
}

impl Model for TypedVTableDirectBuilder {
    ghost use Rattle.facet_caps.specs.declared.vtable.VTableDirect.{VTableDirect};

    ghost Value = { VTableDirect };

    ghost view = { λ b. b.vtable };
}

impl TypedVTableDirectBuilder {
    pub(crate) fn new(vtable: VTableDirect) -> Self
        ensures { result ≡ vtable }
    {
        TypedVTableDirectBuilder { vtable }
    }

    /// Sets whether values have a `Display` text.
    pub fn display(mut self, value: bool) -> Self
        ensures { result ≡ record self { display = value } }
    {
        self.vtable.display = value;
        self
    }

    /// Sets whether values have a `Debug` text.
    pub fn debug(mut self, value: bool) -> Self
        ensures { result ≡ record self { debug = value } }
    {
        self.vtable.debug = value;
        self
    }

    /// Sets whether values can be hashed.
    pub fn hash(mut self, value: bool) -> Self
        ensures { result ≡ record self { hash = value } }
    {
        self.vtable.hash = value;
        self
    }

    /// Sets whether the invariants of the type can be tested.
    pub fn invariants(mut self, value: bool) -> Self
        ensures { result ≡ record self { invariants = value } }
    {
        self.vtable.invariants = value;
        self
    }

    /// Sets whether values can be read from a text.
    pub fn parse(mut self, value: bool) -> Self
        ensures { result ≡ record self { parse = value } }
    {
        self.vtable.parse = value;
        self
    }

    /// Sets whether values can be read from bytes.
    pub fn parse_bytes(mut self, value: bool) -> Self
        ensures { result ≡ record self { parse_bytes = value } }
    {
        self.vtable.parse_bytes = value;
        self
    }

    /// Sets whether values of other types can be converted into one.
    pub fn try_from(mut self, value: bool) -> Self
        ensures { result ≡ record self { try_from = value } }
    {
        self.vtable.try_from = value;
        self
    }

    /// Sets whether a value can be turned into the one that it wraps.
    pub fn try_into_inner(mut self, value: bool) -> Self
        ensures { result ≡ record self { try_into_inner = value } }
    {
        self.vtable.try_into_inner = value;
        self
    }

    /// Sets whether the value that one wraps can be borrowed.
    pub fn try_borrow_inner(mut self, value: bool) -> Self
        ensures { result ≡ record self { try_borrow_inner = value } }
    {
        self.vtable.try_borrow_inner = value;
        self
    }

    /// Sets whether values can be tested for equality.
    pub fn partial_eq(mut self, value: bool) -> Self
        ensures { result ≡ record self { partial_eq = value } }
    {
        self.vtable.partial_eq = value;
        self
    }

    /// Sets whether values are partially ordered.
    pub fn partial_cmp(mut self, value: bool) -> Self
        ensures { result ≡ record self { partial_cmp = value } }
    {
        self.vtable.partial_cmp = value;
        self
    }

    /// Sets whether values are totally ordered.
    pub fn cmp(mut self, value: bool) -> Self
        ensures { result ≡ record self { cmp = value } }
    {
        self.vtable.cmp = value;
        self
    }

    /// The same as `display`.
    pub fn display_opt(self, value: bool) -> Self
        ensures { result ≡ record self { display = value } }
    {
        self.display(value)
    }

    /// The same as `debug`.
    pub fn debug_opt(self, value: bool) -> Self
        ensures { result ≡ record self { debug = value } }
    {
        self.debug(value)
    }

    /// The same as `hash`.
    pub fn hash_opt(self, value: bool) -> Self
        ensures { result ≡ record self { hash = value } }
    {
        self.hash(value)
    }

    /// The same as `partial_eq`.
    pub fn partial_eq_opt(self, value: bool) -> Self
        ensures { result ≡ record self { partial_eq = value } }
    {
        self.partial_eq(value)
    }

    /// The same as `partial_cmp`.
    pub fn partial_cmp_opt(self, value: bool) -> Self
        ensures { result ≡ record self { partial_cmp = value } }
    {
        self.partial_cmp(value)
    }

    /// The same as `cmp`.
    pub fn cmp_opt(self, value: bool) -> Self
        ensures { result ≡ record self { cmp = value } }
    {
        self.cmp(value)
    }

    /// The record of the members.
    pub fn build(self) -> VTableDirect
        ensures { result ≡ self }
    {
        self.vtable
    }
}
