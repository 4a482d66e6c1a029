ghost use Rattle.std.specs.Prelude.{◌≡◌, Some};
ghost use Rattle.facet_caps.specs.VTableErased.{capabilities_of, erased_text};
ghost use Rattle.facet_caps.specs.declared.vtable_erased.VTableErased.TheVariants.{Direct, Indirect};

use crate::vtable::{VTableDirect, VTableIndirect};
use std::fmt;

/// What can be done with the values of a type, concrete or generic.
#[derive(Clone, Copy)]
pub enum VTableErased {
    Direct(VTableDirect),
    Indirect(VTableIndirect),
}

impl From<VTableDirect> for VTableErased {
    ghost from_gives = { λ value erased. erased ≡ Direct value };

    fn from(value: VTableDirect) -> VTableErased {
        VTableErased::Direct(value)
    }
}

impl From<VTableIndirect> for VTableErased {
    ghost from_gives = { λ value erased. erased ≡ Indirect value };

    fn from(value: VTableIndirect) -> VTableErased {
        VTableErased::Indirect(value)
    }
}

impl fmt::Debug for VTableErased {
    ghost debug_output = { λ erased. Some (erased_text erased) };

    fn fmt<W: fmt::Write>(&self, f: &mut fmt::Formatter<W>) -> fmt::Result {
        match self {
            VTableErased::Direct(_) => f.write_str("Direct(\"...\")"),
            VTableErased::Indirect(_) => f.write_str("Indirect(\"...\")"),
        }
    }
}

impl VTableErased {
    /// Whether values have a `Display` text.
    pub fn has_display(&self) -> bool
        ensures { result ≡ (capabilities_of self.now).display }
    {
        match self {
            VTableErased::Direct(vtable) => vtable.display,
            VTableErased::Indirect(vtable) => vtable.display,
        }
    }

    /// Whether values have a `Debug` text.
    pub fn has_debug(&self) -> bool
        ensures { result ≡ (capabilities_of self.now).debug }
    {
        match self {
            VTableErased::Direct(vtable) => vtable.debug,
            VTableErased::Indirect(vtable) => vtable.debug,
        }
    }

    /// Whether values can be hashed.
    pub fn has_hash(&self) -> bool
        ensures { result ≡ (capabilities_of self.now).hash }
    {
        match self {
            VTableErased::Direct(vtable) => vtable.hash,
            VTableErased::Indirect(vtable) => vtable.hash,
        }
    }

    /// Whether values can be tested for equality.
    pub fn has_partial_eq(&self) -> bool
        ensures { result ≡ (capabilities_of self.now).partial_eq }
    {
        match self {
            VTableErased::Direct(vtable) => vtable.partial_eq,
            VTableErased::Indirect(vtable) => vtable.partial_eq,
        }
    }

    /// Whether values are partially ordered.
    pub fn has_partial_ord(&self) -> bool
        ensures { result ≡ (capabilities_of self.now).partial_cmp }
    {
        match self {
            VTableErased::Direct(vtable) => vtable.partial_cmp,
            VTableErased::Indirect(vtable) => vtable.partial_cmp,
        }
    }

    /// Whether values are totally ordered.
    pub fn has_ord(&self) -> bool
        ensures { result ≡ (capabilities_of self.now).cmp }
    {
        match self {
            VTableErased::Direct(vtable) => vtable.cmp,
            VTableErased::Indirect(vtable) => vtable.cmp,
        }
    }

    /// Whether values can be read from a text.
    pub fn has_parse(&self) -> bool
        ensures { result ≡ (capabilities_of self.now).parse }
    {
        match self {
            VTableErased::Direct(vtable) => vtable.parse,
            VTableErased::Indirect(vtable) => vtable.parse,
        }
    }

    /// Whether values can be read from bytes.
    pub fn has_parse_bytes(&self) -> bool
        ensures { result ≡ (capabilities_of self.now).parse_bytes }
    {
        match self {
            VTableErased::Direct(vtable) => vtable.parse_bytes,
            VTableErased::Indirect(vtable) => vtable.parse_bytes,
        }
    }

    /// Whether values of other types can be converted into one.
    pub fn has_try_from(&self) -> bool
        ensures { result ≡ (capabilities_of self.now).try_from }
    {
        match self {
            VTableErased::Direct(vtable) => vtable.try_from,
            VTableErased::Indirect(vtable) => vtable.try_from,
        }
    }

    /// Whether the value that one wraps can be borrowed.
    pub fn has_try_borrow_inner(&self) -> bool
        ensures { result ≡ (capabilities_of self.now).try_borrow_inner }
    {
        match self {
            VTableErased::Direct(vtable) => vtable.try_borrow_inner,
            VTableErased::Indirect(vtable) => vtable.try_borrow_inner,
        }
    }

    /// Whether the invariants of the type can be tested.
    pub fn has_invariants(&self) -> bool
        ensures { result ≡ (capabilities_of self.now).invariants }
    {
        match self {
            VTableErased::Direct(vtable) => vtable.invariants,
            VTableErased::Indirect(vtable) => vtable.invariants,
        }
    }
}
