ghost use Rattle.std.specs.Prelude.{◌≡◌};
ghost use Rattle.facet_caps.specs.EmptyRecords.{empty_direct, empty_indirect};

use crate::typed_builder::TypedVTableDirectBuilder;

/// What can be done with the values of a concrete type.
#[derive(Clone, Copy)]
pub struct VTableDirect {
    pub display: bool,
    pub debug: bool,
    pub hash: bool,
    pub invariants: bool,
    pub parse: bool,
    pub parse_bytes: bool,
    pub try_from: bool,
    pub try_into_inner: bool,
    pub try_borrow_inner: bool,
    pub partial_eq: bool,
    pub partial_cmp: bool,
    pub cmp: bool,
}

impl VTableDirect {
    /// The record without a member.
    pub fn empty() -> VTableDirect
        ensures { result ≡ empty_direct }
    {
        VTableDirect {
            display: false,
            debug: false,
            hash: false,
            invariants: false,
            parse: false,
            parse_bytes: false,
            try_from: false,
            try_into_inner: false,
            try_borrow_inner: false,
            partial_eq: false,
            partial_cmp: false,
            cmp: false,
        }
    }

    /// The record without a member, to be changed field by field.
    pub fn builder() -> VTableDirect
        ensures { result ≡ empty_direct }
    {
        VTableDirect::empty()
    }

    /// A builder that begins with the record without a member.
    pub fn builder_for() -> TypedVTableDirectBuilder
        ensures { result ≡ empty_direct }
    {
        TypedVTableDirectBuilder::new(VTableDirect::empty())
    }
}

impl Default for VTableDirect {
    ghost is_default = { λ vtable. vtable ≡ empty_direct };

    fn default() -> VTableDirect {
        VTableDirect::empty()
    }
}

/// What can be done with the values of a generic type, where each call takes the shape.
#[derive(Clone, Copy)]
pub struct VTableIndirect {
    pub display: bool,
    pub debug: bool,
    pub hash: bool,
    pub invariants: bool,
    pub parse: bool,
    pub parse_bytes: bool,
    pub try_from: bool,
    pub try_into_inner: bool,
    pub try_borrow_inner: bool,
    pub partial_eq: bool,
    pub partial_cmp: bool,
    pub cmp: bool,
}

impl VTableIndirect {
    /// The record without a member.
    pub const EMPTY: VTableIndirect = VTableIndirect {
        display: false,
        debug: false,
        hash: false,
        invariants: false,
        parse: false,
        parse_bytes: false,
        try_from: false,
        try_into_inner: false,
        try_borrow_inner: false,
        partial_eq: false,
        partial_cmp: false,
        cmp: false,
    };

    /// The record without a member.
    pub fn empty() -> VTableIndirect
        ensures { result ≡ empty_indirect }
    {
        VTableIndirect::EMPTY
    }
}

impl Default for VTableIndirect {
    ghost is_default = { λ vtable. vtable ≡ empty_indirect };

    fn default() -> VTableIndirect {
        VTableIndirect::empty()
    }
}
