ghost use Rattle.std.specs.Prelude.{◌≡◌, ◌<ℤ◌, ◌-ℤ◌, pos, neg_ℤ, None, Some};

/// How many levels of type parameters a name shows. Below 0 it shows all.
#[derive(Clone, Copy)]
pub struct TypeNameOpts {
    pub recurse_ttl: isize,
}

impl TypeNameOpts {
    /// No type parameters.
    pub fn none() -> TypeNameOpts
        ensures { result.recurse_ttl ≡ pos 0 }
    {
        TypeNameOpts { recurse_ttl: 0 }
    }

    /// Type parameters, but not those of type parameters.
    pub fn one() -> TypeNameOpts
        ensures { result.recurse_ttl ≡ pos 1 }
    {
        TypeNameOpts { recurse_ttl: 1 }
    }

    /// All type parameters.
    pub fn infinite() -> TypeNameOpts
        ensures { result.recurse_ttl ≡ neg_ℤ (pos 1) }
    {
        TypeNameOpts { recurse_ttl: -1 }
    }

    /// The options for the names of type parameters, and none where they aren't shown.
    pub fn for_children(&self) -> Option<TypeNameOpts>
        ensures none { self.now.recurse_ttl ≡ pos 0 → result ≡ None }
        ensures all { self.now.recurse_ttl <ℤ pos 0 → result ≡ Some self.now }
        ensures less { pos 0 <ℤ self.now.recurse_ttl → result ≡ Some (record { recurse_ttl = self.now.recurse_ttl -ℤ pos 1 }) }
    {
        match self.recurse_ttl {
            0 => None,
            ..0 => Some(*self),
            levels => Some(TypeNameOpts {
                recurse_ttl: levels - 1,
            }),
        }
    }
}

impl Default for TypeNameOpts {
    ghost is_default = { λ opts. opts.recurse_ttl ≡ neg_ℤ (pos 1) };

    fn default() -> TypeNameOpts {
        TypeNameOpts::infinite()
    }
}

/// The form in which the name of a generic type is written.
#[derive(Drop)]
pub enum NameForm {
    Vec,
    Option,
    Result,
    Map,
    Set,
    Box,
    Array,
    Slice,
    Tuple,
}
