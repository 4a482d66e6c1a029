ghost use Rattle.std.specs.Prelude.{◌≡◌};
ghost use Rattle.facet_caps.specs.TypeOps.{operations_of};
ghost use Rattle.facet_caps.specs.declared.type_ops.TypeOps.TheVariants.{Direct, Indirect};

/// Whether values of a concrete type can be dropped, made by default and cloned, and have a truth value.
#[derive(Clone, Copy)]
pub struct TypeOpsDirect {
    pub drop_in_place: bool,
    pub default_in_place: bool,
    pub clone_into: bool,
    pub is_truthy: bool,
}

/// The same for a generic type, where each call takes the shape.
#[derive(Clone, Copy)]
pub struct TypeOpsIndirect {
    pub drop_in_place: bool,
    pub default_in_place: bool,
    pub clone_into: bool,
    pub is_truthy: bool,
}

/// The operations of a type, concrete or generic.
#[derive(Clone, Copy)]
pub enum TypeOps {
    Direct(TypeOpsDirect),
    Indirect(TypeOpsIndirect),
}

impl From<TypeOpsDirect> for TypeOps {
    ghost from_gives = { λ value type_ops. type_ops ≡ Direct value };

    fn from(value: TypeOpsDirect) -> TypeOps {
        TypeOps::Direct(value)
    }
}

impl From<TypeOpsIndirect> for TypeOps {
    ghost from_gives = { λ value type_ops. type_ops ≡ Indirect value };

    fn from(value: TypeOpsIndirect) -> TypeOps {
        TypeOps::Indirect(value)
    }
}

impl TypeOps {
    /// Whether a value can be cloned into a place.
    pub fn has_clone_into(&self) -> bool
        ensures { result ≡ (operations_of self.now).clone_into }
    {
        match self {
            TypeOps::Direct(operations) => operations.clone_into,
            TypeOps::Indirect(operations) => operations.clone_into,
        }
    }

    /// Whether a default value can be made in a place.
    pub fn has_default_in_place(&self) -> bool
        ensures { result ≡ (operations_of self.now).default_in_place }
    {
        match self {
            TypeOps::Direct(operations) => operations.default_in_place,
            TypeOps::Indirect(operations) => operations.default_in_place,
        }
    }

    /// Whether it can be asked if a value counts as true.
    pub fn truthiness_fn(&self) -> bool
        ensures { result ≡ (operations_of self.now).is_truthy }
    {
        match self {
            TypeOps::Direct(operations) => operations.is_truthy,
            TypeOps::Indirect(operations) => operations.is_truthy,
        }
    }
}
