ghost use Rattle.std.specs.Prelude.{◌≡◌};
ghost use Rattle.std.specs.Option.{option_copied};
ghost use Rattle.facet_desc.specs.FunctionAbi.{abi_text};

use facet_base::{Many, ShapeId};

/// What a pointer to a function points to.
#[derive(Drop)]
pub struct FunctionPointerDef {
    pub abi: FunctionAbi,
    pub parameters: Many<ShapeId>,
    pub return_type: ShapeId,
}

impl FunctionPointerDef {
    /// The function of these members.
    pub fn new(
        abi: FunctionAbi,
        parameters: Many<ShapeId>,
        return_type: ShapeId,
    ) -> FunctionPointerDef
        ensures { result ≡ record { abi = abi; parameters = parameters; return_type = return_type } }
    {
        FunctionPointerDef {
            abi,
            parameters,
            return_type,
        }
    }
}

/// How a function is called.
#[derive(Clone, Copy, PartialEq, Eq, Hash, Debug)]
pub enum FunctionAbi {
    C,
    Rust,
    Unknown,
}

impl Default for FunctionAbi {
    ghost use Rattle.facet_desc.specs.declared.function.FunctionAbi.TheVariants as abi;

    ghost is_default = { λ a. a ≡ abi.Rust };

    fn default() -> FunctionAbi {
        FunctionAbi::Rust
    }
}

impl FunctionAbi {
    /// Its name in the source, and none for an unknown one.
    pub fn as_abi_str(&self) -> Option<&str>
        ensures { option_copied result ≡ abi_text self.now }
    {
        match self {
            FunctionAbi::C => Some("C"),
            FunctionAbi::Rust => Some("Rust"),
            FunctionAbi::Unknown => None,
        }
    }
}
