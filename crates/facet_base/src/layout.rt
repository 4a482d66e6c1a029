ghost use Rattle.std.specs.Prelude.{◌≡◌, MatchResult};

use crate::errors::UnsizedError;

/// The size of a value in bytes, and the alignment: each offset of such a value is a multiple of it.
#[derive(Clone, Copy, PartialEq, Eq, Hash, Debug)]
pub struct Layout {
    pub size: usize,
    pub align: usize,
}

/// The id of a shape: its index in the registry.
#[derive(Clone, Copy, PartialEq, Eq, PartialOrd, Ord, Hash, Debug)]
pub struct ShapeId(pub u32);

/// The id of a hook.
#[derive(Clone, Copy, PartialEq, Eq, PartialOrd, Ord, Hash, Debug)]
pub struct HookId(pub u32);

/// The layout that all values of a type have, or that they have none in common.
#[derive(Clone, Copy, PartialEq, Eq, Hash, Debug)]
pub enum ShapeLayout {
    Sized(Layout),
    Unsized,
}

impl ShapeLayout {
    /// The layout of a sized type. Err comes exactly for an unsized one.
    pub fn sized_layout(self) -> Result<Layout, UnsizedError>
        ensures { MatchResult result (λ layout. self ≡ ShapeLayout.Sized layout) (λ _. self ≡ ShapeLayout.Unsized) }
    {
        match self {
            ShapeLayout::Sized(layout) => Ok(layout),
            ShapeLayout::Unsized => Err(UnsizedError),
        }
    }
}
