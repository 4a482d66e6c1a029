mod field_flags;
mod marker_traits;
mod names;
mod pointer_flags;
mod shape_flags;

pub use field_flags::FieldFlags;
pub use marker_traits::MarkerTraits;
pub use pointer_flags::PointerFlags;
pub use shape_flags::ShapeFlags;

#[cfg(test)]
mod tests;
