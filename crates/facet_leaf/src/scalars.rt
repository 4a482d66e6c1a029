//! `Scalar`, the leaf type of this crate, and what its methods return.

pub mod convert;
pub mod hash;
pub mod kinds;
pub mod number;
pub mod order;
pub mod parse;
pub mod scalar;
pub mod texts;
