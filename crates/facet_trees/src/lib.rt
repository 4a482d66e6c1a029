//! Values as trees: how those of a shape are made up, their equality and their order.
#![tactic(auto)]

/// Where comparisons have an answer.
pub mod answer_laws;
/// The values of enums.
pub mod enum_laws;
/// The laws of equality.
pub mod equality_laws;
mod form;
/// The laws of the total order.
pub mod laws;

pub use form::Form;
