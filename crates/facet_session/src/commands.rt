pub mod default;
pub mod put;
pub mod seal;
pub mod shape;
