//! Where the bytes of a program come from and go to, with counts of what failed, and a source and a sink
//! in memory.
#![tactic(auto)]

mod list_sink;
mod list_source;
mod stream;
#[cfg(test)]
mod tests;

pub use list_sink::ListSink;
pub use list_source::ListSource;
pub use stream::{Failed, Sink, Source};
