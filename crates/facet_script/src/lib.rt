//! A script from a source, its answers to a sink.
#![tactic(auto)]

mod input;
mod output;
mod report;
mod serving;
mod whole_run;

pub use facet_session::{
    Answer, Caps, Cell, Command, Decl, FieldDecl, Opt, Session, VariantDecl, finish, read_command,
    step,
};
pub use facet_stream::{Failed, ListSink, ListSource, Sink, Source};
pub use report::{Report, Status};
pub use whole_run::run;
