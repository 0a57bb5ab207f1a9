//! The standard streams as a source and a sink.
#![tactic(auto)]

mod streams;

pub use streams::{StdSink, StdSource};
