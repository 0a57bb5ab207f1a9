//! Where bytes come from and where they go: a source and a sink, each with a count of its faults.
#![tactic(auto)]

mod memory;
mod traits;
mod whole;

pub use memory::{MemSink, MemSource, OutOfMemory};
pub use traits::{Failed, Sink, Source};
pub use whole::{ReadRefusal, read_all, write_all};
