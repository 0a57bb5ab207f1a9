//! Checkpoints and removals of a node's Ejects: the requests that wait for its store, and what they do to its disk.
#![tactic(auto)]

mod down;
mod law;
mod start;
mod up;
mod worker;

pub use down::{arm, crash, noted};
pub use law::{log_reads_by_calls, runs_stand};
pub use start::{Start, Starter, start_from};
pub use up::{BootFall, BootNote, boot};
pub use worker::{Request, Settled, StepEnd, StoreEnd, Wish, Worker};
