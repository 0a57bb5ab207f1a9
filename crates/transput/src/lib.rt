//! The stream types, run: Lines, the filters Take, Skip, Only and Number, and Sink.
//!
//! What each means stands in `epl_syntax`. Here a process of one takes its turns over the values of its Eject.
#![tactic(auto)]

mod effects;
mod filter;
mod lines;
mod pump;
mod rule;
mod sink;
mod stored;
mod stream;
mod values;

pub use filter::FilterStage;
pub use lines::LinesStage;
pub use pump::Pump;
pub use sink::SinkStage;
pub use stored::{native_durable, native_restart, native_start};
pub use stream::{Stage, Stream, native_begin, native_turn, native_values};
