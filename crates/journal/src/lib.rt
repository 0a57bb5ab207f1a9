//! Commands, events and entries of a run, and in specs/ what a legal history is.
#![tactic(auto)]

mod command;
mod counts;
mod event;
mod fit;
mod lines;
mod lists;
mod words;

pub use command::{Arg, Args, Command, Ref, Script};
pub use counts::summary;
pub use event::{BootEnd, Entry, Event, Key, Mode, RequestEnd, Shown, StartEnd};
pub use fit::a_fit_command_hands_values;
pub use lines::line;
pub use lists::{Commands, History, Names};
