//! What the program answers around a run: what its words ask for, the script that it reads, and the outcome with its text.
#![tactic(auto)]

mod further;
mod outcome;
mod reading;
mod words;
mod writing;

pub use further::Further;
pub use outcome::{Outcome, status};
pub use reading::{Asked, read_script};
pub use words::{Job, Task, host_dir, mode_of, task_of};
pub use writing::{Carried, Report, conclude, deliver, refuse};
