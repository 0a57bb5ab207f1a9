//! The whole of what the program does: the words, the script, the run over eight disks, and the transcript.
#![tactic(auto)]

mod carry;
mod handing;
mod in_memory;
mod law;
mod moving;
mod shell;
mod twins;

pub use handing::hand_on;
pub use in_memory::eden_over_blank;
pub use law::{
    a_power_cut_hands_on, blank_disks_keep_no_texts, blank_disks_keep_nothing,
    blank_disks_may_be_handed_in,
};
pub use shell::eden;
pub use shell_answers::{Further, Job, Outcome, Report, Task, host_dir, status};
