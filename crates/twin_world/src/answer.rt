//! What commands are answered, and the log of them.
use crate::commands::TwinCommand;
use capability::Body;
use twin_store::TwinRefusal;

/// What a command is answered.
#[derive(Drop)]
pub enum Answer {
    /// The node is not in the state that the command needs.
    WrongState,
    /// Which of the disks are in use.
    Opened { first: bool, second: bool },
    /// It was done.
    Made,
    /// The text under the serial, or none.
    Found { text: Option<Body> },
    /// A disk in use has no room for the change: nothing is asked of it.
    NoRoom,
    /// It was refused, and the node is closed.
    Refused { refusal: TwinRefusal },
    /// A device call failed, or was stopped, as the disk was blanked.
    CutShort { stopped: bool },
}

/// What a command is answered, and which disks of its node met a fault in it.
#[derive(Drop)]
pub struct Done {
    pub answer: Answer,
    pub first_failed: bool,
    pub second_failed: bool,
}

/// A command with its answer, and which disks of its node met a fault in it.
#[derive(Drop)]
pub struct Entry {
    pub command: TwinCommand,
    pub answer: Answer,
    pub first_failed: bool,
    pub second_failed: bool,
}

/// The commands of a script, in order, each with its answer.
#[derive(Drop)]
pub struct Log {
    pub entries: Vec<Entry>,
}
