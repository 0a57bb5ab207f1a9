//! What commands are answered, and the log of them.
use crate::commands::MoveCommand;
use eden_move::{Letter, MoveRefusal};
use eden_value::Value;
use passive_store::StoreRefusal;

/// How a call of a node ended.
#[derive(Drop)]
pub enum Ended {
    /// It was refused.
    Refused { refusal: MoveRefusal },
    /// It answered: whether it put a record, and the letter that it gave, if it gave one.
    Answered { put: bool, post: Option<Letter> },
}

/// What a command is answered.
#[derive(Drop)]
pub enum Answer {
    /// The call of the node ended so.
    Ends { how: Ended },
    /// A waking gave this value.
    Shows { value: Value },
    /// This letter came, and the call to which it led ended so.
    Comes { letter: Letter, how: Ended },
    /// There is no letter with that number.
    NoLetter,
    /// The node is not in the state that the command needs.
    WrongState,
    /// The node is up.
    Up,
    /// Its disk was not opened.
    Down { refusal: StoreRefusal },
    /// The node crashed, or its disk was asked for a failure or a stop.
    Done,
}

/// A command with its answer.
#[derive(Drop)]
pub struct Entry {
    pub command: MoveCommand,
    pub answer: Answer,
}

/// How many nodes there are, their openings, in order, and the commands behind them, each with its answer.
#[derive(Drop)]
pub struct Log {
    pub nodes: u8,
    pub openings: Vec<Entry>,
    pub entries: Vec<Entry>,
}
