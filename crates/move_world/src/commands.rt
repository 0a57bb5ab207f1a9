//! The commands of a script of Ejects that wander.
use capability::Uid;
use eden_disk::ImageMode;
use eden_value::Value;

/// What a line asks for. The number that comes first is that of a node.
#[derive(Drop)]
pub enum MoveCommand {
    /// The node makes an Eject, with this serial and this value.
    Make { n: u8, serial: u32, value: Value },
    /// It makes an Eject active that is there.
    Wake { n: u8, uid: Uid },
    /// It keeps this value of one that is active.
    Save { n: u8, uid: Uid, value: Value },
    /// It lends one to another node.
    Move { n: u8, uid: Uid, to: u8 },
    /// It gives the letter anew of one that is lent.
    Again { n: u8, uid: Uid },
    /// The letter with this number, from 1, of those from node a to node b, comes.
    Carry { a: u8, b: u8, i: u32 },
    /// The node crashes, and its disk loses its power so.
    Crash { n: u8, mode: ImageMode },
    /// The disk of the node is opened again.
    Restart { n: u8 },
    /// A device call of the node fails, so many calls later.
    Fail { n: u8, after: u32 },
    /// The disk of the node stops, so many calls later.
    Stop { n: u8, after: u32, mode: ImageMode },
}
