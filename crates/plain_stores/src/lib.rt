//! A node as the definitions have it, without the calls: what is known of its disk, the requests to its store, and its Ejects.
//!
//! Each call is one change of the node of the definitions, over a disk with blocks, and its contract is that equation.
#![tactic(auto)]

mod boots;
mod doubts;
mod entries;
mod request;
mod requests;
mod rooms;
mod turns;

ghost use Rattle.std.specs.Prelude.{◌≡◌, [], false, Ok};
ghost use Rattle.epl_syntax.specs.Rules.OfTypes.{TypeList};
ghost use Rattle.journal.specs.Opening.{node_from};
ghost use Rattle.plain_stores.specs.View.{node_of};

pub use entries::{PlainEntry, add, find, place_of, tell};
pub use request::PlainRequest;
use std::alloc::Global;
use std::collections::VecDeque;

/// A node.
#[derive(Drop)]
pub struct PlainNode {
    /// Its number.
    pub number: u8,
    /// The size of its disk, in bytes.
    pub size: u32,
    /// The first damaged place of the opening image.
    pub damaged: Option<u32>,
    /// Whether that image keeps too much to be opened.
    pub overfull: bool,
    /// Whether of that image the room is told for no change more.
    pub untold: bool,
    /// Whether a boot brought it up and it has not crashed since.
    pub up: bool,
    /// The stored epoch.
    pub epoch: Option<u32>,
    /// The epoch whose put was begun, and of which it is not known whether it is stored.
    pub epoch_doubt: Option<u32>,
    /// The serial that was given last in its epoch.
    pub last_serial: u32,
    /// The clock of the last entry on the disk.
    pub clock: Option<u64>,
    /// The requests to its store, the one that it serves first in front.
    pub requests: VecDeque<PlainRequest>,
    /// Whether the settling's sync was made.
    pub synced: bool,
    /// All Ejects that were ever on it, in ascending order of their uids.
    pub ejects: Vec<PlainEntry>,
}

impl PlainNode {
    /// A node with a blank disk of this size, before its first boot.
    pub fn blank(alloc: Global, number: u8, size: u32) -> PlainNode
        ensures node { (ts : TypeList) → node_of ts result ≡ node_from number size (Ok []) false false [] }
        ensures number { result.number ≡ number }
    {
        PlainNode {
            number,
            size,
            damaged: None,
            overfull: false,
            untold: false,
            up: false,
            epoch: None,
            epoch_doubt: None,
            last_serial: u32::MAX,
            clock: None,
            requests: VecDeque::new(alloc),
            synced: false,
            ejects: Vec::new(alloc),
        }
    }
}
