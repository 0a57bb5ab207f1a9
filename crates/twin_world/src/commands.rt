//! The commands of a script of pairs of disks.
use eden_disk::ImageMode;
use eden_value::Txt;

/// What a line asks for, of a node or of a disk. Node n has the disks 2n - 1 and 2n.
#[derive(Drop)]
pub enum TwinCommand {
    /// Both disks of the node are opened.
    Open {
        n: u8,
    },
    /// A text is put under a serial.
    Put {
        n: u8,
        serial: u32,
        text: Txt,
    },
    /// The text under a serial is read.
    Get {
        n: u8,
        serial: u32,
    },
    /// The text under a serial is removed.
    Delete {
        n: u8,
        serial: u32,
    },
    /// Both disks of the node are closed.
    Close {
        n: u8,
    },
    /// The disk is overwritten with zeros.
    Blank {
        disk: u8,
    },
    /// A device call of the disk fails, so many calls later.
    Fail {
        disk: u8,
        after: u32,
    },
    /// The disk stops, so many calls later.
    Stop {
        disk: u8,
        after: u32,
        mode: ImageMode,
    },
}

/// The commands of a script.
#[derive(Drop)]
pub struct TwinScript {
    pub commands: Vec<TwinCommand>,
}
