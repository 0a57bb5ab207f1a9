//! What is told besides a history.

/// The log of a script that was carried out. The history of a run is none.
#[derive(Drop)]
pub enum Further {
    /// There is no log.
    Nothing,
    /// Ejects wandered: the commands of the script, each with its answer.
    Move { log: move_world::Log },
    /// Pairs of disks were opened, changed and looked into: the commands of the script, each with its answer.
    Twin { log: twin_world::Log },
}
