//! Definitions that several crates share: maps as ascending lists, the processes of an Eject with
//! their queues, and the calls with the messages on their way.
#![tactic(auto)]

use capability::Uid;
use eden_value::Txt;

/// Who made a call: the shell, under a name of its script, or a process of an Eject.
#[derive(Drop)]
pub enum Asker {
    Shell { name: Txt },
    Eject { uid: Uid, process: u8 },
}
