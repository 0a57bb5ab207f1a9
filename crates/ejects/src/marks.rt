//! Which turns of its own an Eject may take.
ghost use Rattle.std.specs.Prelude.{◌≡◌, ◌≤◌, IfSome, None, is_some};
ghost use Rattle.coordinator.specs.Ready.{AscendPast, next_ready};
ghost use Rattle.eden_model.specs.Map.{with_item};
ghost use Rattle.epl_syntax.specs.Rules.OfTypes.{TypeList};
ghost use Rattle.ejects.specs.Marks.{may_wake, may_start, may_run};
ghost use Rattle.ejects.specs.Parts.{body_at};
ghost use Rattle.ejects.specs.View.{parts_of, number_of};

use crate::Ejects;
use capability::Uid;
use eject_table::EjectStanding;

/// What an Eject may do of its own.
#[derive(Clone, Copy, Debug)]
pub struct May {
    /// It is passive and has a queued call.
    pub wake: bool,
    /// It is active and an invocation may start.
    pub start: bool,
    /// It is active and a process waits for nothing.
    pub run: bool,
}

impl Ejects {
    /// The number of the node.
    pub fn number(&self) -> u8
        ensures value { result ≡ number_of self.now }
        ensures within { result ≤ 8 }
    {
        self.table.node()
    }

    /// Whether the Eject is active.
    pub fn is_active(&self, uid: Uid) -> bool
        ensures { (ts : TypeList) → result ≡ is_some (body_at (parts_of ts self.now) uid) }
    {
        match self.table.find(uid) {
            EjectStanding::Active => true,
            EjectStanding::Passive => false,
            EjectStanding::Absent => false,
        }
    }

    /// What the Eject may do of its own now.
    pub fn may(&self, uid: Uid) -> May
        ensures wake { (ts : TypeList) → result.wake ≡ may_wake (parts_of ts self.now) uid }
        ensures start { (ts : TypeList) → result.start ≡ may_start (body_at (parts_of ts self.now) uid) }
        ensures run { (ts : TypeList) → result.run ≡ may_run (body_at (parts_of ts self.now) uid) }
    {
        match self.table.active(uid) {
            Some(part) => May {
                wake: false,
                start: part.startable().is_some(),
                run: part.next_ready(0).is_some(),
            },
            None => May {
                wake: self.count_waiting(uid) > 0,
                start: false,
                run: false,
            },
        }
    }

    /// The first process of the Eject past a number that waits for nothing.
    pub fn next_ready(&self, uid: Uid, after: u8) -> Option<u8>
        ensures next { (ts : TypeList) → result
            ≡ with_item (body_at (parts_of ts self.now) uid) (λ b. next_ready after b.crew.crew.processes) None }
        ensures ascend { (ts : TypeList) → IfSome (body_at (parts_of ts self.now) uid) (λ b. AscendPast 0 b.crew.crew.processes) }
    {
        match self.table.active(uid) {
            Some(part) => part.next_ready(after),
            None => None,
        }
    }
}
