//! What the crate above sees of a node.
ghost use Rattle.std.specs.Prelude.{◌≡◌, ◌≢◌, ◌↔◌, true, false, Some, IsTrue, is_some};
ghost use Rattle.capability.specs.declared.Uid.{Uid as Name};
ghost use Rattle.eden_model.specs.Map.{with_item, first, same_uid};
ghost use Rattle.epl_syntax.specs.Rules.OfTypes.{TypeList};
ghost use Rattle.invocation.specs.Mail.{Mail};
ghost use Rattle.journal.specs.Starts.{is_worked_on};
ghost use Rattle.journal.specs.World.{Site};
ghost use Rattle.passive_store.specs.Kept.{worked_on};
ghost use Rattle.eden_kernel.specs.Enabled.{HasRequest, MayActivate, MayProcess, MayStart};
ghost use Rattle.eden_kernel.specs.Stands.{held, NodeStands};

use crate::Node;
use crate::processes::is_eject;
use capability::Uid;
use ejects::Ejects;
use invocation::Calls;
use passive_store::Store;

// Whether a job of the store is about the Eject.
fn is_worked_on<St: Store>(store: &St, uid: Uid) -> bool
    ensures same { result ≡ true → worked_on (St.seen store.now).work ≡ Some uid }
    ensures other { result ≡ false → worked_on (St.seen store.now).work ≢ Some uid }
{
    match store.working_on() {
        Some(other) => other == uid,
        None => false,
    }
}

impl<St: Store> Node<St> {
    /// Its Ejects.
    pub fn ejects(&self) -> &Ejects
        ensures { result.now ≡ self.now.ejects }
    {
        &self.ejects
    }

    /// The Eject on which its store works: that of the first request, once that has made a device call.
    pub fn worked_on(&self) -> Option<Uid>
        ensures { IsTrue St.Device.tells → (ts : TypeList) (m : Mail) (s : Site) → NodeStands St.layout ts (held St.seen self.now) m s
            → (u : Name) → is_worked_on s u ≡ with_item result (λ v. same_uid v u) false }
    {
        self.store.working_on()
    }

    /// Whether a request waits for its store.
    pub fn pending(&self) -> bool
        ensures has { IsTrue result ↔ HasRequest (held St.seen self.now) }
        ensures waits { IsTrue St.Device.tells → (ts : TypeList) (m : Mail) (s : Site) → NodeStands St.layout ts (held St.seen self.now) m s
            → result ≡ is_some (first s.node.requests) }
    {
        self.worker.pending()
    }

    /// Whether an Eject may be activated: its uid is of the node, it is passive, has a queued call, and is not worked on by the store.
    pub fn may_activate(&self, uid: Uid) -> bool
        ensures { (ts : TypeList) → IsTrue result ↔ MayActivate ts (held St.seen self.now) uid }
    {
        if !is_eject(self.number, uid) {
            return false;
        }
        if !self.ejects.may(uid).wake {
            return false;
        }
        if is_worked_on(&self.store, uid) {
            return false;
        }
        true
    }

    /// Whether an invocation may start at an Eject, of which the call was asked.
    pub fn may_start(&self, calls: &Calls, uid: Uid) -> bool
        ensures { (ts : TypeList) → IsTrue result ↔ MayStart ts (held St.seen self.now) calls.now uid }
    {
        self.ejects.may_begin(calls, uid)
    }

    /// Whether a process of an Eject waits for nothing, and the uid is of the node.
    pub fn may_process(&self, uid: Uid, process: u8) -> bool
        ensures { (ts : TypeList) → IsTrue result ↔ MayProcess ts (held St.seen self.now) uid process }
    {
        is_eject(self.number, uid) && self.ejects.is_ready(uid, process)
    }
}
