//! Turns of processes.
ghost use Rattle.std.specs.Prelude.{◌≡◌, ◌↔◌, ◌<◌, ◌||◌, ℕ, Bool, IfOk, IsTrue, OnOk, is_some, length};
ghost use Rattle.passive_store.specs.Kept.{IsEject, body_at, doubt_in};
ghost use Rattle.journal.specs.Sites.{IsSoundSite};
ghost use Rattle.journal.specs.World.{Site};
ghost use Rattle.checkpoint.specs.StoreStands.{doubt_of};
ghost use Rattle.ejects.specs.Counts.{AsksOneAtMost};
ghost use Rattle.ejects.specs.Events.{IsTurnOf};
ghost use Rattle.ejects.specs.Creations.{MayTurn};
ghost use Rattle.ejects.specs.Replies.{Reaches};
ghost use Rattle.eden_kernel.specs.Enabled.{MayProcess};
ghost use Rattle.eden_kernel.specs.Stands.{held, IsWhole, NodeStands};
ghost use Rattle.eden_kernel.specs.Turns.{Turns};

use crate::Node;
use capability::Uid;
use epl_syntax::Types;
use invocation::Calls;
use journal::Event;
use locator::Places;
use passive_store::Store;
use std::alloc::{AllocError, Global};

// Whether something is kept of an Eject, or may be.
fn is_kept<St: Store>(store: &St, uid: Uid) -> bool
    ensures { IsTrue St.Device.tells → result ≡ (is_some (body_at (St.seen store.now).kept uid)
        || is_some (doubt_of (doubt_in (St.seen store.now).work) uid)) }
{
    if store.holds(uid) {
        return true;
    }
    match store.unsure() {
        Some(doubted) => uid == doubted,
        None => false,
    }
}

// Whether the uid is that of an Eject of this node.
pub(crate) fn is_eject(number: u8, uid: Uid) -> bool
    ensures { IsTrue result ↔ IsEject number uid }
{
    uid.node == number && uid.epoch >= 1 && uid.serial >= 1
}

impl<St: Store> Node<St> {
    /// A process that is not blocked takes its turn, up to its effect.
    pub fn process(
        &mut self,
        alloc: Global,
        types: &Types,
        calls: &mut Calls,
        places: &Places,
        uid: Uid,
        process: u8,
    ) -> Result<Event, AllocError>
        requires calls { length calls.old.calls < 4294967295 }
        requires whole { IsWhole (held St.seen self.old) }
        requires may { MayProcess types.now (held St.seen self.old) uid process }
        ensures whole { OnOk result (IsWhole (held St.seen self.new)) }
        ensures number { self.new.number ≡ self.old.number }
        ensures event { IfOk result (IsTurnOf uid process) }
        ensures store { St.seen self.new.store ≡ St.seen self.old.store }
        ensures turn { IsTrue St.Device.tells → IfOk result (λ e. (reach : ℕ → Bool) (s : Site) → Reaches reach places.now uid.node
            → IsSoundSite s → MayTurn s → NodeStands St.layout types.now (held St.seen self.old) calls.old s
            → Turns St.layout types.now (held St.seen self.new) calls.new reach (held St.seen self.old) s e) }
        ensures asks { OnOk result (AsksOneAtMost calls.old calls.new) }
    {
        let stays = is_kept(&self.store, uid);
        let worker = &mut self.worker;
        self.ejects
            .process(alloc, types, calls, places, worker, uid, process, stays)
    }
}
