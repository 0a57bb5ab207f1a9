//! The turn of a key.
ghost use Rattle.std.specs.Prelude.{◌≡◌, ◌↔◌, ◌≤◌, ◌<◌, ◌+◌, ℕ, Bool, IfErr, IfOk, IsTrue, OnErr, length, OnOk};
ghost use Rattle.epl_syntax.specs.Rules.OfTypes.{TypeList};
ghost use Rattle.passive_store.specs.Layout.{IsLayout};
ghost use Rattle.journal.specs.Sites.{IsSoundSite};
ghost use Rattle.journal.specs.World.{Site};
ghost use Rattle.checkpoint.specs.Touches.{ReadsByCalls};
ghost use Rattle.disk_faults.specs.Shows.{IsLeftOf, ShowsCounts};
ghost use Rattle.ejects.specs.Counts.{AsksOneAtMost};
ghost use Rattle.ejects.specs.Creations.{MayTurn};
ghost use Rattle.ejects.specs.Replies.{Reaches};
ghost use Rattle.eden_kernel.specs.DiskTurns.{IsWholeBehind, Starves, StopsBy};
ghost use Rattle.eden_kernel.specs.Stands.{held, IsWhole, NodeStands};
ghost use Rattle.eden_kernel.specs.declared.stores.TurnEnd.TheVariants.{Down};
ghost use Rattle.scheduled_node.specs.Keys.{HasTurn, IsKeyOf};
ghost use Rattle.scheduled_node.specs.Scheduled.{manned, ScheduledStands, KeyEnds, KeyTurns};
ghost use Rattle.scheduled_node.specs.Touched.{IsNodeTurn, ShowsClock, TurnTouches};

use crate::ScheduledNode;
use crate::noting::note_behind;
use eden_kernel::{Node, TurnEnd};
use epl_syntax::Types;
use invocation::Calls;
use journal::{Event, Key};
use locator::Places;
use passive_store::Store;
use std::alloc::{AllocError, Global};

// The turn of a key of a node: a delivery, an activation, a start, or a turn of a process or of the store. Where the disk stops the node is
// down, and is to be closed.
//
// For want of memory a device call may have been made, and the node is not to go on.
fn key_turn<St: Store>(
    node: &mut Node<St>,
    alloc: Global,
    types: &Types,
    calls: &mut Calls,
    places: &Places,
    key: Key,
) -> Result<(Event, TurnEnd), AllocError>
    requires calls { length calls.old.calls < 4294967295 }
    requires whole { IsWhole (held St.seen node.old) }
    requires has { HasTurn types.now (held St.seen node.old) calls.old key }
    ensures whole { IfOk result (λ r. IsWholeBehind r.1 (held St.seen node.new)) }
    ensures number { node.new.number ≡ node.old.number }
    ensures event { IfOk result (λ r. IsNodeTurn node.old.number r.0) }
    ensures calls { IfOk result (λ r. r.1 ≡ Down → calls.new ≡ calls.old) }
    ensures stops { IfOk result (λ r. StopsBy r.1 (St.seen node.old.store).disk.counts (St.seen node.new.store).disk.counts) }
    ensures touches { IsTrue St.Device.tells → ReadsByCalls St.layout → IfOk result (λ r. (s : Site)
        → 1 ≤ (St.seen node.old.store).more → NodeStands St.layout types.now (held St.seen node.old) calls.old s
        → TurnTouches s r.0 (St.seen node.old.store).disk (St.seen node.new.store).disk) }
    ensures clock { IfOk result (λ r. ShowsClock r.0 (St.seen node.new.store).disk.counts.clock) }
    ensures shows { IfOk result (λ r. ShowsCounts St.Device.obeys node.old.number r.0
        (St.seen node.old.store).disk (St.seen node.new.store).disk) }
    ensures left { OnErr result (IsLeftOf St.Device.obeys (St.seen node.old.store).disk (St.seen node.new.store).disk) }
    ensures more { IsTrue St.Device.tells → IfOk result (λ r. (s : Site) → 1 ≤ (St.seen node.old.store).more
        → NodeStands St.layout types.now (held St.seen node.old) calls.old s
        → (St.seen node.old.store).more ≤ (St.seen node.new.store).more + 1) }
    ensures turn { IsTrue St.Device.tells → IsLayout St.layout → IfOk result (λ r. (reach : ℕ → Bool) (s : Site)
        → IsKeyOf s.number key → Reaches reach places.now s.number → IsSoundSite s → MayTurn s
        → 1 ≤ (St.seen node.old.store).more
        → NodeStands St.layout types.now (held St.seen node.old) calls.old s
        → KeyEnds r.1 St.layout types.now (held St.seen node.new) calls.new reach (held St.seen node.old) s r.0 key) }
    // With memory or without.
    ensures starves { IsTrue St.Device.tells → IsLayout St.layout → (s : Site) → IsSoundSite s
        → 1 ≤ (St.seen node.old.store).more → NodeStands St.layout types.now (held St.seen node.old) calls.old s
        → Starves St.layout s (St.seen node.old.store) (St.seen node.new.store) }
    ensures asks { OnOk result (AsksOneAtMost calls.old calls.new) }
{
    match key.kind {
        1 => {
            let event = node.deliver(alloc, types, calls, key.sender)?;
            Ok((event, TurnEnd::Up))
        }
        2 => node.activate(alloc, types, calls, key.uid),
        3 => {
            let event = node.start(alloc, types, calls, key.uid)?;
            Ok((event, TurnEnd::Up))
        }
        4 => {
            let event = node.process(alloc, types, calls, places, key.uid, key.process)?;
            Ok((event, TurnEnd::Up))
        }
        5 => node.store_turn(alloc, calls),
        _ => unreachable!(),
    }
}

impl<St: Store> ScheduledNode<St> {
    /// Whether the node has the turn of a key.
    pub fn has_turn(&self, calls: &Calls, key: Key) -> bool
        ensures { (ts : TypeList) → IsTrue result ↔ HasTurn ts (held St.seen self.now.node) calls.now key }
    {
        match key.kind {
            1 => key.sender <= 8 && self.node.ejects().hears(calls, key.sender),
            2 => self.node.may_activate(key.uid),
            3 => self.node.may_start(calls, key.uid),
            4 => self.node.may_process(key.uid, key.process),
            5 => self.node.pending(),
            _ => false,
        }
    }

    /// The turn of a key of the node: a delivery, an activation, a start, or a turn of a process or of the store. Where the disk stops
    /// the node is down, and is to be closed.
    ///
    /// For want of memory a device call may have been made, and the node is not to go on.
    pub fn turn(
        &mut self,
        alloc: Global,
        types: &Types,
        calls: &mut Calls,
        places: &Places,
        key: Key,
    ) -> Result<(Event, TurnEnd), AllocError>
        requires calls { length calls.old.calls < 4294967295 }
        requires whole { IsWhole (held St.seen self.old.node) }
        requires has { HasTurn types.now (held St.seen self.old.node) calls.old key }
        ensures whole { IfOk result (λ r. IsWholeBehind r.1 (held St.seen self.new.node)) }
        ensures number { self.new.node.number ≡ self.old.node.number }

        // Its event is a turn's, and shows of no other node's disk.
        ensures event { IfOk result (λ r. IsNodeTurn self.old.node.number r.0) }

        // No call knows yet of a disk that stopped.
        ensures calls { IfOk result (λ r. r.1 ≡ Down → calls.new ≡ calls.old) }

        // Down comes exactly where the disk's count of stops rose, whatever the disk tells.
        ensures stops { IfOk result (λ r. StopsBy r.1 (St.seen self.old.node.store).disk.counts (St.seen self.new.node.store).disk.counts) }

        // It makes device calls exactly where that turn of the node does.
        ensures touches { IsTrue St.Device.tells → ReadsByCalls St.layout → IfOk result (λ r. (s : Site)
            → 1 ≤ (St.seen self.old.node.store).more → NodeStands St.layout types.now (held St.seen self.old.node) calls.old s
            → TurnTouches s r.0 (St.seen self.old.node.store).disk (St.seen self.new.node.store).disk) }

        ensures clock { IfOk result (λ r. ShowsClock r.0 (St.seen self.new.node.store).disk.counts.clock) }

        // What it shows of the disk was due, where that obeys.
        ensures shows { IfOk result (λ r. ShowsCounts St.Device.obeys self.old.node.number r.0
            (St.seen self.old.node.store).disk (St.seen self.new.node.store).disk) }
        ensures left { OnErr result (IsLeftOf St.Device.obeys (St.seen self.old.node.store).disk (St.seen self.new.node.store).disk) }

        // Of the changes for which the room is told it takes one at most.
        ensures more { IsTrue St.Device.tells → IfOk result (λ r. (s : Site) → 1 ≤ (St.seen self.old.node.store).more
            → NodeStands St.layout types.now (held St.seen self.old.node) calls.old s
            → (St.seen self.old.node.store).more ≤ (St.seen self.new.node.store).more + 1) }
        ensures turn { IsTrue St.Device.tells → IsLayout St.layout → IfOk result (λ r. (reach : ℕ → Bool) (s : Site)
            → IsKeyOf s.number key → Reaches reach places.now s.number → IsSoundSite s → MayTurn s
            → 1 ≤ (St.seen self.old.node.store).more
            → ScheduledStands St.layout types.now (manned St.seen self.old) calls.old s
            → KeyTurns r.1 St.layout types.now (manned St.seen self.new) calls.new reach (manned St.seen self.old) s r.0 key) }
        ensures starves { IsTrue St.Device.tells → IsLayout St.layout → IfErr result (λ _. (s : Site) → IsSoundSite s
            → 1 ≤ (St.seen self.old.node.store).more → NodeStands St.layout types.now (held St.seen self.old.node) calls.old s
            → Starves St.layout s (St.seen self.old.node.store) (St.seen self.new.node.store)) }
        ensures asks { OnOk result (AsksOneAtMost calls.old calls.new) }
    {
        let (event, end) = key_turn(&mut self.node, alloc, types, calls, places, key)?;
        note_behind(&mut self.agenda, self.node.ejects(), calls, &event, end)?;
        Ok((event, end))
    }
}
