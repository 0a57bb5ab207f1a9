//! Passive Ejects are activated.
ghost use Rattle.std.specs.Prelude.{◌≡◌, ℕ, Bool, Option, None, IfOk, IfErr, IfSome, IsTrue, OnErr, is_some, OnOk};
ghost use Rattle.capability.specs.declared.Uid.{Uid as Name};
ghost use Rattle.epl_syntax.specs.Meaning.{types_in};
ghost use Rattle.epl_syntax.specs.Rules.OfTypes.{TypeList};
ghost use Rattle.passive_store.specs.declared.store.Pick.{Pick};
ghost use Rattle.passive_store.specs.Kept.{body_at};
ghost use Rattle.passive_store.specs.Layout.{IsLayout};
ghost use Rattle.journal.specs.Settling.{settled as settled_by};
ghost use Rattle.journal.specs.Sites.{IsSoundSite};
ghost use Rattle.journal.specs.Starts.{start_settled};
ghost use Rattle.journal.specs.Step.{AllowsAt, site_turn, touches_start};
ghost use Rattle.journal.specs.World.{Site};
ghost use Rattle.journal.specs.declared.event.Event.TheVariants as event;
ghost use Rattle.checkpoint.specs.Asked.{pick_of};
ghost use Rattle.checkpoint.specs.Starting.{StartsWith, end_of_start, values_of};
ghost use Rattle.checkpoint.specs.Touches.{Touches, ReadsByCalls};
ghost use Rattle.ejects.specs.Counts.{AsksNone};
ghost use Rattle.ejects.specs.Parts.{IsAt, Stands, body_at as part_at};
ghost use Rattle.ejects.specs.StoreEnds.{SettlesAt};
ghost use Rattle.ejects.specs.View.{parts_of};
ghost use Rattle.eden_kernel.specs.DiskTurns.{EndsTurn, IsWholeBehind, IsActivation, Starves, StopsBy, behind_start, begun_as};
ghost use Rattle.eden_kernel.specs.Enabled.{MayActivate};
ghost use Rattle.disk_faults.specs.Elsewhere.{shown_of};
ghost use Rattle.disk_faults.specs.Shows.{IsLeftOf, ShowsCounts};
ghost use Rattle.eden_kernel.specs.Shows.{call_of_event};
ghost use Rattle.eden_kernel.specs.Stands.{held, IsWhole, NodeStands};
ghost use Rattle.eden_kernel.specs.declared.stores.TurnEnd.TheVariants.{Up, Down};

use crate::stores::pick_in;
use crate::{Node, TurnEnd};
use capability::Uid;
use checkpoint::{Settled, Start, Starter, start_from};
use eden_codec::Rep;
use eden_value::Status;
use edentypes::Begun;
use ejects::Ejects;
use epl_syntax::Types;
use invocation::Calls;
use journal::{Event, StartEnd};
use passive_store::Store;
use std::alloc::{AllocError, Global};

/// The types of a script, as what starts an Eject from a representation.
#[derive(Drop)]
struct Kinds<'a> {
    types: &'a Types,
}

impl Starter for Kinds<'_> {
    type Started = Begun;

    ghost types = { λ kinds. types_in kinds.types.now };

    ghost started = { λ kinds. begun_as kinds.types.now };

    fn start(&self, alloc: Global, rep: Rep, me: Uid) -> Result<Option<Begun>, AllocError> {
        edentypes::start_from(alloc, self.types, &rep, me)
    }
}

// Whether the node goes on behind an activation.
fn end_behind(end: StartEnd) -> TurnEnd
    ensures { result ≡ behind_start end }
{
    match end {
        StartEnd::Ok => TurnEnd::Up,
        StartEnd::Gone => TurnEnd::Up,
        StartEnd::Fault => TurnEnd::Up,
        StartEnd::Damaged => TurnEnd::Up,
        StartEnd::Stop => TurnEnd::Down,
    }
}

// The Ejects behind a settling, by what is kept then of the one that was in doubt.
fn settle_ejects<St: Store>(ejects: &mut Ejects, store: &St, settled: Option<Settled>)
    ensures stands { IsTrue St.Device.tells → (ts : TypeList) (s : Site) → Stands (parts_of ts ejects.old) s
        → IfSome settled (λ x. SettlesAt x.uid (is_some (body_at (St.seen store.now).kept x.uid)) x.pick s)
        → Stands (parts_of ts ejects.new) (settled_by (pick_of settled) s) }
    ensures bodies { (ts : TypeList) (v : Name) → part_at (parts_of ts ejects.new) v ≡ part_at (parts_of ts ejects.old) v }
{
    match settled {
        None => {}
        Some(found) => ejects.settles(found.uid, store.holds(found.uid)),
    }
}

// The Eject starts, or its queue is answered, behind the settling.
fn activation_ends(
    alloc: Global,
    types: &Types,
    calls: &mut Calls,
    ejects: &mut Ejects,
    uid: Uid,
    start: Start<Begun>,
) -> Result<StartEnd, AllocError>
    requires { (ts : TypeList) → part_at (parts_of ts ejects.old) uid ≡ None }
    ensures how { IfOk result (λ how. how ≡ end_of_start start) }
    ensures calls { IfOk result (λ how. behind_start how ≡ Down → calls.new ≡ calls.old) }
    ensures turn { IfOk result (λ how. (reach : ℕ → Bool) (s : Site) (p : Option Pick) → IsSoundSite s → behind_start how ≡ Up
        → AllowsAt s (event.Activate uid how p) → IfSome (values_of (begun_as types.now) start) (StartsWith s uid p)
        → IsAt (parts_of types.now ejects.old) calls.old (start_settled p s)
        → IsAt (parts_of types.now ejects.new) calls.new (site_turn reach (event.Activate uid how p) s)) }
    ensures asks { OnOk result (AsksNone calls.old calls.new) }
{
    match start {
        Start::Values { start } => {
            ejects.wake(alloc, types, calls, uid, &start)?;
            Ok(StartEnd::Ok)
        }
        Start::Gone => {
            ejects.turn_away(alloc, calls, uid, Status::Gone)?;
            Ok(StartEnd::Gone)
        }
        Start::Fault => {
            ejects.turn_away(alloc, calls, uid, Status::StoreFault)?;
            Ok(StartEnd::Fault)
        }
        Start::Damaged => {
            ejects.turn_away(alloc, calls, uid, Status::Damaged)?;
            Ok(StartEnd::Damaged)
        }
        Start::Stopped => Ok(StartEnd::Stop),
    }
}

impl<St: Store> Node<St> {
    /// A passive Eject that has queued calls, and on which the store does not work, is activated: a doubt whose request has ended is
    /// settled, what is kept is read, and the Eject starts from it, or its queue is answered. Where the disk stops the node is down,
    /// and is to be closed.
    ///
    /// For want of memory the device calls may have been made, and the node is not to go on.
    pub fn activate(
        &mut self,
        alloc: Global,
        types: &Types,
        calls: &mut Calls,
        uid: Uid,
    ) -> Result<(Event, TurnEnd), AllocError>
        requires whole { IsWhole (held St.seen self.old) }
        requires may { MayActivate types.now (held St.seen self.old) uid }
        ensures whole { IfOk result (λ r. IsWholeBehind r.1 (held St.seen self.new)) }
        ensures number { self.new.number ≡ self.old.number }

        // No call knows yet of a disk that stopped.
        ensures calls { IfOk result (λ r. r.1 ≡ Down → calls.new ≡ calls.old) }
        ensures event { IfOk result (λ r.
            IsActivation uid (St.seen self.old.store).disk.counts (St.seen self.new.store).disk.counts r.0) }
        ensures of_node { IfOk result (λ r. shown_of r.0 ≡ self.old.number) }

        // Down comes exactly where the disk's count of stops rose, whatever the disk tells.
        ensures stops { IfOk result (λ r. StopsBy r.1 (St.seen self.old.store).disk.counts (St.seen self.new.store).disk.counts) }

        // It makes device calls exactly where the activation of the node does.
        ensures touches { IsTrue St.Device.tells → ReadsByCalls St.layout → IfOk result (λ r. (s : Site)
            → NodeStands St.layout types.now (held St.seen self.old) calls.old s
            → Touches (touches_start s uid) (St.seen self.old.store).disk.counts (St.seen self.new.store).disk.counts (call_of_event r.0)) }

        // What it shows of the disk was due, where that obeys.
        ensures shows { IfOk result (λ r.
            ShowsCounts St.Device.obeys self.old.number r.0 (St.seen self.old.store).disk (St.seen self.new.store).disk) }
        ensures left { OnErr result (IsLeftOf St.Device.obeys (St.seen self.old.store).disk (St.seen self.new.store).disk) }

        // The room is told for as many changes as before.
        ensures more { (St.seen self.new.store).more ≡ (St.seen self.old.store).more }
        ensures turn { IsTrue St.Device.tells → IsLayout St.layout → IfOk result (λ r. (reach : ℕ → Bool) (s : Site) → IsSoundSite s
            → NodeStands St.layout types.now (held St.seen self.old) calls.old s
            → EndsTurn r.1 St.layout types.now (held St.seen self.new) calls.new reach (held St.seen self.old) s r.0) }
        ensures starves { IsTrue St.Device.tells → IsLayout St.layout → IfErr result (λ _. (s : Site)
            → NodeStands St.layout types.now (held St.seen self.old) calls.old s
            → Starves St.layout s (St.seen self.old.store) (St.seen self.new.store)) }
        ensures asks { OnOk result (AsksNone calls.old calls.new) }
    {
        let kinds = Kinds { types };
        let (start, settled) = start_from(alloc, &mut self.store, &kinds, uid)?;
        settle_ejects(&mut self.ejects, &self.store, settled);
        let end = activation_ends(alloc, types, calls, &mut self.ejects, uid, start)?;
        let event = Event::Activate {
            uid,
            end,
            pick: pick_in(settled),
        };
        Ok((event, end_behind(end)))
    }
}
