//! The store takes its turns.
ghost use Rattle.std.specs.Prelude.{◌≡◌, ◌≤◌, ◌+◌, ◌&&◌, ℕ, Bool, None, IfOk, IfErr, IfSome, IsSome, IsTrue, OnOk, OnErr};
ghost use Rattle.std.specs.Prelude.{is_some, length};
ghost use Rattle.epl_syntax.specs.Rules.OfTypes.{TypeList};
ghost use Rattle.invocation.specs.Mail.{Mail};
ghost use Rattle.passive_store.specs.Kept.{body_at};
ghost use Rattle.journal.specs.Sites.{IsSoundSite};
ghost use Rattle.journal.specs.Step.{AllowsAt, site_turn, touches_store};
ghost use Rattle.journal.specs.World.{Site};
ghost use Rattle.journal.specs.declared.event.Event.TheVariants as event;
ghost use Rattle.journal.specs.declared.event.RequestEnd.TheVariants as how_ended;
ghost use Rattle.checkpoint.specs.Asked.{AllOfNode, pick_of};
ghost use Rattle.checkpoint.specs.Queues.{AllAnswerBut};
ghost use Rattle.checkpoint.specs.Touches.{TouchesOnce};
ghost use Rattle.ejects.specs.Counts.{AsksNone};
ghost use Rattle.ejects.specs.Parts.{IsAt};
ghost use Rattle.ejects.specs.Parts.{body_at as part_at};
ghost use Rattle.ejects.specs.StoreEnds.{IsShownAs, IsFirstOf, IsFirst, SettlesAt, takes_eject};
ghost use Rattle.ejects.specs.View.{parts_of};
ghost use Rattle.eden_kernel.specs.DiskTurns.{EndsTurn, IsWholeBehind, IsStoreTurn, shown_as, goes_on, asks_removal, IsFirstAsked};
ghost use Rattle.eden_kernel.specs.DiskTurns.{left_behind, Starves, StopsBy};
ghost use Rattle.eden_kernel.specs.Enabled.{HasRequest};
ghost use Rattle.disk_faults.specs.Elsewhere.{shown_of};
ghost use Rattle.disk_faults.specs.Shows.{IsLeftOf, ShowsCounts};
ghost use Rattle.eden_kernel.specs.Shows.{call_of_event};
ghost use Rattle.eden_kernel.specs.declared.stores.TurnEnd.TheVariants.{Down};
ghost use Rattle.eden_kernel.specs.Stands.{held, IsWhole, NodeStands};

use crate::Node;
use capability::Uid;
use checkpoint::{Request, Settled, StepEnd, StoreEnd, Wish, Worker};
use eden_disk::Disk;
use ejects::Ejects;
use invocation::Calls;
use journal::{Event, RequestEnd};
use passive_store::{Pick, Store};
use std::alloc::{AllocError, Global};

/// Whether a node goes on behind a turn in which it called its disk.
#[derive(Clone, Copy, Debug, PartialEq, Eq)]
pub enum TurnEnd {
    /// It goes on.
    Up,
    /// Its disk stopped: the node is down, and is to be closed.
    Down,
}

// The Eject of the first request.
fn first_uid(worker: &Worker) -> Option<Uid>
    ensures first { IfSome result (λ u. IsFirstAsked worker.now.requests.items u) }
    ensures some { 1 ≤ length worker.now.requests.items → IsSome result }
{
    match worker.requests.front() {
        Some(request) => Some(request.uid),
        None => None,
    }
}

// Whether nothing is to be kept.
fn is_removal(wish: &Wish) -> bool
    ensures { result ≡ asks_removal wish.now }
{
    match wish {
        Wish::Put { body: _ } => false,
        Wish::Delete => true,
    }
}

// How the event shows the end of a request.
fn end_shown(end: StoreEnd) -> RequestEnd
    ensures { result ≡ shown_as end }
{
    match end {
        StoreEnd::Done => RequestEnd::Done,
        StoreEnd::Full => RequestEnd::Full,
        StoreEnd::Fault => RequestEnd::Fault,
        StoreEnd::Stopped => RequestEnd::Stop,
    }
}

// Whether the node goes on behind the end of a request.
fn is_up_behind(end: StoreEnd) -> bool
    ensures { result ≡ goes_on end }
{
    match end {
        StoreEnd::Done => true,
        StoreEnd::Full => true,
        StoreEnd::Fault => true,
        StoreEnd::Stopped => false,
    }
}

// Whether the end of a request takes the Eject with it.
fn is_removed(wish: &Wish, end: StoreEnd) -> bool
    ensures { result ≡ takes_eject (asks_removal wish.now) end }
{
    match end {
        StoreEnd::Done => is_removal(wish),
        StoreEnd::Full => false,
        StoreEnd::Fault => false,
        StoreEnd::Stopped => false,
    }
}

// Which state a settling found.
pub(crate) fn pick_in(settled: Option<Settled>) -> Option<Pick>
    ensures { result ≡ pick_of settled }
{
    match settled {
        None => None,
        Some(found) => Some(found.pick),
    }
}

// The event of a turn.
fn turn_of<St: Store>(store: &St, uid: Uid, end: RequestEnd, pick: Option<Pick>) -> Event
    ensures { result ≡ event.Store uid (St.seen store.now).disk.counts.clock end pick }
{
    Event::Store {
        uid,
        clock: store.disk().clock(),
        end,
        pick,
    }
}

// The first request goes on. A settling before it may have found what is kept of the Eject that was in doubt.
fn request_goes<St: Store>(ejects: &mut Ejects, store: &St, uid: Uid, settled: Option<Settled>)
    ensures { IsTrue St.Device.tells → (ts : TypeList) (m : Mail) (reach : ℕ → Bool) (clock : ℕ) (s : Site)
        → IsSoundSite s → IsAt (parts_of ts ejects.old) m s → IsFirstOf uid s
        → IfSome settled (λ x. SettlesAt x.uid (is_some (body_at (St.seen store.now).kept x.uid)) x.pick s)
        → AllowsAt s (event.Store uid clock how_ended.Part (pick_of settled))
        → IsAt (parts_of ts ejects.new) m (site_turn reach (event.Store uid clock how_ended.Part (pick_of settled)) s) }
{
    match settled {
        None => {}
        Some(found) => {
            ejects.settles(found.uid, store.holds(found.uid));
        }
    }
}

// The first request ended, and the node goes on. The requests of an Eject that goes with its active part go too.
fn request_ends(
    alloc: Global,
    ejects: &mut Ejects,
    worker: &mut Worker,
    calls: &mut Calls,
    request: &Request,
    end: StoreEnd,
) -> Result<(), AllocError>
    ensures ends { OnOk result ((ts : TypeList) (reach : ℕ → Bool) (clock : ℕ) (s : Site) → IsSoundSite s
        → IsAt (parts_of ts ejects.old) calls.old s → IsFirst request.now.uid request.now.process (asks_removal request.now.wish) s
        → IsShownAs end (shown_as end) → AllowsAt s (event.Store request.now.uid clock (shown_as end) None)
        → IsAt (parts_of ts ejects.new) calls.new (site_turn reach (event.Store request.now.uid clock (shown_as end) None) s)) }
    ensures requests { OnOk result ((ts : TypeList) → worker.new.requests.items ≡ left_behind
        (takes_eject (asks_removal request.now.wish) end && is_some (part_at (parts_of ts ejects.old) request.now.uid))
        worker.old.begun request.now.uid worker.old.requests.items) }
    ensures begun { worker.new.begun ≡ worker.old.begun }
    ensures of_node { (n : ℕ) → AllOfNode n worker.old.requests.items → AllOfNode n worker.new.requests.items }
    ensures answers { AllAnswerBut worker.old.begun worker.old.requests.items → AllAnswerBut worker.new.begun worker.new.requests.items }
    ensures asks { OnOk result (AsksNone calls.old calls.new) }
{
    let removed = is_removed(&request.wish, end);
    let active = ejects.is_active(request.uid);
    ejects.store_ends(
        alloc,
        calls,
        request.uid,
        request.process,
        is_removal(&request.wish),
        end,
    )?;
    if removed && active {
        worker.drop_requests(request.uid);
    }
    Ok(())
}

impl<St: Store> Node<St> {
    /// The store makes at most one device call of its first request, or of the settling before it. Where the disk stops the node is
    /// down, and is to be closed.
    ///
    /// For want of memory the call may have been made, and the node is not to go on.
    pub fn store_turn(
        &mut self,
        alloc: Global,
        calls: &mut Calls,
    ) -> Result<(Event, TurnEnd), AllocError>
        requires whole { IsWhole (held St.seen self.old) }
        requires pending { HasRequest (held St.seen self.old) }
        ensures whole { IfOk result (λ r. IsWholeBehind r.1 (held St.seen self.new)) }
        ensures number { self.new.number ≡ self.old.number }

        // No call knows yet of a disk that stopped.
        ensures calls { IfOk result (λ r. r.1 ≡ Down → calls.new ≡ calls.old) }
        ensures event { IfOk result (λ r.
            IsStoreTurn (St.seen self.old.store).disk.counts (St.seen self.new.store).disk.counts r.0) }
        ensures of_node { IfOk result (λ r. shown_of r.0 ≡ self.old.number) }

        // Down comes exactly where the disk's count of stops rose, whatever the disk tells.
        ensures stops { IfOk result (λ r. StopsBy r.1 (St.seen self.old.store).disk.counts (St.seen self.new.store).disk.counts) }

        // It makes its device call exactly where the turn of the node's store does.
        ensures touches { IsTrue St.Device.tells → IfOk result (λ r. (ts : TypeList) (s : Site) → 1 ≤ (St.seen self.old.store).more
            → NodeStands St.layout ts (held St.seen self.old) calls.old s
            → TouchesOnce (touches_store s) (St.seen self.old.store).disk.counts (St.seen self.new.store).disk.counts (call_of_event r.0)) }

        // What it shows of the disk was due, where that obeys.
        ensures shows { IfOk result (λ r.
            ShowsCounts St.Device.obeys self.old.number r.0 (St.seen self.old.store).disk (St.seen self.new.store).disk) }
        ensures left { OnErr result (IsLeftOf St.Device.obeys (St.seen self.old.store).disk (St.seen self.new.store).disk) }
        ensures more { IsTrue St.Device.tells → IfOk result (λ r. (ts : TypeList) (s : Site) → 1 ≤ (St.seen self.old.store).more
            → NodeStands St.layout ts (held St.seen self.old) calls.old s
            → (St.seen self.old.store).more ≤ (St.seen self.new.store).more + 1) }
        ensures turn { IsTrue St.Device.tells → IfOk result (λ r. (ts : TypeList) (reach : ℕ → Bool) (s : Site) → IsSoundSite s
            → 1 ≤ (St.seen self.old.store).more → NodeStands St.layout ts (held St.seen self.old) calls.old s
            → EndsTurn r.1 St.layout ts (held St.seen self.new) calls.new reach (held St.seen self.old) s r.0) }
        ensures starves { IsTrue St.Device.tells → IfErr result (λ _. (ts : TypeList) (s : Site) → 1 ≤ (St.seen self.old.store).more
            → NodeStands St.layout ts (held St.seen self.old) calls.old s
            → Starves St.layout s (St.seen self.old.store) (St.seen self.new.store)) }
        ensures asks { OnOk result (AsksNone calls.old calls.new) }
    {
        let Some(uid) = first_uid(&self.worker) else {
            unreachable!()
        };
        match self.worker.step(alloc, &mut self.store)? {
            StepEnd::Going { settled } => {
                request_goes(&mut self.ejects, &self.store, uid, settled);
                let event = turn_of(&self.store, uid, RequestEnd::Part, pick_in(settled));
                Ok((event, TurnEnd::Up))
            }
            StepEnd::Ended { request, end } => {
                if !is_up_behind(end) {
                    let event = turn_of(&self.store, request.uid, RequestEnd::Stop, None);
                    return Ok((event, TurnEnd::Down));
                }
                let worker = &mut self.worker;
                request_ends(alloc, &mut self.ejects, worker, calls, &request, end)?;
                let event = turn_of(&self.store, request.uid, end_shown(end), None);
                Ok((event, TurnEnd::Up))
            }
        }
    }
}
