//! The requests of a node that wait for its store, and the steps by which they are carried out.
ghost use Rattle.std.specs.Prelude.{◌≡◌, ◌≤◌, ◌↔◌, ◌++◌, ◌∷◌, [], ℕ, Bool, IsTrue, IfOk, IfErr, OnErr, MatchResult, length, is_some, ◌||◌};
ghost use Rattle.std.specs.Prelude.{Option, Some, None};
ghost use Rattle.eden_disk.specs.Calls.{DeviceCalls};
ghost use Rattle.passive_store.specs.Kept.{is_busy, is_unsettled, unsure_in, body_at, Idle, IsDiskRefusal};
ghost use Rattle.passive_store.specs.Seen.{Begins};
ghost use Rattle.checkpoint.specs.Queues.{put_of, removal_of, left_in, AllAnswerBut};
ghost use Rattle.checkpoint.specs.StoreCalls.{end_of_refusal, Stays};
ghost use Rattle.checkpoint.specs.Asked.{ask_of, body_asked, IsOfNode, AllOfNode, TakesStep, MakesCall, EndsFirst, EndsJob, QueueGoes};
ghost use Rattle.checkpoint.specs.Asked.{KeepsPower, OneCall, end_of_step, pick_of, IsOfDoubted, StaysBegun, TellsWhose};
ghost use Rattle.checkpoint.specs.Touches.{StepTouches, ObeyedIn, RaisesClock};

use capability::{Body, Uid};
use eden_disk::Disk;
use passive_store::{Pick, Progress, Store, StoreRefusal};
use std::alloc::{AllocError, Global};
use std::collections::VecDeque;

/// What a request asks of the store.
#[derive(Drop)]
pub enum Wish {
    /// These bytes are to be kept.
    Put { body: Body },
    /// Nothing is to be kept.
    Delete,
}

/// A request of a process of an Eject; one whose process is gone answers none.
#[derive(Drop)]
pub struct Request {
    /// The Eject.
    pub uid: Uid,
    /// The process that waits for its end.
    pub process: Option<u8>,
    /// What is asked.
    pub wish: Wish,
}

/// How a request ended.
#[derive(Clone, Copy, Debug, PartialEq, Eq)]
pub enum StoreEnd {
    /// It is done.
    Done,
    /// There is no room for it.
    Full,
    /// A device call failed.
    Fault,
    /// The disk stopped in a device call.
    Stopped,
}

/// What a settling found.
#[derive(Clone, Copy, Debug, PartialEq, Eq)]
pub struct Settled {
    /// The Eject whose change was in doubt.
    pub uid: Uid,
    /// The state that is there: the one before the change, or the one behind it.
    pub pick: Pick,
}

/// What one step did.
#[derive(Drop)]
pub enum StepEnd {
    /// The first request goes on, and a settling before it may have found its state.
    Going { settled: Option<Settled> },
    /// The first request ended.
    Ended { request: Request, end: StoreEnd },
}

/// The requests that wait, in their order.
#[derive(Drop)]
pub struct Worker {
    /// The first is carried out first.
    pub requests: VecDeque<Request>,
    /// The job of the first was begun.
    pub begun: bool,
}

impl Worker {
    /// No request waits.
    pub fn new(alloc: Global) -> Worker
        ensures requests { result.requests.items ≡ [] }
        ensures begun { result.begun ≡ Bool.false }
    {
        Worker {
            requests: VecDeque::new(alloc),
            begun: false,
        }
    }

    /// Whether a request waits.
    pub fn pending(&self) -> bool
        ensures { IsTrue result ↔ (1 ≤ length self.now.requests.items) }
    {
        !self.requests.is_empty()
    }

    /// A process of an Eject asks that these bytes are kept of it. Where there is no memory, nothing has changed.
    pub fn ask_put(&mut self, uid: Uid, process: u8, body: Body) -> Result<(), AllocError>
        ensures requests { MatchResult result (λ _. self.new.requests.items ≡ self.old.requests.items ++ put_of uid process body ∷ [])
            (λ _. self.new.requests.items ≡ self.old.requests.items) }
        ensures begun { self.new.begun ≡ self.old.begun }
        ensures of_node { (n : ℕ) → IsOfNode n (put_of uid process body) → AllOfNode n self.old.requests.items
            → AllOfNode n self.new.requests.items }
        ensures answers { AllAnswerBut self.old.begun self.old.requests.items → AllAnswerBut self.new.begun self.new.requests.items }
    {
        self.ask(Request {
            uid,
            process: Some(process),
            wish: Wish::Put { body },
        })
    }

    /// A process of an Eject asks that nothing is kept of it. Where there is no memory, nothing has changed.
    pub fn ask_delete(&mut self, uid: Uid, process: u8) -> Result<(), AllocError>
        ensures requests { MatchResult result (λ _. self.new.requests.items ≡ self.old.requests.items ++ removal_of uid process ∷ [])
            (λ _. self.new.requests.items ≡ self.old.requests.items) }
        ensures begun { self.new.begun ≡ self.old.begun }
        ensures of_node { (n : ℕ) → IsOfNode n (removal_of uid process) → AllOfNode n self.old.requests.items
            → AllOfNode n self.new.requests.items }
        ensures answers { AllAnswerBut self.old.begun self.old.requests.items → AllAnswerBut self.new.begun self.new.requests.items }
    {
        self.ask(Request {
            uid,
            process: Some(process),
            wish: Wish::Delete,
        })
    }

    /// The requests of an Eject go with its active part. A job that was begun goes on, and answers no process.
    pub fn drop_requests(&mut self, uid: Uid)
        ensures requests { self.new.requests.items ≡ left_in self.old.begun uid self.old.requests.items }
        ensures begun { self.new.begun ≡ self.old.begun }
        ensures of_node { (n : ℕ) → AllOfNode n self.old.requests.items → AllOfNode n self.new.requests.items }
        ensures answers { AllAnswerBut self.old.begun self.old.requests.items → AllAnswerBut self.new.begun self.new.requests.items }
    {
        if !self.begun {
            self.requests.retain(|request| request.uid != uid);
            return;
        }
        match self.requests.pop_front() {
            None => {}
            Some(mut first) => {
                if first.uid == uid {
                    first.process = None;
                }
                self.requests.retain(|request| request.uid != uid);
                self.requests.push_front_reserved(first);
            }
        }
    }

    // The request is the last.
    fn ask(&mut self, request: Request) -> Result<(), AllocError>
        ensures requests { MatchResult result (λ _. self.new.requests.items ≡ self.old.requests.items ++ request ∷ [])
            (λ _. self.new.requests.items ≡ self.old.requests.items) }
        ensures begun { self.new.begun ≡ self.old.begun }
    {
        match self.requests.push_back(request) {
            Ok(()) => Ok(()),
            Err(_) => Err(AllocError),
        }
    }

    // The first request ends.
    fn end(&mut self, end: StoreEnd) -> StepEnd
        requires { 1 ≤ length self.old.requests.items }
        ensures ended { EndsFirst self.old.requests.items self.new.requests.items end result }
        ensures whose { (doubted : Option Uid) → TellsWhose doubted result }
        ensures begun { self.new.begun ≡ Bool.false }
    {
        self.begun = false;
        match self.requests.pop_front() {
            Some(request) => StepEnd::Ended { request, end },
            None => unreachable!(),
        }
    }

    // Makes the next device call of a settling of what is in doubt of this Eject.
    fn settle<St: Store>(&mut self, store: &mut St, uid: Uid) -> StepEnd
        requires power { IsTrue (St.seen store.old).disk.counts.power }
        requires unsettled { IsTrue (is_unsettled (St.seen store.old).work) }
        requires whose { unsure_in (St.seen store.old).work ≡ Some uid }
        requires some { 1 ≤ length self.old.requests.items }
        requires begun { self.old.begun ≡ is_busy (St.seen store.old).work }
        ensures node { (St.seen store.new).node ≡ (St.seen store.old).node }
        ensures begun { self.new.begun ≡ is_busy (St.seen store.new).work }
        ensures steps { IsTrue St.Device.tells
            → TakesStep St.layout self.old.requests.items (St.seen store.old) self.new.requests.items (St.seen store.new) result }
        ensures whose { TellsWhose (unsure_in (St.seen store.old).work) result }
        ensures queue { QueueGoes self.old.requests.items self.new.requests.items result }
        ensures ended { EndsJob (is_busy (St.seen store.new).work) result }
        ensures power { KeepsPower (St.seen store.new).disk.counts result }
        ensures calls { OneCall (St.seen store.old).disk.counts (St.seen store.new).disk.counts result }
        ensures one { DeviceCalls 1 (St.seen store.old).disk.counts (St.seen store.new).disk.counts (end_of_step result) }
        ensures obeyed { ObeyedIn St.Device.obeys (St.seen store.old).disk (St.seen store.new).disk (end_of_step result) }
    {
        match store.settle_step() {
            Ok(Progress::Going) => StepEnd::Going { settled: None },
            Ok(Progress::Done) => StepEnd::Going {
                settled: found_of(Some(uid), store.picked()),
            },
            Err(refusal) => self.end(end_of(refusal)),
        }
    }

    // Makes the next device call of the job of the first request.
    fn advance<St: Store>(&mut self, store: &mut St) -> StepEnd
        requires power { IsTrue (St.seen store.old).disk.counts.power }
        requires busy { IsTrue (is_busy (St.seen store.old).work) }
        requires some { 1 ≤ length self.old.requests.items }
        ensures node { (St.seen store.new).node ≡ (St.seen store.old).node }
        ensures begun { self.new.begun ≡ is_busy (St.seen store.new).work }
        ensures more { (St.seen store.new).more ≡ (St.seen store.old).more }
        ensures steps { IsTrue St.Device.tells
            → MakesCall St.layout self.old.requests.items (St.seen store.old) self.new.requests.items (St.seen store.new) result }
        ensures whose { (doubted : Option Uid) → TellsWhose doubted result }
        ensures queue { QueueGoes self.old.requests.items self.new.requests.items result }
        ensures ended { EndsJob (is_busy (St.seen store.new).work) result }
        ensures stays { StaysBegun self.new.begun result }
        ensures power { KeepsPower (St.seen store.new).disk.counts result }
        ensures calls { OneCall (St.seen store.old).disk.counts (St.seen store.new).disk.counts result }
        ensures one { DeviceCalls 1 (St.seen store.old).disk.counts (St.seen store.new).disk.counts (end_of_step result) }
        ensures obeyed { ObeyedIn St.Device.obeys (St.seen store.old).disk (St.seen store.new).disk (end_of_step result) }
    {
        match store.advance() {
            Ok(Progress::Going) => {
                self.begun = true;
                StepEnd::Going { settled: None }
            }
            Ok(Progress::Done) => self.end(StoreEnd::Done),
            Err(refusal) => self.end(end_of(refusal)),
        }
    }

    // A request that has not begun its job: it begins one and makes its first call, or needs none, or has no room.
    fn begin<St: Store>(&mut self, alloc: Global, store: &mut St) -> Result<StepEnd, AllocError>
        requires power { IsTrue (St.seen store.old).disk.counts.power }
        requires idle { (St.seen store.old).work ≡ Idle }
        requires some { 1 ≤ length self.old.requests.items }
        requires begun { self.old.begun ≡ Bool.false }
        requires of_node { AllOfNode (St.seen store.old).node self.old.requests.items }
        ensures node { (St.seen store.new).node ≡ (St.seen store.old).node }
        ensures begun { self.new.begun ≡ is_busy (St.seen store.new).work }
        ensures steps { IsTrue St.Device.tells → IfOk result (λ e.
            TakesStep St.layout self.old.requests.items (St.seen store.old) self.new.requests.items (St.seen store.new) e) }
        ensures whose { IfOk result (λ e. (doubted : Option Uid) → TellsWhose doubted e) }
        ensures queue { IfOk result (λ e. QueueGoes self.old.requests.items self.new.requests.items e) }
        ensures ended { IfOk result (λ e. EndsJob (is_busy (St.seen store.new).work) e) }
        ensures power { IfOk result (λ e. KeepsPower (St.seen store.new).disk.counts e) }
        ensures calls { IfOk result (λ e. OneCall (St.seen store.old).disk.counts (St.seen store.new).disk.counts e) }
        ensures touches { IsTrue St.Device.tells → IfOk result (λ e.
            StepTouches St.layout self.old.requests.items (St.seen store.old) (St.seen store.new) e) }
        ensures obeyed { IfOk result (λ e. ObeyedIn St.Device.obeys (St.seen store.old).disk (St.seen store.new).disk (end_of_step e)) }
        ensures raises { IfOk result (λ e.
            RaisesClock (end_of_step e) (St.seen store.old).disk.counts.clock (St.seen store.new).disk.counts.clock) }
        ensures unchanged { OnErr result ((self.new.requests.items ≡ self.old.requests.items)
            × Stays St.Device.tells (St.seen store.old) (St.seen store.new)) }
    {
        match self.requests.front() {
            None => unreachable!(),
            Some(request) => {
                if !needs_calls(store, request) {
                    return Ok(self.end(StoreEnd::Done));
                }
                match begin_job(alloc, store, request) {
                    Ok(()) => Ok(self.advance(store)),
                    Err(StoreRefusal::Full) => Ok(self.end(StoreEnd::Full)),
                    Err(StoreRefusal::OutOfMemory) => Err(AllocError),
                    Err(_) => unreachable!(),
                }
            }
        }
    }

    /// Makes at most one device call of the first request, or of the settling before it.
    ///
    /// Where there is no memory, nothing has changed.
    pub fn step<St: Store>(&mut self, alloc: Global, store: &mut St) -> Result<StepEnd, AllocError>
        requires power { IsTrue (St.seen store.old).disk.counts.power }
        requires some { 1 ≤ length self.old.requests.items }
        requires begun { self.old.begun ≡ is_busy (St.seen store.old).work }
        requires of_node { AllOfNode (St.seen store.old).node self.old.requests.items }
        ensures node { (St.seen store.new).node ≡ (St.seen store.old).node }
        ensures begun { self.new.begun ≡ is_busy (St.seen store.new).work }
        ensures of_node { AllOfNode (St.seen store.new).node self.new.requests.items }

        // It is the turn of the node's store.
        ensures steps { IsTrue St.Device.tells → IfOk result (λ e.
            TakesStep St.layout self.old.requests.items (St.seen store.old) self.new.requests.items (St.seen store.new) e) }

        // What it tells of a settling is told of the Eject that was in doubt.
        ensures whose { IfOk result (λ e. TellsWhose (unsure_in (St.seen store.old).work) e) }
        ensures queue { IfOk result (λ e. QueueGoes self.old.requests.items self.new.requests.items e) }
        ensures ended { IfOk result (λ e. EndsJob (is_busy (St.seen store.new).work) e) }
        ensures stays { IsTrue self.old.begun → IfOk result (λ e. StaysBegun self.new.begun e) }
        ensures power { IfOk result (λ e. KeepsPower (St.seen store.new).disk.counts e) }
        ensures calls { IfOk result (λ e. OneCall (St.seen store.old).disk.counts (St.seen store.new).disk.counts e) }

        // It makes its device call exactly where that turn does.
        ensures touches { IsTrue St.Device.tells → IfOk result (λ e.
            StepTouches St.layout self.old.requests.items (St.seen store.old) (St.seen store.new) e) }

        // Where the disk obeys, what it was refused was due.
        ensures obeyed { IfOk result (λ e. ObeyedIn St.Device.obeys (St.seen store.old).disk (St.seen store.new).disk (end_of_step e)) }
        ensures raises { IfOk result (λ e.
            RaisesClock (end_of_step e) (St.seen store.old).disk.counts.clock (St.seen store.new).disk.counts.clock) }
        ensures unchanged { OnErr result ((self.new.requests.items ≡ self.old.requests.items)
            × Stays St.Device.tells (St.seen store.old) (St.seen store.new)) }
    {
        if self.begun {
            return Ok(self.advance(store));
        }
        if let Some(uid) = store.unsure() {
            return Ok(self.settle(store, uid));
        }
        self.begin(alloc, store)
    }
}

// What a settling found of the Eject that was in doubt. Where none was, nothing was found.
pub(crate) fn found_of(doubted: Option<Uid>, pick: Option<Pick>) -> Option<Settled>
    ensures pick { (doubted ≡ None → pick ≡ None) → pick_of result ≡ pick }
    ensures whose { IsOfDoubted doubted result }
{
    match doubted {
        None => None,
        Some(uid) => match pick {
            None => None,
            Some(pick) => Some(Settled { uid, pick }),
        },
    }
}

// Whether the request needs device calls: a removal of what is not kept needs none.
fn needs_calls<St: Store>(store: &St, request: &Request) -> bool
    ensures { IsTrue St.Device.tells
        → result ≡ (is_some (body_asked request.now.wish) || is_some (body_at (St.seen store.now).kept request.now.uid)) }
{
    match &request.wish {
        Wish::Put { body: _ } => true,
        Wish::Delete => store.holds(request.uid),
    }
}

// Begins the job of the request.
fn begin_job<St: Store>(
    alloc: Global,
    store: &mut St,
    request: &Request,
) -> Result<(), StoreRefusal>
    requires idle { (St.seen store.old).work ≡ Idle }
    requires of_node { IsOfNode (St.seen store.old).node request.now }
    requires needed { IsTrue St.Device.tells
        → IsTrue (is_some (body_asked request.now.wish) || is_some (body_at (St.seen store.old).kept request.now.uid)) }
    ensures { Begins St.Device.tells St.layout (ask_of request.now) result (St.seen store.old) (St.seen store.new) }
{
    match &request.wish {
        Wish::Put { body } => store.begin_put(alloc, request.uid, body.as_slice()),
        Wish::Delete => store.begin_delete(alloc, request.uid),
    }
}

// How a refusal of the disk ends a request.
fn end_of(refusal: StoreRefusal) -> StoreEnd
    requires { IsDiskRefusal refusal }
    ensures { result ≡ end_of_refusal refusal }
{
    match refusal {
        StoreRefusal::Stopped => StoreEnd::Stopped,
        StoreRefusal::Failed => StoreEnd::Fault,
        _ => unreachable!(),
    }
}
