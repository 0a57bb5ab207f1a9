//! An activation: what is kept of an Eject is read, and an Eject starts from it.
ghost use Rattle.std.specs.Prelude.{◌≡◌, ◌≢◌, ◌⊎◌, List, Bool, Option, IsTrue, IfOk, IfErr, IfSome, OnOk, is_some, Err};
ghost use Rattle.std.specs.Option.{option_map};
ghost use Rattle.eden_value.specs.Datum.{Datum};
ghost use Rattle.eden_codec.specs.Form.{IsRep};
ghost use Rattle.epl_syntax.specs.Edentype.{Edentype};
ghost use Rattle.epl_syntax.specs.Meaning.{started_from};
ghost use Rattle.passive_store.specs.declared.store.StoreRefusal.TheVariants.{OutOfMemory};
ghost use Rattle.passive_store.specs.Kept.{is_unsettled, is_busy, unsure_in, worked_on, end_of_store, IsDiskRefusal, body_at};
ghost use Rattle.passive_store.specs.Layout.{IsLayout};
ghost use Rattle.journal.specs.World.{Site, StoreRequest};
ghost use Rattle.journal.specs.Settling.{epoch_uid};
ghost use Rattle.journal.specs.Starts.{start_of};
ghost use Rattle.checkpoint.specs.Asked.{StandsNow, pick_of, IsOfDoubted};
ghost use Rattle.checkpoint.specs.Calls.{MakesCalls};
ghost use Rattle.checkpoint.specs.Touches.{Touches, ReadsByCalls, calls_to_start, StartTouches, ObeyedIn, RaisesClock};
ghost use Rattle.checkpoint.specs.Starting.{SettlesTo, ReadsTo, FindsTo, IsShort, FindsShort, call_of_finding, StartsTo, StartsNot};
ghost use Rattle.checkpoint.specs.Starting.{call_of_find, call_of_start};
ghost use Rattle.checkpoint.specs.Starting.{end_of_start, values_of, call_of_starting, picks_in};

use crate::Settled;
use crate::worker::found_of;
use capability::{Body, Uid};
use eden_codec::{DecodeRefusal, Rep, decode_rep};
use passive_store::{Store, StoreRefusal};
use std::alloc::{AllocError, Global};

/// The types of which there may be Ejects, as what starts one from a representation.
pub trait Starter {
    /// An Eject that starts: its type and its durable values.
    type Started: Drop;

    /// The types, in order.
    ghost types: { Self → List Edentype };

    /// What is seen of an Eject that starts, by these types.
    ghost started: { Self → Self.Started → Edentype × List Datum };

    /// The type and the durable values with which an Eject starts from a representation, or None where it fits none of
    /// the types.
    fn start(&self, alloc: Global, rep: Rep, me: Uid) -> Result<Option<Self::Started>, AllocError>
        requires { IsRep rep }
        ensures { IfOk result (λ found. option_map (started self.now) found ≡ started_from (types self.now) rep me) };
}

/// How an activation ended.
#[derive(Drop)]
pub enum Start<S> {
    /// What is kept spells a representation that fits: the Eject starts with these values.
    Values { start: S },
    /// Nothing is kept.
    Gone,
    /// A device call failed.
    Fault,
    /// What is kept spells no representation that fits.
    Damaged,
    /// The disk stopped in a device call.
    Stopped,
}

/// What is kept of an Eject, or why it was not read.
#[derive(Drop)]
enum Find {
    Bytes { body: Body },
    Nothing,
    Fault,
    Stopped,
}

// Settles the doubt, if there is one to settle.
fn settle_first<St: Store>(store: &mut St) -> Result<Option<Settled>, StoreRefusal>
    requires power { IsTrue (St.seen store.old).disk.counts.power }
    ensures node { (St.seen store.new).node ≡ (St.seen store.old).node }
    ensures more { (St.seen store.new).more ≡ (St.seen store.old).more }
    ensures only { IfErr result IsDiskRefusal }
    ensures settled { OnOk result (is_unsettled (St.seen store.new).work ≡ Bool.false) }
    ensures busy { is_busy (St.seen store.new).work ≡ is_busy (St.seen store.old).work }
    ensures other { worked_on (St.seen store.new).work ≡ worked_on (St.seen store.old).work }
    ensures calls { MakesCalls (St.seen store.old).disk.counts (St.seen store.new).disk.counts (end_of_store result) }
    ensures touches { Touches (is_unsettled (St.seen store.old).work) (St.seen store.old).disk.counts (St.seen store.new).disk.counts
        (end_of_store result) }
    ensures obeyed { ObeyedIn St.Device.obeys (St.seen store.old).disk (St.seen store.new).disk (end_of_store result) }
    ensures raises { RaisesClock (end_of_store result) (St.seen store.old).disk.counts.clock (St.seen store.new).disk.counts.clock }
    ensures still { IsTrue St.Device.tells → is_unsettled (St.seen store.old).work ≡ Bool.false
        → (St.seen store.new).kept ≡ (St.seen store.old).kept }
    ensures settles { IsTrue St.Device.tells → (s : Site) (requests : List StoreRequest)
        → StandsNow St.layout (St.seen store.old).node s requests (St.seen store.old)
        → SettlesTo St.layout (St.seen store.old).node s requests (St.seen store.old) (picks_in result) (St.seen store.new) }
    ensures whose { IfOk result (λ r. IsOfDoubted (unsure_in (St.seen store.old).work) r) }
{
    let doubted = store.unsure();
    match store.settle() {
        Ok(()) => Ok(found_of(doubted, store.picked())),
        Err(refusal) => Err(refusal),
    }
}

// Reads what is kept.
fn read_kept<St: Store>(
    alloc: Global,
    store: &mut St,
    uid: Uid,
) -> Result<Option<Body>, StoreRefusal>
    requires power { IsTrue (St.seen store.old).disk.counts.power }
    requires settled { is_unsettled (St.seen store.old).work ≡ Bool.false }
    requires other { worked_on (St.seen store.old).work ≢ Option.Some uid }
    ensures node { (St.seen store.new).node ≡ (St.seen store.old).node }
    ensures more { (St.seen store.new).more ≡ (St.seen store.old).more }
    ensures only { IfErr result (λ e. IsDiskRefusal e ⊎ (e ≡ OutOfMemory)) }
    ensures work { (St.seen store.new).work ≡ (St.seen store.old).work }
    ensures calls { MakesCalls (St.seen store.old).disk.counts (St.seen store.new).disk.counts (end_of_store result) }
    ensures touches { IsTrue St.Device.tells → ReadsByCalls St.layout → result ≢ Err OutOfMemory
        → Touches (is_some (body_at (St.seen store.old).kept uid)) (St.seen store.old).disk.counts (St.seen store.new).disk.counts
        (end_of_store result) }
    ensures obeyed { ObeyedIn St.Device.obeys (St.seen store.old).disk (St.seen store.new).disk (end_of_store result) }
    ensures raises { RaisesClock (end_of_store result) (St.seen store.old).disk.counts.clock (St.seen store.new).disk.counts.clock }
    ensures short { IsTrue St.Device.tells → IsLayout St.layout → IfOk result (λ found. (t : Site) (requests : List StoreRequest)
        → StandsNow St.layout (St.seen store.old).node t requests (St.seen store.old) → IfSome found IsShort) }
    ensures reads { IsTrue St.Device.tells → uid ≢ epoch_uid (St.seen store.old).node → (t : Site) (requests : List StoreRequest)
        → StandsNow St.layout (St.seen store.old).node t requests (St.seen store.old)
        → ReadsTo St.layout (St.seen store.old).node t requests uid (St.seen store.old) result (St.seen store.new) }
{
    if !store.holds(uid) {
        return Ok(None);
    }
    match store.get(alloc, uid) {
        Ok(found) => Ok(found),
        Err(refusal) => Err(refusal),
    }
}

// What is kept of an Eject on which the store does not work, and what a settling before the read found.
fn find_kept<St: Store>(
    alloc: Global,
    store: &mut St,
    uid: Uid,
) -> Result<(Find, Option<Settled>), AllocError>
    requires power { IsTrue (St.seen store.old).disk.counts.power }
    requires other { worked_on (St.seen store.old).work ≢ Option.Some uid }
    ensures node { (St.seen store.new).node ≡ (St.seen store.old).node }
    ensures more { (St.seen store.new).more ≡ (St.seen store.old).more }
    ensures busy { is_busy (St.seen store.new).work ≡ is_busy (St.seen store.old).work }
    ensures worked { worked_on (St.seen store.new).work ≡ worked_on (St.seen store.old).work }
    ensures calls { MakesCalls (St.seen store.old).disk.counts (St.seen store.new).disk.counts (call_of_finding result) }
    ensures touches { IsTrue St.Device.tells → ReadsByCalls St.layout → IfOk result (λ r.
        Touches (calls_to_start (St.seen store.old).work (St.seen store.old).kept uid)
        (St.seen store.old).disk.counts (St.seen store.new).disk.counts (call_of_find r.0)) }
    ensures obeyed { ObeyedIn St.Device.obeys (St.seen store.old).disk (St.seen store.new).disk (call_of_finding result) }
    ensures raises { RaisesClock (call_of_finding result) (St.seen store.old).disk.counts.clock (St.seen store.new).disk.counts.clock }
    ensures short { IsTrue St.Device.tells → IsLayout St.layout → IfOk result (λ r. (s : Site) (requests : List StoreRequest)
        → StandsNow St.layout (St.seen store.old).node s requests (St.seen store.old) → FindsShort r.0) }
    ensures finds { IsTrue St.Device.tells → uid ≢ epoch_uid (St.seen store.old).node
        → IfOk result (λ r. (s : Site) (requests : List StoreRequest)
        → StandsNow St.layout (St.seen store.old).node s requests (St.seen store.old)
        → FindsTo St.layout (St.seen store.old).node s requests uid (St.seen store.old) r.0 (pick_of r.1) (St.seen store.new)) }
    ensures whose { IfOk result (λ r. IsOfDoubted (unsure_in (St.seen store.old).work) r.1) }
    ensures none { IsTrue St.Device.tells → uid ≢ epoch_uid (St.seen store.old).node
        → IfErr result (λ r. (s : Site) (requests : List StoreRequest)
        → StandsNow St.layout (St.seen store.old).node s requests (St.seen store.old)
        → StartsNot St.layout (St.seen store.old).node s requests (St.seen store.old) (St.seen store.new)) }
{
    match settle_first(store) {
        Err(StoreRefusal::Stopped) => Ok((Find::Stopped, None)),
        Err(StoreRefusal::Failed) => Ok((Find::Fault, None)),
        Err(_) => unreachable!(),
        Ok(settled) => match read_kept(alloc, store, uid) {
            Ok(Some(body)) => Ok((Find::Bytes { body }, settled)),
            Ok(None) => Ok((Find::Nothing, settled)),
            Err(StoreRefusal::Stopped) => Ok((Find::Stopped, settled)),
            Err(StoreRefusal::Failed) => Ok((Find::Fault, settled)),
            Err(StoreRefusal::OutOfMemory) => Err(AllocError),
            Err(_) => unreachable!(),
        },
    }
}

// What starts from the bytes that are kept.
fn start_kept<T: Starter>(
    alloc: Global,
    types: &T,
    body: Body,
    me: Uid,
) -> Result<Option<T::Started>, AllocError>
    ensures { IsShort body → IfOk result (λ found. option_map (T.started types.now) found ≡ start_of (T.types types.now) body me) }
{
    match decode_rep(alloc, body.as_slice()) {
        Ok(rep) => types.start(alloc, rep, me),
        Err(DecodeRefusal::TooLarge) => Ok(None),
        Err(DecodeRefusal::NotRep { place: _ }) => Ok(None),
        Err(DecodeRefusal::OutOfMemory) => Err(AllocError),
    }
}

/// Activates an Eject on which the store does not work: settles a doubt whose request has ended, reads what is kept,
/// and starts from it. The second part of the answer is what the settling found, and of which Eject.
///
/// The want of memory comes behind the settling.
pub fn start_from<St: Store, T: Starter>(
    alloc: Global,
    store: &mut St,
    types: &T,
    uid: Uid,
) -> Result<(Start<T::Started>, Option<Settled>), AllocError>
    requires power { IsTrue (St.seen store.old).disk.counts.power }
    requires other { worked_on (St.seen store.old).work ≢ Option.Some uid }
    ensures node { (St.seen store.new).node ≡ (St.seen store.old).node }

    // The room is told for as many changes as before.
    ensures more { (St.seen store.new).more ≡ (St.seen store.old).more }

    // A job that goes on is not touched.
    ensures busy { is_busy (St.seen store.new).work ≡ is_busy (St.seen store.old).work }
    ensures worked { worked_on (St.seen store.new).work ≡ worked_on (St.seen store.old).work }
    ensures calls { MakesCalls (St.seen store.old).disk.counts (St.seen store.new).disk.counts (call_of_starting result) }

    // It makes device calls exactly where that activation does.
    ensures touches { IsTrue St.Device.tells → ReadsByCalls St.layout → uid ≢ epoch_uid (St.seen store.old).node
        → IfOk result (λ r. StartTouches St.layout uid (St.seen store.old) (St.seen store.new) (call_of_start (end_of_start r.0))) }

    // Where the disk obeys, what it was refused was due.
    ensures obeyed { ObeyedIn St.Device.obeys (St.seen store.old).disk (St.seen store.new).disk (call_of_starting result) }
    ensures raises { RaisesClock (call_of_starting result) (St.seen store.old).disk.counts.clock (St.seen store.new).disk.counts.clock }
    ensures starts { IsTrue St.Device.tells → IsLayout St.layout → uid ≢ epoch_uid (St.seen store.old).node
        → IfOk result (λ r. (s : Site) (requests : List StoreRequest) → s.types ≡ T.types types.now
        → StandsNow St.layout (St.seen store.old).node s requests (St.seen store.old)
        → StartsTo St.layout (St.seen store.old).node s requests uid (St.seen store.old) (end_of_start r.0)
        (values_of (T.started types.now) r.0) (pick_of r.1) (St.seen store.new)) }

    // What the settling found is told of the Eject that was in doubt.
    ensures whose { IfOk result (λ r. IsOfDoubted (unsure_in (St.seen store.old).work) r.1) }
    ensures none { IsTrue St.Device.tells → uid ≢ epoch_uid (St.seen store.old).node
        → IfErr result (λ r. (s : Site) (requests : List StoreRequest)
        → StandsNow St.layout (St.seen store.old).node s requests (St.seen store.old)
        → StartsNot St.layout (St.seen store.old).node s requests (St.seen store.old) (St.seen store.new)) }
{
    let (found, settled) = find_kept(alloc, store, uid)?;
    match found {
        Find::Bytes { body } => match start_kept(alloc, types, body, uid)? {
            Some(start) => Ok((Start::Values { start }, settled)),
            None => Ok((Start::Damaged, settled)),
        },
        Find::Nothing => Ok((Start::Gone, settled)),
        Find::Fault => Ok((Start::Fault, settled)),
        Find::Stopped => Ok((Start::Stopped, settled)),
    }
}
