//! A node of the world in which Ejects wander, and how it carries out a call.
ghost use Rattle.std.specs.Prelude.{◌≡◌, ◌≤◌, ◌+◌, ◌⊎◌, Bool, IsTrue, IfOk, IfErr};
ghost use Rattle.std.specs.Prelude.{IfSome, OnOk, MatchResult, Option, Result, Err, is_some, length};
ghost use Rattle.std.specs.Prelude.{if◌then◌else◌};
ghost use Rattle.std.specs.Option.{option_map};
ghost use Rattle.eden_value.specs.Datum.{Datum};
ghost use Rattle.eden_disk.specs.Calls.{calls_until};
ghost use Rattle.passive_store.specs.declared.store.StoreRefusal.{StoreRefusal};
ghost use Rattle.passive_store.specs.Kept.{Idle, is_busy, IsDiskRefusal};
ghost use Rattle.passive_store.specs.Seen.{Arms, Opens, opened, disk_seen, disk_opened};
ghost use Rattle.capability.specs.Uids.{uid_eq};
ghost use Rattle.move_laws.specs.Wander.{Record as AnyRecord, Letter as AnyLetter};
ghost use Rattle.move_laws.specs.World.{Node, Call as AnyCall, Mind as Becomes, Refused, reads, due, Puts, keeping};
ghost use Rattle.eden_move.specs.declared.refusal.MoveRefusal.TheVariants.{OutOfMemory, Stopped, Fault, Full};
ghost use Rattle.eden_move.specs.Records.{seen_record, record_in, record_bytes, is_long, IsRecord};
ghost use Rattle.eden_move.specs.Minds.{remembered, has_place, as_memory, memory_seen};
ghost use Rattle.eden_move.specs.Calls.{refusal_by, seen_refusal, seen_call, seen_due, Finds, IsRead, AnswersFor, KeepsRunning, put_ended};
ghost use Rattle.eden_move.specs.Calls.{IsAnswer, IsKnownBy, ended, end_of};
ghost use Rattle.eden_move.specs.Shown.{IsWanderer, IsOpen, Shows, IsSettled, IsHarmed, Went, Acts, FoundIn, IsFitDue, IsFitMind};
ghost use Rattle.eden_move.specs.Shown.{IsFitCall, Carries, Goes, CallGoes, may_put, is_put, finds_room, HasRoom, room_of_put, KeepsRoom};
ghost use Rattle.eden_move.specs.Shown.{IsFullCall};

use crate::due::{Answer, Call, Due, Found, Memory, due_of, reads};
use crate::mind::Mind;
use crate::record::{Record, bytes_of, record_of};
use crate::refusal::MoveRefusal;
use crate::steps::{key_of, puts_record, reads_kept, settles};
use capability::{Body, Uid};
use eden_codec::EncodeRefusal;
use passive_store::{Store, StoreRefusal};
use std::alloc::Global;

/// A node: a store of records, and what is known in memory.
#[derive(Drop)]
pub struct MoveNode<St: Store> {
    /// The store of its disk.
    pub store: St,
    /// Its number.
    pub number: u8,
    /// What it has in memory of the Ejects that are here.
    pub mind: Mind,
    /// Where memory comes from.
    pub alloc: Global,
}

/// What the bytes say that are kept of an Eject, if any are.
fn found_in(alloc: Global, kept: Option<Body>) -> Result<Found, MoveRefusal>
    ensures read { IfOk result IsRead }
    ensures found { IfOk result (λ found. Finds found (option_map record_in kept)) }
    ensures only { IfErr result (λ e. e ≡ OutOfMemory) }
    ensures running { result ≡ Err Stopped → ⊥ }
{
    let Some(body) = kept else {
        return Ok(Found::Nothing);
    };
    match record_of(alloc, body.as_slice()) {
        Ok(Some(record)) => Ok(Found::Kept { record }),
        Ok(None) => Ok(Found::Spoilt),
        Err(_) => Err(MoveRefusal::OutOfMemory),
    }
}

impl<St: Store> MoveNode<St> {
    /// A device call was refused in a call on this Eject: where it failed, the node forgets what it had in memory of it.
    fn refused(&mut self, uid: Uid, refusal: StoreRefusal) -> MoveRefusal
        ensures is { result ≡ refusal_by refusal }
        ensures store { St.seen self.new.store ≡ St.seen self.old.store }
        ensures number { self.new.number ≡ self.old.number }
        ensures forgets { result ≡ Fault → (q : Uid) → remembered self.new.mind q ≡
            (if uid_eq q uid then Option.None else remembered self.old.mind q) }
        ensures keeps { (result ≡ Fault → ⊥) → (q : Uid) → remembered self.new.mind q ≡ remembered self.old.mind q }
    {
        let refusal = MoveRefusal::from(refusal);
        if refusal == MoveRefusal::Fault {
            self.mind.forget(uid);
        }
        refusal
    }

    /// Settles the doubt, if there is one.
    fn settle(&mut self, uid: Uid) -> Result<(), MoveRefusal>
        requires power { IsTrue (St.seen self.old.store).disk.counts.power }
        requires of { IsOpen self.old.number (St.seen self.old.store) }
        ensures of { IsOpen self.new.number (St.seen self.new.store) }
        ensures node { (St.seen self.new.store).node ≡ (St.seen self.old.store).node }
        ensures power { (result ≡ Err Stopped → ⊥) → IsTrue (St.seen self.new.store).disk.counts.power }
        ensures goes { Goes Bool.true Bool.false Bool.false St.Device.tells St.layout (end_of result)
            (St.seen self.old.store) (St.seen self.new.store) }
        ensures work { OnOk result ((St.seen self.new.store).work ≡ Idle) }
        ensures mind { OnOk result (remembered self.new.mind ≡ remembered self.old.mind) }
        ensures room { IsTrue St.Device.tells → OnOk result (KeepsRoom (St.seen self.old.store) (St.seen self.new.store)) }
        ensures more { (St.seen self.new.store).more ≡ (St.seen self.old.store).more }
        ensures settled { IsTrue St.Device.tells → (x : Node Datum) → Shows (St.seen self.old.store) (remembered self.old.mind) x
            → MatchResult result
            (λ _. IsSettled x (St.seen self.new.store) (remembered self.new.mind))
            (λ e. IsTrue (is_some x.doubt) × IsHarmed uid x e (St.seen self.new.store) (remembered self.new.mind)) }
    {
        match settles(&mut self.store) {
            Ok(()) => Ok(()),
            Err(refusal) => Err(self.refused(uid, refusal)),
        }
    }

    /// Reads the record, if there is one, where nothing is in doubt.
    fn read(&mut self, uid: Uid) -> Result<Found, MoveRefusal>
        requires power { IsTrue (St.seen self.old.store).disk.counts.power }
        requires idle { (St.seen self.old.store).work ≡ Idle }
        requires of { IsOpen self.old.number (St.seen self.old.store) }
        requires wanderer { IsWanderer uid }
        ensures of { IsOpen self.new.number (St.seen self.new.store) }
        ensures node { (St.seen self.new.store).node ≡ (St.seen self.old.store).node }
        ensures power { (result ≡ Err Stopped → ⊥) → IsTrue (St.seen self.new.store).disk.counts.power }
        ensures goes { Goes Bool.false Bool.true Bool.false St.Device.tells St.layout (end_of result)
            (St.seen self.old.store) (St.seen self.new.store) }
        ensures work { OnOk result ((St.seen self.new.store).work ≡ Idle) }
        ensures mind { OnOk result (remembered self.new.mind ≡ remembered self.old.mind) }
        ensures read { IfOk result IsRead }
        ensures room { IsTrue St.Device.tells → OnOk result (KeepsRoom (St.seen self.old.store) (St.seen self.new.store)) }
        ensures more { (St.seen self.new.store).more ≡ (St.seen self.old.store).more }
        ensures found { IsTrue St.Device.tells → (x : Node Datum) → Shows (St.seen self.old.store) (remembered self.old.mind) x
            → MatchResult result
            (λ found. Finds found (x.kept uid) × Shows (St.seen self.new.store) (remembered self.new.mind) x)
            (λ e. ((e ≡ OutOfMemory) × Shows (St.seen self.new.store) (remembered self.new.mind) x)
            ⊎ (IsTrue (is_some (x.kept uid)) × IsHarmed uid x e (St.seen self.new.store) (remembered self.new.mind))) }
    {
        match reads_kept(self.alloc, &mut self.store, self.number, uid) {
            Ok(kept) => found_in(self.alloc, kept),
            Err(refusal) => Err(self.refused(uid, refusal)),
        }
    }

    /// Looks for the record, where nothing is in doubt, and reads it where that is asked.
    fn looks(&mut self, uid: Uid, reading: bool) -> Result<Found, MoveRefusal>
        requires power { IsTrue (St.seen self.old.store).disk.counts.power }
        requires idle { (St.seen self.old.store).work ≡ Idle }
        requires of { IsOpen self.old.number (St.seen self.old.store) }
        requires wanderer { IsWanderer uid }
        ensures of { IsOpen self.new.number (St.seen self.new.store) }
        ensures node { (St.seen self.new.store).node ≡ (St.seen self.old.store).node }
        ensures power { (result ≡ Err Stopped → ⊥) → IsTrue (St.seen self.new.store).disk.counts.power }
        ensures goes { Goes Bool.false reading Bool.false St.Device.tells St.layout (end_of result)
            (St.seen self.old.store) (St.seen self.new.store) }
        ensures work { OnOk result ((St.seen self.new.store).work ≡ Idle) }
        ensures mind { OnOk result (remembered self.new.mind ≡ remembered self.old.mind) }
        ensures read { reading ≡ Bool.true → IfOk result IsRead }
        ensures room { IsTrue St.Device.tells → OnOk result (KeepsRoom (St.seen self.old.store) (St.seen self.new.store)) }
        ensures more { (St.seen self.new.store).more ≡ (St.seen self.old.store).more }
        ensures found { IsTrue St.Device.tells → (x : Node Datum) → Shows (St.seen self.old.store) (remembered self.old.mind) x
            → MatchResult result
            (λ found. Finds found (x.kept uid) × Shows (St.seen self.new.store) (remembered self.new.mind) x)
            (λ e. (reading ≡ Bool.true)
            × (((e ≡ OutOfMemory) × Shows (St.seen self.new.store) (remembered self.new.mind) x)
            ⊎ (IsTrue (is_some (x.kept uid)) × IsHarmed uid x e (St.seen self.new.store) (remembered self.new.mind)))) }
    {
        if !self.store.holds(key_of(self.number, uid)) {
            return Ok(Found::Nothing);
        }
        if reading {
            self.read(uid)
        } else {
            Ok(Found::Unread)
        }
    }

    /// Finds the record of an Eject, once the doubt is settled, and reads it where that is asked.
    fn finds(&mut self, uid: Uid, reading: bool) -> Result<Found, MoveRefusal>
        requires power { IsTrue (St.seen self.old.store).disk.counts.power }
        requires of { IsOpen self.old.number (St.seen self.old.store) }
        requires wanderer { IsWanderer uid }
        ensures of { IsOpen self.new.number (St.seen self.new.store) }
        ensures node { (St.seen self.new.store).node ≡ (St.seen self.old.store).node }
        ensures power { (result ≡ Err Stopped → ⊥) → IsTrue (St.seen self.new.store).disk.counts.power }
        ensures goes { Goes Bool.true reading Bool.false St.Device.tells St.layout (end_of result)
            (St.seen self.old.store) (St.seen self.new.store) }
        ensures work { OnOk result ((St.seen self.new.store).work ≡ Idle) }
        ensures mind { OnOk result (remembered self.new.mind ≡ remembered self.old.mind) }
        ensures read { reading ≡ Bool.true → IfOk result IsRead }
        ensures room { IsTrue St.Device.tells → OnOk result (KeepsRoom (St.seen self.old.store) (St.seen self.new.store)) }
        ensures more { (St.seen self.new.store).more ≡ (St.seen self.old.store).more }
        ensures early { IsTrue St.Device.tells → (x : Node Datum) → Shows (St.seen self.old.store) (remembered self.old.mind) x
            → IfErr result (λ e. e ≡ Full → ⊥) }
        ensures found { IsTrue St.Device.tells → (x : Node Datum) → Shows (St.seen self.old.store) (remembered self.old.mind) x
            → MatchResult result
            (λ found. FoundIn uid x found (St.seen self.new.store) (remembered self.new.mind))
            (λ e. (c : AnyCall Datum) → (reading ≡ Bool.true → reads c (x.memory uid) ≡ Bool.true)
            → Went uid c x (Refused (seen_refusal e)) (St.seen self.new.store) (remembered self.new.mind)) }
    {
        match self.settle(uid) {
            Ok(()) => self.looks(uid, reading),
            Err(refusal) => Err(refusal),
        }
    }

    /// Puts the bytes of a record, where nothing is in doubt.
    fn put_bytes(&mut self, uid: Uid, body: Body) -> Result<(), MoveRefusal>
        requires power { IsTrue (St.seen self.old.store).disk.counts.power }
        requires idle { (St.seen self.old.store).work ≡ Idle }
        requires of { IsOpen self.old.number (St.seen self.old.store) }
        requires wanderer { IsWanderer uid }
        requires limit { length body ≤ 262144 }
        ensures of { IsOpen self.new.number (St.seen self.new.store) }
        ensures node { (St.seen self.new.store).node ≡ (St.seen self.old.store).node }
        ensures power { (result ≡ Err Stopped → ⊥) → IsTrue (St.seen self.new.store).disk.counts.power }
        ensures goes { Goes Bool.false Bool.false Bool.true St.Device.tells St.layout (end_of result)
            (St.seen self.old.store) (St.seen self.new.store) }
        ensures mind { OnOk result (remembered self.new.mind ≡ remembered self.old.mind) }
        ensures place { OnOk result (self.new.mind ≡ self.old.mind) }
        ensures more { (St.seen self.old.store).more ≤ (St.seen self.new.store).more + 1 }
        ensures full { IsTrue St.Device.tells → 1 ≤ (St.seen self.old.store).more → IfSome (room_of_put result)
            (λ room. finds_room St.layout (St.seen self.old.store) uid body ≡ room) }
        ensures put { IsTrue St.Device.tells → (x : Node Datum) (r : AnyRecord Datum) → record_in body ≡ Option.Some r
            → is_long r ≡ Bool.false
            → Shows (St.seen self.old.store) (remembered self.old.mind) x → MatchResult result
            (λ _. Shows (St.seen self.new.store) (remembered self.new.mind) (keeping uid r x))
            (λ e. (m : Becomes Datum) (post : Option (AnyLetter Datum))
            → Acts uid (Puts r m post) x (Refused (seen_refusal e)) (St.seen self.new.store) (remembered self.new.mind)) }
    {
        match puts_record(self.alloc, &mut self.store, self.number, uid, body) {
            Ok(()) => Ok(()),
            Err(refusal) => Err(self.refused(uid, refusal)),
        }
    }

    /// Puts a record, where nothing is in doubt.
    fn put(&mut self, uid: Uid, record: &Record) -> Result<(), MoveRefusal>
        requires power { IsTrue (St.seen self.old.store).disk.counts.power }
        requires idle { (St.seen self.old.store).work ≡ Idle }
        requires of { IsOpen self.old.number (St.seen self.old.store) }
        requires wanderer { IsWanderer uid }
        ensures of { IsOpen self.new.number (St.seen self.new.store) }
        ensures node { (St.seen self.new.store).node ≡ (St.seen self.old.store).node }
        ensures power { (result ≡ Err Stopped → ⊥) → IsTrue (St.seen self.new.store).disk.counts.power }
        ensures goes { Goes Bool.false Bool.false Bool.true St.Device.tells St.layout (end_of result)
            (St.seen self.old.store) (St.seen self.new.store) }
        ensures mind { OnOk result (remembered self.new.mind ≡ remembered self.old.mind) }
        ensures place { OnOk result (self.new.mind ≡ self.old.mind) }
        ensures more { (St.seen self.old.store).more ≤ (St.seen self.new.store).more + 1 }
        ensures full { IsTrue St.Device.tells → 1 ≤ (St.seen self.old.store).more → IfSome (room_of_put result)
            (λ room. finds_room St.layout (St.seen self.old.store) uid (record_bytes (seen_record «record».now)) ≡ room) }
        ensures put { IsTrue St.Device.tells → IsRecord (seen_record «record».now) → (x : Node Datum)
            → Shows (St.seen self.old.store) (remembered self.old.mind) x → MatchResult result
            (λ _. (is_long (seen_record «record».now) ≡ Bool.false)
            × Shows (St.seen self.new.store) (remembered self.new.mind) (keeping uid (seen_record «record».now) x))
            (λ e. (m : Becomes Datum) (post : Option (AnyLetter Datum))
            → Acts uid (Puts (seen_record «record».now) m post) x (Refused (seen_refusal e)) (St.seen self.new.store)
            (remembered self.new.mind)) }
    {
        match bytes_of(self.alloc, record) {
            Ok(body) => self.put_bytes(uid, body),
            Err(EncodeRefusal::TooLarge) => Err(MoveRefusal::TooLarge),
            Err(EncodeRefusal::OutOfMemory) => Err(MoveRefusal::OutOfMemory),
        }
    }

    /// Puts a record of an Eject that has a place in memory, and then learns what is to be known of it.
    fn puts(&mut self, uid: Uid, record: Record, memory: Memory) -> Result<(), MoveRefusal>
        requires power { IsTrue (St.seen self.old.store).disk.counts.power }
        requires idle { (St.seen self.old.store).work ≡ Idle }
        requires of { IsOpen self.old.number (St.seen self.old.store) }
        requires wanderer { IsWanderer uid }
        requires place { IsTrue (has_place self.old.mind uid) }
        ensures of { IsOpen self.new.number (St.seen self.new.store) }
        ensures node { (St.seen self.new.store).node ≡ (St.seen self.old.store).node }
        ensures power { (result ≡ Err Stopped → ⊥) → IsTrue (St.seen self.new.store).disk.counts.power }
        ensures goes { Goes Bool.false Bool.false Bool.true St.Device.tells St.layout (end_of result)
            (St.seen self.old.store) (St.seen self.new.store) }
        ensures more { (St.seen self.old.store).more ≤ (St.seen self.new.store).more + 1 }
        ensures full { IsTrue St.Device.tells → 1 ≤ (St.seen self.old.store).more → IfSome (room_of_put result)
            (λ room. finds_room St.layout (St.seen self.old.store) uid (record_bytes (seen_record «record»)) ≡ room) }
        ensures acts { IsTrue St.Device.tells → IsRecord (seen_record «record») → IsFitMind (memory_seen memory) → (x : Node Datum)
            → Shows (St.seen self.old.store) (remembered self.old.mind) x
            → (post : Option (AnyLetter Datum)) → Acts uid (Puts (seen_record «record») (memory_seen memory) post) x
            (put_ended post result) (St.seen self.new.store) (remembered self.new.mind) }
    {
        match self.put(uid, &record) {
            Ok(()) => {
                self.mind.learn(uid, memory);
                Ok(())
            }
            Err(refusal) => Err(refusal),
        }
    }

    /// Does what is due of an Eject that has a place in memory, where nothing is in doubt.
    fn acts(&mut self, uid: Uid, due: Due) -> Result<(bool, Answer), MoveRefusal>
        requires power { IsTrue (St.seen self.old.store).disk.counts.power }
        requires idle { (St.seen self.old.store).work ≡ Idle }
        requires of { IsOpen self.old.number (St.seen self.old.store) }
        requires wanderer { IsWanderer uid }
        requires place { IsTrue (has_place self.old.mind uid) }
        requires running { KeepsRunning due }
        ensures of { IsOpen self.new.number (St.seen self.new.store) }
        ensures node { (St.seen self.new.store).node ≡ (St.seen self.old.store).node }
        ensures power { (result ≡ Err Stopped → ⊥) → IsTrue (St.seen self.new.store).disk.counts.power }
        ensures goes { Goes Bool.false Bool.false (is_put (seen_due due)) St.Device.tells St.layout (end_of result)
            (St.seen self.old.store) (St.seen self.new.store) }
        ensures answers { (c : AnyCall Datum) → AnswersFor uid c due → IfOk result (λ done. IsAnswer uid c done.1) }
        ensures shown { (c : AnyCall Datum) → AnswersFor uid c due → IfOk result (λ done. IsKnownBy (remembered self.new.mind uid) done.1) }
        ensures more { (St.seen self.old.store).more ≤ (St.seen self.new.store).more + 1 }
        ensures full { IsTrue St.Device.tells → 1 ≤ (St.seen self.old.store).more → IfSome (room_of_put result)
            (HasRoom St.layout (St.seen self.old.store) uid (seen_due due)) }
        ensures acts { IsTrue St.Device.tells → IsFitDue (seen_due due) → (x : Node Datum)
            → Shows (St.seen self.old.store) (remembered self.old.mind) x
            → Acts uid (seen_due due) x (ended result) (St.seen self.new.store) (remembered self.new.mind) }
    {
        match due {
            Due::Refuses { refusal } => Err(refusal),
            Due::Gives { memory, answer } => {
                self.mind.learn(uid, memory);
                Ok((false, answer))
            }
            Due::Puts {
                record,
                memory,
                answer,
            } => match self.puts(uid, record, memory) {
                Ok(()) => Ok((true, answer)),
                Err(refusal) => Err(refusal),
            },
        }
    }

    /// Does what is due, where nothing is in doubt: it answers, and says whether it put a record; or it is refused.
    fn does(&mut self, uid: Uid, due: Due) -> Result<(bool, Answer), MoveRefusal>
        requires power { IsTrue (St.seen self.old.store).disk.counts.power }
        requires idle { (St.seen self.old.store).work ≡ Idle }
        requires of { IsOpen self.old.number (St.seen self.old.store) }
        requires wanderer { IsWanderer uid }
        requires running { KeepsRunning due }
        ensures of { IsOpen self.new.number (St.seen self.new.store) }
        ensures node { (St.seen self.new.store).node ≡ (St.seen self.old.store).node }
        ensures power { (result ≡ Err Stopped → ⊥) → IsTrue (St.seen self.new.store).disk.counts.power }
        ensures goes { Goes Bool.false Bool.false (is_put (seen_due due)) St.Device.tells St.layout (end_of result)
            (St.seen self.old.store) (St.seen self.new.store) }
        ensures answers { (c : AnyCall Datum) → AnswersFor uid c due → IfOk result (λ done. IsAnswer uid c done.1) }
        ensures shown { (c : AnyCall Datum) → AnswersFor uid c due → IfOk result (λ done. IsKnownBy (remembered self.new.mind uid) done.1) }
        ensures more { (St.seen self.old.store).more ≤ (St.seen self.new.store).more + 1 }
        ensures full { IsTrue St.Device.tells → 1 ≤ (St.seen self.old.store).more → IfSome (room_of_put result)
            (HasRoom St.layout (St.seen self.old.store) uid (seen_due due)) }
        ensures acts { IsTrue St.Device.tells → IsFitDue (seen_due due) → (x : Node Datum)
            → Shows (St.seen self.old.store) (remembered self.old.mind) x
            → Acts uid (seen_due due) x (ended result) (St.seen self.new.store) (remembered self.new.mind) }
    {
        match self.mind.make_place(uid) {
            Ok(()) => self.acts(uid, due),
            Err(_) => Err(MoveRefusal::OutOfMemory),
        }
    }

    /// Does what a call is to do, by what was found.
    fn carry_found(
        &mut self,
        uid: Uid,
        call: Call,
        found: Found,
    ) -> Result<(bool, Answer), MoveRefusal>
        requires power { IsTrue (St.seen self.old.store).disk.counts.power }
        requires idle { (St.seen self.old.store).work ≡ Idle }
        requires of { IsOpen self.old.number (St.seen self.old.store) }
        requires wanderer { IsWanderer uid }
        requires read { reads (seen_call call) (as_memory (remembered self.old.mind uid)) ≡ Bool.true → IsRead found }
        ensures of { IsOpen self.new.number (St.seen self.new.store) }
        ensures node { (St.seen self.new.store).node ≡ (St.seen self.old.store).node }
        ensures power { (result ≡ Err Stopped → ⊥) → IsTrue (St.seen self.new.store).disk.counts.power }
        ensures goes { Goes Bool.false Bool.false (may_put (seen_call call)) St.Device.tells St.layout (end_of result)
            (St.seen self.old.store) (St.seen self.new.store) }
        ensures answers { IfOk result (λ done. IsAnswer uid (seen_call call) done.1) }
        ensures shown { IfOk result (λ done. IsKnownBy (remembered self.new.mind uid) done.1) }
        ensures more { (St.seen self.old.store).more ≤ (St.seen self.new.store).more + 1 }
        ensures full { IsTrue St.Device.tells → 1 ≤ (St.seen self.old.store).more → (x : Node Datum) → x.up ≡ Bool.true
            → Finds found (x.kept uid) → Shows (St.seen self.old.store) (remembered self.old.mind) x
            → IfSome (room_of_put result) (HasRoom St.layout (St.seen self.old.store) uid (due uid (seen_call call) x)) }
        ensures acts { IsTrue St.Device.tells → IsFitCall (seen_call call) → (x : Node Datum) → x.up ≡ Bool.true
            → Finds found (x.kept uid) → Shows (St.seen self.old.store) (remembered self.old.mind) x
            → Acts uid (due uid (seen_call call) x) x (ended result) (St.seen self.new.store) (remembered self.new.mind) }
    {
        match due_of(self.alloc, uid, call, found, self.mind.get(uid)) {
            Ok(due) => self.does(uid, due),
            Err(_) => Err(MoveRefusal::OutOfMemory),
        }
    }

    /// Carries a call out: it answers, and says whether it put a record; or it is refused.
    pub(crate) fn carry(&mut self, uid: Uid, call: Call) -> Result<(bool, Answer), MoveRefusal>
        requires power { IsTrue (St.seen self.old.store).disk.counts.power }
        requires of { IsOpen self.old.number (St.seen self.old.store) }
        requires wanderer { IsWanderer uid }
        ensures of { IsOpen self.new.number (St.seen self.new.store) }
        ensures node { (St.seen self.new.store).node ≡ (St.seen self.old.store).node }
        ensures power { (result ≡ Err Stopped → ⊥) → IsTrue (St.seen self.new.store).disk.counts.power }
        ensures goes { CallGoes St.Device.tells St.layout (seen_call call) (remembered self.old.mind uid) (end_of result)
            (St.seen self.old.store) (St.seen self.new.store) }
        ensures answers { IfOk result (λ done. IsAnswer uid (seen_call call) done.1) }
        ensures shown { IfOk result (λ done. IsKnownBy (remembered self.new.mind uid) done.1) }
        ensures more { (St.seen self.old.store).more ≤ (St.seen self.new.store).more + 1 }
        ensures full { IsFullCall St.Device.tells St.layout uid (seen_call call) result
            (St.seen self.old.store) (remembered self.old.mind) }
        ensures carries { IsTrue St.Device.tells → Carries uid (seen_call call) (ended result)
            (St.seen self.old.store) (remembered self.old.mind) (St.seen self.new.store) (remembered self.new.mind) }
    {
        let reading = reads(&call, self.mind.get(uid));
        match self.finds(uid, reading) {
            Ok(found) => self.carry_found(uid, call, found),
            Err(refusal) => Err(refusal),
        }
    }
}
