// A store over a log. Its index has each kept uid, and where its record stands.
ghost use Rattle.std.specs.Prelude.{◌≡◌, ◌≢◌, ◌⊎◌, ◌+◌, ◌≤◌, ◌<◌, ◌==◌, ◌^◌, [], slice_range, ℕ, Bool, IsTrue, Option, OnOk, OnErr, IfOk};
ghost use Rattle.std.specs.Prelude.{IfErr, List, ◌∷◌, ◌++◌, length, take, slice_index, IsSome, IfSome, is_some, is_ok, ◌&&◌, nat_le};
ghost use Rattle.std.specs.Option.{option_map};
ghost use Rattle.std.proofs.Common.{cond};
ghost use Rattle.passive_store.specs.declared.store.StoreRefusal.TheVariants.{Full, OutOfMemory};
ghost use Rattle.std.specs.BTreeMap as tree;
ghost use Rattle.capability.specs.Uids.{uid_cmp};
ghost use Rattle.eden_disk.specs.Told.{Told, contents, at_rest, EachMoment, LeavesOnly};
ghost use Rattle.eden_disk.specs.Calls.{DeviceCalls, Obeyed, ReadTold, end_of};
ghost use Rattle.eden_disk.specs.Held.{Holds, Passes};
ghost use Rattle.eden_disk.specs.Timed.{Timed};
ghost use Rattle.passive_store.specs.Log.{HalfWritten, Unwritten, log_grows};
ghost use Rattle.passive_store.specs.Acts.{CallTold, CallsTold, settling_call};
ghost use Rattle.passive_store.specs.Kept.{IsOwn, IsEject, IsFresh, Idle, is_busy, end_of_store, IsDiskRefusal, Ran, work_begun, body_at};
ghost use Rattle.passive_store.specs.LogState.{SetsSlot, slot_of, slot_at, IsRecordOf, IsJobAfter, made_at, stage_after, stage_synced};
ghost use Rattle.passive_store.specs.LogState.{stage_ended, WhereBegun, stage_call};
ghost use Rattle.passive_store.specs.LogLayout.{within_room, log_room, reads_for, record_job, log_tail, bytes_for};

use crate::index::{Slot, find_slot, make_entry, make_slot, next_slot, set_slot};
use crate::opening::{Found, open_log};
use crate::records::{DELETED, OPEN, VALUE, make_record, read_gate};
use crate::store::{Pick, Progress, Store, StoreRefusal};
use capability::{Body, Seq, Uid};
use eden_disk::{Arm, Disk, DiskRefusal};
use std::alloc::{AllocError, Global};
use std::collections::BTreeMap;
use std::marker::Model;

/// What of a job is done, or that a device call of it was refused.
#[derive(Clone, Copy, Debug, PartialEq, Eq)]
pub enum Stage {
    /// No device call was made.
    Begun,
    /// The record is written behind its gate, with the closed gate that follows.
    Written,
    /// What was written is synced, and the gate is still closed.
    Synced,
    /// The gate is written open, and only the last sync is left.
    Opened,
    /// A device call was refused. The change waits for its settling, whose sync is made or not.
    Ended { synced: bool },
}

/// A record that is being written at the tail, or that may stand there or not: its bytes behind the gate.
#[derive(Drop)]
pub struct Pending {
    /// The uid that is given a body, or removed.
    pub uid: Uid,
    /// Whether it is removed.
    pub removal: bool,
    /// The length of the body in bytes, 0 for a removal.
    pub length: u32,
    /// The record from behind its gate to the closed gate that follows.
    pub bytes: Vec<u8>,
    /// How far its job has come.
    pub stage: Stage,
}

/// A store over a log on a disk. Its index, in memory, has each kept uid with the place of its record.
#[derive(Drop)]
pub struct LogStore<D: Disk> {
    disk: D,
    node: u8,
    size: u32,
    tail: u32,
    // a uid that is not kept may have an empty entry, whose place a record in doubt takes without memory
    index: BTreeMap<Uid, Option<Slot>>,
    pending: Option<Pending>,
    picked: Option<Pick>,
}

impl<D: Disk> Model for LogStore<D> {
    ghost use Rattle.std.specs.Prelude.{IsTrue};
    ghost use Rattle.eden_disk.specs.Told.{contents};
    ghost use Rattle.passive_store.specs.LogState.{LogState, IsLog, IsPlaced, IsStaged, pending_work};

    ghost Value = { LogState D };

    ghost view = { λ s. record {
      device = s.disk;
      node = s.node;
      tail = s.tail;
      work = pending_work s.tail s.pending;
      picked = s.picked;
      entries = s.index.entries;
    } };

    ghost invariant = { λ s. IsPlaced s.size s.tail (D.counts s.disk) s.index s.pending
        × (IsTrue D.tells → IsLog s.node s.size s.tail (contents (D.told s.disk)) s.index s.pending)
        × (IsTrue D.tells → IsTrue (D.counts s.disk).power → IsStaged s.tail (contents (D.told s.disk)) s.pending) };
}

/// Makes the next device call of the job of a record.
fn make_call<D: Disk>(
    disk: &mut D,
    tail: u32,
    bytes: &[u8],
    stage: Stage,
) -> Result<(), DiskRefusal>
    requires power { IsTrue (D.counts disk.old).power }
    requires range { tail + 1 + length bytes.now ≤ (D.counts disk.old).size }
    requires fits { tail + 1 < 2 ^ 32 }
    ensures counts { DeviceCalls 1 (D.counts disk.old) (D.counts disk.new) (end_of result) }
    ensures obeyed { IsTrue D.obeys → Obeyed (D.due disk.old) (D.due disk.new) (D.counts disk.old) (D.counts disk.new) (end_of result) }
    ensures timed { IsTrue D.tells → Timed (D.counts disk.old).clock (D.told disk.old) (D.counts disk.new).clock (D.told disk.new) }
    ensures told { IsTrue D.tells
        → CallTold (stage_call tail bytes.now stage) (D.counts disk.new).clock (D.told disk.old) (D.told disk.new) (end_of result) }
    ensures first { IsTrue D.tells → (front : List ℕ) → length front ≡ tail
        → IsJobAfter (D.counts disk.old).size front bytes.now (made_at stage) (contents (D.told disk.old))
        → WhereBegun stage (Passes (Unwritten (D.counts disk.old).size front) (D.told disk.old) (D.told disk.new)) }
    ensures whole { IsTrue D.tells → (front : List ℕ) → length front ≡ tail
        → IsJobAfter (D.counts disk.old).size front bytes.now (made_at stage) (contents (D.told disk.old))
        → Passes (HalfWritten (D.counts disk.old).size front bytes.now) (D.told disk.old) (D.told disk.new) }
    ensures next { IsTrue D.tells → (front : List ℕ) → length front ≡ tail
        → IsJobAfter (D.counts disk.old).size front bytes.now (made_at stage) (contents (D.told disk.old))
        → OnOk result (IsJobAfter (D.counts disk.old).size front bytes.now (made_at stage + 1) (contents (D.told disk.new))) }
{
    match stage {
        Stage::Begun => disk.write(tail + 1, bytes),
        Stage::Written => disk.sync(),
        Stage::Synced => disk.write(tail, &[OPEN]),
        Stage::Opened => disk.sync(),
        Stage::Ended { .. } => disk.sync(),
    }
}

/// The stage of a job after its next call, and none after its last.
fn next_stage(stage: Stage) -> Option<Stage>
    ensures { result ≡ stage_after stage }
{
    match stage {
        Stage::Begun => Some(Stage::Written),
        Stage::Written => Some(Stage::Synced),
        Stage::Synced => Some(Stage::Opened),
        Stage::Opened | Stage::Ended { .. } => None,
    }
}

impl<D: Disk> LogStore<D> {
    ghost use Rattle.passive_store.specs.Kept.{Work, Stands, changes_in, change_in, doubt_in, is_unsettled, is_synced, work_settled};
    ghost use Rattle.passive_store.specs.Kept.{work_stepped, settling_calls, work_advanced, kept_advanced, unsynced, progress_at};
    ghost use Rattle.passive_store.specs.Kept.{calls_left, job_left, settling_of, settled, SettlesFirst, IsFullBy, NextTold, reads_due};
    ghost use Rattle.passive_store.specs.LogLayout.{log_layout, log_changes};
    ghost use Rattle.passive_store.specs.LogState.{state_kept, log_seen, HasEntry};
    ghost use Rattle.passive_store.specs.Seen.{asked, Finishes, Changes, Settles};

    /// Makes the next device call of the job.
    fn advance_job(&mut self) -> Result<Progress, StoreRefusal>
        requires power { IsTrue (D.counts self.old.device).power }
        requires busy { IsTrue (is_busy self.old.work) }
        ensures node { self.new.node ≡ self.old.node }
        ensures counts { DeviceCalls 1 (D.counts self.old.device) (D.counts self.new.device) (end_of_store result) }
        ensures obeyed { IsTrue D.obeys
            → Obeyed (D.due self.old.device) (D.due self.new.device) (D.counts self.old.device) (D.counts self.new.device)
            (end_of_store result) }
        ensures timed { IsTrue D.tells
            → Timed (D.counts self.old.device).clock (D.told self.old.device) (D.counts self.new.device).clock (D.told self.new.device) }
        ensures only { IfErr result IsDiskRefusal }
        ensures last { IfOk result (λ progress. progress ≡ progress_at (nat_le (calls_left self.old.work) 1)) }
        ensures told { IsTrue D.tells
            → NextTold self.old.work (D.counts self.new.device).clock (D.told self.old.device) (D.told self.new.device)
            (end_of_store result) }
        ensures work { self.new.work ≡ work_advanced self.old.work result }
        ensures picked { self.new.picked ≡ self.old.picked }
        ensures kept { IsTrue D.tells → state_kept D.told self.new ≡ kept_advanced self.old.work (state_kept D.told self.old) result }
        ensures stands { IsTrue D.tells
            → LeavesOnly (Stands log_layout self.new.node log_changes (state_kept D.told self.new) (changes_in (doubt_in self.new.work)))
            (contents (D.told self.new.device)) }
        ensures moments { IsTrue D.tells
            → EachMoment (Stands log_layout self.old.node log_changes (state_kept D.told self.old) (changes_in (doubt_in self.old.work)))
            (D.told self.old.device) (D.told self.new.device) }
    {
        let Some(mut pending) = self.pending.take() else {
            return Ok(Progress::Done);
        };
        match make_call(&mut self.disk, self.tail, &pending.bytes, pending.stage) {
            Err(refusal) => {
                pending.stage = Stage::Ended { synced: false };
                self.pending = Some(pending);
                Err(refusal.into())
            }
            Ok(()) => match next_stage(pending.stage) {
                Some(stage) => {
                    pending.stage = stage;
                    self.pending = Some(pending);
                    Ok(Progress::Going)
                }
                None => {
                    let slot = make_slot(pending.removal, self.tail, pending.length);
                    set_slot(&mut self.index, pending.uid, slot);
                    self.tail = self.tail + pending.length + 15;
                    Ok(Progress::Done)
                }
            },
        }
    }

    /// Makes one call of the settling: a sync, or the read of the gate.
    fn settle_once(&mut self) -> Result<Progress, StoreRefusal>
        requires power { IsTrue (D.counts self.old.device).power }
        requires unsettled { IsTrue (is_unsettled self.old.work) }
        ensures node { self.new.node ≡ self.old.node }
        ensures counts { DeviceCalls 1 (D.counts self.old.device) (D.counts self.new.device) (end_of_store result) }
        ensures obeyed { IsTrue D.obeys
            → Obeyed (D.due self.old.device) (D.due self.new.device) (D.counts self.old.device) (D.counts self.new.device)
            (end_of_store result) }
        ensures timed { IsTrue D.tells
            → Timed (D.counts self.old.device).clock (D.told self.old.device) (D.counts self.new.device).clock (D.told self.new.device) }
        ensures only { IfErr result IsDiskRefusal }
        ensures last { IfOk result (λ progress. progress ≡ progress_at (is_synced self.old.work)) }
        ensures told { IsTrue D.tells
            → CallTold (settling_call (is_synced self.old.work)) (D.counts self.new.device).clock (D.told self.old.device)
            (D.told self.new.device) (end_of_store result) }
        ensures work { self.new.work ≡ work_stepped self.old.work result }
        ensures picked { is_some self.new.picked ≡ (is_ok result && is_synced self.old.work) }
        ensures entries { (q : _) → HasEntry self.old.entries q → HasEntry self.new.entries q }
        ensures kept { IsTrue D.tells → state_kept D.told self.new ≡ settled self.new.picked self.old.work (state_kept D.told self.old) }
        ensures fresh { IsTrue D.tells → IfSome (doubt_in self.old.work) (λ c. IsFresh c (state_kept D.told self.old)) }
        ensures stands { IsTrue D.tells
            → LeavesOnly (Stands log_layout self.new.node log_changes (state_kept D.told self.new) (changes_in (doubt_in self.new.work)))
            (contents (D.told self.new.device)) }
        ensures moments { IsTrue D.tells
            → EachMoment (Stands log_layout self.old.node log_changes (state_kept D.told self.old) (changes_in (doubt_in self.old.work)))
            (D.told self.old.device) (D.told self.new.device) }
    {
        self.picked = None;
        let Some(mut pending) = self.pending.take() else {
            return Ok(Progress::Done);
        };
        if !has_synced(pending.stage) {
            return match self.disk.sync() {
                Ok(()) => {
                    pending.stage = Stage::Ended { synced: true };
                    self.pending = Some(pending);
                    Ok(Progress::Going)
                }
                Err(refusal) => {
                    pending.stage = Stage::Ended { synced: false };
                    self.pending = Some(pending);
                    Err(refusal.into())
                }
            };
        }
        match read_gate(&mut self.disk, self.tail) {
            Err(refusal) => {
                pending.stage = Stage::Ended { synced: false };
                self.pending = Some(pending);
                Err(refusal.into())
            }
            Ok(false) => {
                self.picked = Some(Pick::Old);
                Ok(Progress::Done)
            }
            Ok(true) => {
                let slot = make_slot(pending.removal, self.tail, pending.length);
                set_slot(&mut self.index, pending.uid, slot);
                self.tail = self.tail + pending.length + 15;
                self.picked = Some(Pick::New);
                Ok(Progress::Done)
            }
        }
    }

    /// Makes ready for a whole settling, and tells whether there is one.
    fn begin_settling(&mut self) -> bool
        ensures node { self.new.node ≡ self.old.node }
        ensures device { self.new.device ≡ self.old.device }
        ensures unsettled { result ≡ is_unsettled self.old.work }
        ensures picked { self.new.picked ≡ Option.None }
        ensures work { self.new.work ≡ unsynced self.old.work }
        ensures entries { self.new.entries ≡ self.old.entries }
        ensures kept { IsTrue D.tells → state_kept D.told self.new ≡ state_kept D.told self.old }
        ensures fresh { IsTrue D.tells → IfSome (doubt_in self.old.work) (λ c. IsFresh c (state_kept D.told self.old)) }
        ensures stands { IsTrue D.tells
            → LeavesOnly (Stands log_layout self.new.node log_changes (state_kept D.told self.new) (changes_in (doubt_in self.new.work)))
            (contents (D.told self.new.device)) }
    {
        self.picked = None;
        let Some(mut pending) = self.pending.take() else {
            return false;
        };
        if !is_ended(pending.stage) {
            self.pending = Some(pending);
            return false;
        }
        pending.stage = Stage::Ended { synced: false };
        self.pending = Some(pending);
        true
    }

    /// Settles the change in doubt, if there is one whose job has ended.
    fn settle_log(&mut self) -> Result<(), StoreRefusal>
        requires { IsTrue (D.counts self.old.device).power }
        ensures node { self.new.node ≡ self.old.node }
        ensures order { IsTrue D.tells
            → CallsTold (settling_of self.old.work) (D.told self.old.device) (D.told self.new.device) (end_of_store result) }
        ensures ran { Ran (settling_calls self.old.work) 0 result (D.counts self.old.device) (D.counts self.new.device) }
        ensures obeyed { IsTrue D.obeys
            → Obeyed (D.due self.old.device) (D.due self.new.device) (D.counts self.old.device) (D.counts self.new.device)
            (end_of_store result) }
        ensures timed { IsTrue D.tells
            → Timed (D.counts self.old.device).clock (D.told self.old.device) (D.counts self.new.device).clock (D.told self.new.device) }
        ensures only { IfErr result IsDiskRefusal }
        ensures refused { OnErr result (IsTrue (is_unsettled self.old.work)) }
        ensures picked { is_some self.new.picked ≡ (is_ok result && is_unsettled self.old.work) }
        ensures work { self.new.work ≡ work_settled self.new.picked self.old.work }
        ensures entries { (q : _) → HasEntry self.old.entries q → HasEntry self.new.entries q }
        ensures kept { IsTrue D.tells → state_kept D.told self.new ≡ settled self.new.picked self.old.work (state_kept D.told self.old) }
        ensures fresh { IsTrue D.tells → IfSome (doubt_in self.old.work) (λ c. IsFresh c (state_kept D.told self.old)) }
        ensures stands { IsTrue D.tells
            → LeavesOnly (Stands log_layout self.new.node log_changes (state_kept D.told self.new) (changes_in (doubt_in self.new.work)))
            (contents (D.told self.new.device)) }
        ensures moments { IsTrue D.tells
            → EachMoment (Stands log_layout self.old.node log_changes (state_kept D.told self.old) (changes_in (doubt_in self.old.work)))
            (D.told self.old.device) (D.told self.new.device) }
    {
        if self.begin_settling() {
            self.settle_once()?;
            self.settle_once()?;
        }
        Ok(())
    }

    /// Settles, and writes a record of a value, for which there is an entry.
    fn put_record(
        &mut self,
        uid: Uid,
        length: u32,
        record_bytes: Vec<u8>,
    ) -> Result<(), StoreRefusal>
        requires power { IsTrue (D.counts self.old.device).power }
        requires idle { is_busy self.old.work ≡ Bool.false }
        requires entry { HasEntry self.old.entries uid }
        requires limit { length ≤ 262144 }
        requires spelled { IsRecordOf self.old.node record_bytes.items uid Bool.false length }
        requires written { record_bytes.items ≡
            bytes_for self.old.node uid (Option.Some (slice_range record_bytes.items 14 (14 + length))) }
        ensures node { self.new.node ≡ self.old.node }
        ensures changes { let seen = log_seen D.counts D.told D.due in
            let body = slice_range record_bytes.items 14 (14 + length) in
            Changes D.tells log_layout (asked uid (Option.Some body)) result (seen self.old) (seen self.new) }
        ensures obeyed { IsTrue D.obeys
            → Obeyed (D.due self.old.device) (D.due self.new.device) (D.counts self.old.device) (D.counts self.new.device)
            (end_of_store result) }
        ensures timed { IsTrue D.tells
            → Timed (D.counts self.old.device).clock (D.told self.old.device) (D.counts self.new.device).clock (D.told self.new.device) }
        ensures picked { SettlesFirst self.new.picked self.old.work result }
        ensures undamaged { IfErr result (λ e. IsDiskRefusal e ⊎ (e ≡ Full)) }
        ensures full { IsTrue D.tells
            → IsFullBy (within_room
            (log_room (D.counts self.old.device).size (settled self.new.picked self.old.work (state_kept D.told self.old)).ledger) length)
            self.new.picked self.old.work result }
        ensures fresh { IsTrue D.tells → IfSome (doubt_in self.new.work) (λ c. IsFresh c (state_kept D.told self.new)) }
        ensures stands { IsTrue D.tells
            → LeavesOnly (Stands log_layout self.new.node log_changes (state_kept D.told self.new) (changes_in (doubt_in self.new.work)))
            (contents (D.told self.new.device)) }
    {
        self.settle_log()?;
        self.start(uid, false, length, record_bytes)?;
        self.finish_job()
    }

    /// Settles, and writes a record of a removal, for which there is an entry, where the uid is kept.
    fn remove_record(&mut self, uid: Uid, record_bytes: Vec<u8>) -> Result<(), StoreRefusal>
        requires power { IsTrue (D.counts self.old.device).power }
        requires idle { is_busy self.old.work ≡ Bool.false }
        requires entry { HasEntry self.old.entries uid }
        requires spelled { IsRecordOf self.old.node record_bytes.items uid Bool.true 0 }
        requires written { record_bytes.items ≡ bytes_for self.old.node uid Option.None }
        ensures node { self.new.node ≡ self.old.node }
        ensures changes { let seen = log_seen D.counts D.told D.due in
            let then = settled self.new.picked self.old.work (state_kept D.told self.old) in
            (Settles D.tells log_layout result (seen self.old) (seen self.new) × IfErr result IsDiskRefusal
            × (IsTrue D.tells → OnOk result (body_at then uid ≡ Option.None)))
            ⊎ (Changes D.tells log_layout (asked uid Option.None) result (seen self.old) (seen self.new)
            × (IsTrue D.tells → IsSome (body_at then uid))
            × (IsTrue D.tells → IsFullBy (within_room (log_room (D.counts self.old.device).size then.ledger) 0) self.new.picked
            self.old.work result)) }
        ensures obeyed { IsTrue D.obeys
            → Obeyed (D.due self.old.device) (D.due self.new.device) (D.counts self.old.device) (D.counts self.new.device)
            (end_of_store result) }
        ensures timed { IsTrue D.tells
            → Timed (D.counts self.old.device).clock (D.told self.old.device) (D.counts self.new.device).clock (D.told self.new.device) }
        ensures picked { SettlesFirst self.new.picked self.old.work result }
        ensures undamaged { IfErr result (λ e. IsDiskRefusal e ⊎ (e ≡ Full)) }
        ensures fresh { IsTrue D.tells → IfSome (doubt_in self.new.work) (λ c. IsFresh c (state_kept D.told self.new)) }
        ensures stands { IsTrue D.tells
            → LeavesOnly (Stands log_layout self.new.node log_changes (state_kept D.told self.new) (changes_in (doubt_in self.new.work)))
            (contents (D.told self.new.device)) }
    {
        self.settle_log()?;
        if !self.is_kept(uid) {
            return Ok(());
        }
        self.start(uid, true, 0, record_bytes)?;
        self.finish_job()
    }

    /// Whether a uid is kept.
    fn is_kept(&self, uid: Uid) -> bool
        ensures { IsTrue D.tells → result ≡ is_some (body_at (state_kept D.told self.now) uid) }
    {
        find_slot(&self.index, uid).is_some()
    }

    /// Makes the device calls of the job up to its end.
    fn finish_job(&mut self) -> Result<(), StoreRefusal>
        requires power { IsTrue (D.counts self.old.device).power }
        requires busy { IsTrue (is_busy self.old.work) }
        requires some { 1 ≤ calls_left self.old.work }
        ensures { let seen = log_seen D.counts D.told D.due in Finishes D.tells D.obeys log_layout result (seen self.old) (seen self.new) }
    {
        while let Progress::Going = self.advance_job()? {}
        Ok(())
    }

    /// Begins the job of a record for which there is an entry, where it finds room.
    fn start(
        &mut self,
        uid: Uid,
        removal: bool,
        length: u32,
        record_bytes: Vec<u8>,
    ) -> Result<(), StoreRefusal>
        requires idle { self.old.work ≡ Idle }
        requires entry { HasEntry self.old.entries uid }
        requires limit { length ≤ 262144 }
        requires spelled { IsRecordOf self.old.node record_bytes.items uid removal length }
        requires kept { IsTrue removal → IsTrue D.tells → IsSome (body_at (state_kept D.told self.old) uid) }
        ensures node { self.new.node ≡ self.old.node }
        ensures device { self.new.device ≡ self.old.device }
        ensures picked { self.new.picked ≡ self.old.picked }
        ensures only { IfErr result (λ e. e ≡ Full) }
        ensures work { let body = cond removal Option.None (Option.Some (slice_range record_bytes.items 14 (14 + length))) in
            self.new.work ≡ work_begun (record { uid = uid; body = body; mark = self.old.tail; wrote = log_grows body })
            (record_job self.old.tail record_bytes.items) self.old.work result }
        ensures tail { IsTrue D.tells → self.old.tail ≡ log_tail self.old.node (contents (D.told self.old.device)).now }
        ensures room { IsTrue D.tells
            → OnOk result (IsTrue (within_room (log_room (D.counts self.old.device).size (state_kept D.told self.old).ledger) length)) }
        ensures full { IsTrue D.tells
            → OnErr result (within_room (log_room (D.counts self.old.device).size (state_kept D.told self.old).ledger) length ≡
            Bool.false) }
        ensures kept { IsTrue D.tells → state_kept D.told self.new ≡ state_kept D.told self.old }
        ensures fresh { IsTrue D.tells → IfSome (change_in self.new.work) (λ c. IsFresh c (state_kept D.told self.new)) }
    {
        if self.tail as u64 + length as u64 + 16 > self.size as u64 {
            return Err(StoreRefusal::Full);
        }
        self.pending = Some(Pending {
            uid,
            removal,
            length,
            bytes: record_bytes,
            stage: Stage::Begun,
        });
        Ok(())
    }

    /// Reads what is kept under a uid.
    fn read_body(&mut self, alloc: Global, uid: Uid) -> Result<Option<Body>, StoreRefusal>
        requires power { IsTrue (D.counts self.old.device).power }
        ensures node { self.new.node ≡ self.old.node }
        ensures picked { self.new.picked ≡ self.old.picked }
        ensures work { self.new.work ≡ self.old.work }
        ensures only { IfErr result (λ e. IsDiskRefusal e ⊎ (e ≡ OutOfMemory)) }
        ensures ran { (calls : ℕ)
            × (Ran 0 calls result (D.counts self.old.device) (D.counts self.new.device) × IfOk result (λ found. calls ≡ reads_for found)
            × (IsTrue D.tells → calls ≡ reads_for (body_at (state_kept D.told self.old) uid))
            × (IsTrue D.tells → CallsTold (reads_due Idle calls result) (D.told self.old.device) (D.told self.new.device)
            (end_of_store result))) }
        ensures obeyed { IsTrue D.obeys
            → Obeyed (D.due self.old.device) (D.due self.new.device) (D.counts self.old.device) (D.counts self.new.device)
            (end_of_store result) }
        ensures timed { IsTrue D.tells
            → Timed (D.counts self.old.device).clock (D.told self.old.device) (D.counts self.new.device).clock (D.told self.new.device) }
        ensures kept { IsTrue D.tells → state_kept D.told self.new ≡ state_kept D.told self.old }
        ensures body { IsTrue D.tells → IfOk result (λ found. found ≡ body_at (state_kept D.told self.old) uid) }
        ensures reads { IsTrue D.tells → IfErr result (λ e. IsDiskRefusal e → IsSome (body_at (state_kept D.told self.old) uid)) }
        ensures stands { IsTrue D.tells
            → LeavesOnly (Stands log_layout self.new.node log_changes (state_kept D.told self.new) (changes_in (doubt_in self.new.work)))
            (contents (D.told self.new.device)) }
        ensures moments { IsTrue D.tells
            → EachMoment (Stands log_layout self.old.node log_changes (state_kept D.told self.old) (changes_in (doubt_in self.old.work)))
            (D.told self.old.device) (D.told self.new.device) }
    {
        let Some(slot) = find_slot(&self.index, uid) else {
            return Ok(None);
        };
        let mut bytes = vec![in alloc; 0u8; slot.length as usize]?;
        self.disk.read(slot.gate + 15, &mut bytes)?;
        Ok(Some(Seq { items: bytes }))
    }
}

/// Whether the sync of a settling is done.
fn has_synced(stage: Stage) -> bool
    ensures { result ≡ stage_synced stage }
{
    match stage {
        Stage::Ended { synced } => synced,
        Stage::Begun => false,
        Stage::Written => false,
        Stage::Synced => false,
        Stage::Opened => false,
    }
}

impl<D: Disk> Store for LogStore<D> {
    type Device = D;

    ghost use Rattle.passive_store.specs.LogLayout.{log_layout};
    ghost use Rattle.passive_store.specs.LogState.{log_seen};

    ghost layout = { log_layout };

    ghost seen = { λ s. log_seen D.counts D.told D.due s };

    fn open_disk(alloc: Global, mut disk: D, node: u8) -> Result<Self, (D, StoreRefusal)> {
        match open_log(alloc, &mut disk, node) {
            Ok(found) => {
                let Found { index, size, tail } = found;
                Ok(LogStore {
                    disk,
                    node,
                    size,
                    tail,
                    index,
                    pending: None,
                    picked: None,
                })
            }
            Err(refusal) => Err((disk, refusal)),
        }
    }

    fn disk(&self) -> &D {
        &self.disk
    }

    fn close(self) -> D {
        let LogStore { disk, .. } = self;
        disk
    }

    fn disk_mut_arm(&mut self, what: Arm) {
        self.disk.arm(what);
    }

    fn unsure(&self) -> Option<Uid> {
        match &self.pending {
            Some(pending) if pending.stage != Stage::Begun => Some(pending.uid),
            _ => None,
        }
    }

    fn working_on(&self) -> Option<Uid> {
        match &self.pending {
            Some(pending) if !is_ended(pending.stage) => Some(pending.uid),
            _ => None,
        }
    }

    fn picked(&self) -> Option<Pick> {
        self.picked
    }

    fn mark(&self, uid: Uid) -> Option<u64> {
        find_slot(&self.index, uid).map(|slot| slot.gate as u64)
    }

    fn holds(&self, uid: Uid) -> bool {
        self.is_kept(uid)
    }

    fn after(&self, uid: Option<Uid>) -> Option<Uid> {
        next_slot(&self.index, uid, self.node)
    }

    fn room(&self) -> Option<u32> {
        if self.size - self.tail < 16 {
            None
        } else {
            Some(self.size - self.tail - 16)
        }
    }

    fn settle_step(&mut self) -> Result<Progress, StoreRefusal> {
        self.settle_once()
    }

    fn begin_put(&mut self, alloc: Global, uid: Uid, body: &[u8]) -> Result<(), StoreRefusal> {
        let record_bytes = make_record(alloc, self.node, uid, VALUE, body)?;
        make_entry(&mut self.index, uid)?;
        self.start(uid, false, body.len() as u32, record_bytes)
    }

    fn begin_delete(&mut self, alloc: Global, uid: Uid) -> Result<(), StoreRefusal> {
        let record_bytes = make_record(alloc, self.node, uid, DELETED, &[])?;
        make_entry(&mut self.index, uid)?;
        self.start(uid, true, 0, record_bytes)
    }

    fn advance(&mut self) -> Result<Progress, StoreRefusal> {
        self.advance_job()
    }

    fn settle(&mut self) -> Result<(), StoreRefusal> {
        self.settle_log()
    }

    fn put(&mut self, alloc: Global, uid: Uid, body: &[u8]) -> Result<(), StoreRefusal> {
        self.picked = None;
        let record_bytes = make_record(alloc, self.node, uid, VALUE, body)?;
        make_entry(&mut self.index, uid)?;
        self.put_record(uid, body.len() as u32, record_bytes)
    }

    fn delete(&mut self, alloc: Global, uid: Uid) -> Result<(), StoreRefusal> {
        self.picked = None;
        let record_bytes = make_record(alloc, self.node, uid, DELETED, &[])?;
        make_entry(&mut self.index, uid)?;
        self.remove_record(uid, record_bytes)
    }

    fn get(&mut self, alloc: Global, uid: Uid) -> Result<Option<Body>, StoreRefusal> {
        self.settle_log()?;
        self.read_body(alloc, uid)
    }
}

/// Whether a job has ended, and its change is in doubt.
fn is_ended(stage: Stage) -> bool
    ensures { result ≡ stage_ended stage }
{
    match stage {
        Stage::Ended { .. } => true,
        Stage::Begun => false,
        Stage::Written => false,
        Stage::Synced => false,
        Stage::Opened => false,
    }
}
