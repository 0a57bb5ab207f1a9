// A store over blocks.
ghost use Rattle.passive_store.specs.Kept.{worked_on, unsure_in};
ghost use Rattle.std.specs.Prelude.{◌≡◌, ◌⊎◌, ℕ, ◌≤◌, ◌<◌, ◌+◌, ◌*◌, true, ◌∷◌, [], length, IsTrue, IfOk, IfErr, IsSome, is_some, Option};
ghost use Rattle.std.specs.BTreeMap as tree;
ghost use Rattle.capability.specs.Uids.{uid_cmp};
ghost use Rattle.eden_disk.specs.Timed.{Timed};
ghost use Rattle.eden_disk.specs.Calls.{Counts, DeviceCalls, Obeyed, end_of};
ghost use Rattle.passive_store.specs.Acts.{CallTold, Write};
ghost use Rattle.passive_store.specs.declared.store.StoreRefusal.TheVariants.{Full};
ghost use Rattle.block_tables.specs.Blocks as blocks;
ghost use Rattle.block_tables.specs.Members.{is_member, IsFirstOf};
ghost use Rattle.passive_blocks.specs.StoreState.{work_at};
ghost use Rattle.passive_blocks.specs.HeldState.{IsHeld};
ghost use Rattle.block_tables.specs.HeadState.{AreHeads};
ghost use Rattle.passive_blocks.specs.StageState.{IsPartNext, behind_part, behind_closing, part_bytes, IsClosedBy, IsBehindClosing};
ghost use Rattle.passive_blocks.specs.StageState.{IsStaged, IsNext, stage_call, gate_of, is_going, IsSettledBy};
ghost use Rattle.passive_blocks.specs.StageState.{changes_behind, goes_on_telling as is_telling};
ghost use Rattle.block_tables.specs.TableState.{IsTable};

use crate::opening::{changes_told, open_blocks};
use crate::values::read_value;
use block_tables::{
    CLOSED, DATA, HeadFields, OPEN, Table, read_gate, write_block, write_gate, write_head,
};
use capability::{Body, Seq, Uid};
use eden_disk::{Arm, Disk, DiskRefusal};
use passive_store::{Pick, Progress, Store, StoreRefusal};
use std::alloc::{AllocError, Global};
use std::marker::Model;

/// The next device call of a job; or that one was refused, and which gate tells whether its write was made.
#[derive(Clone, Copy, Debug, PartialEq, Eq)]
pub enum Stage {
    /// Closes the gate of the next head that is to be closed.
    Close,
    /// Writes the bytes of the body from this place on, up to 1,022, on this block.
    Write { block: u32, from: u32 },
    /// Writes the head of the change behind its gate.
    Head,
    /// Syncs what was written, with that gate still closed.
    SyncHead,
    /// Opens that gate.
    Open,
    /// Syncs the open gate, as the last call.
    SyncOpen,
    /// A call was refused. The gate of this head tells what it left, and the sync of the settling is made or not.
    Ended { gate: u32, synced: bool },
}

/// A change that is under way or in doubt: its head, and its body.
#[derive(Drop)]
pub struct Pending {
    /// The head that the change opens.
    pub head: HeadFields,
    /// The bytes that it puts, none for a removal.
    pub body: Vec<u8>,
    /// Where its job stands.
    pub stage: Stage,
    // how many device calls it has made
    pub made: u32,
}

/// A store over a disk of blocks, which uses again what a change leaves.
#[derive(Drop)]
pub struct BlockStore<D: Disk> {
    disk: D,
    node: u8,
    size: u32,
    table: Table,
    pending: Option<Pending>,
    picked: Option<Pick>,
    // for so many more changes the room is told
    more: u64,
}

impl<D: Disk> Model for BlockStore<D> {
    ghost use Rattle.passive_blocks.specs.StoreState.{BlockState, pending_work};
    ghost use Rattle.passive_blocks.specs.StageState.{IsStore};

    ghost Value = { BlockState D };

    ghost view = { λ s. record {
      device = s.disk;
      node = s.node;
      size = s.size;
      slots = s.table.heads.slots.items;
      entries = s.table.heads.index.entries;
      needed = s.table.blocks.needed;
      work = pending_work s.table s.pending;
      picked = s.picked;
      more = s.more;
    } };

    ghost invariant = { λ s. IsStore D.tells s.node s.size s.more (D.counts s.disk) (D.told s.disk) s.table s.pending };
}

/// A copy of a body.
fn copy_body(alloc: Global, body: &[u8]) -> Result<Vec<u8>, AllocError>
    ensures { IfOk result (λ bytes. bytes.items ≡ body.now) }
{
    let mut bytes = Vec::with_capacity(alloc, body.len())?;
    bytes.extend_from_slice(body)?;
    Ok(bytes)
}

/// The first stage of a job, or of what is left of it once the heads are closed.
fn stage_behind_closing(head: HeadFields) -> Stage
    ensures { result ≡ behind_closing head }
{
    if head.removal {
        Stage::Head
    } else {
        Stage::Write {
            block: head.first,
            from: 0,
        }
    }
}

/// The first stage of a job: heads are to be closed, or it begins behind that.
fn first_stage(table: &Table, head: HeadFields) -> Stage
    requires { AreHeads table.now.heads }
    ensures { IsBehindClosing table.now head result }
{
    match table.heads.next_to_close() {
        Some(_) => Stage::Close,
        None => stage_behind_closing(head),
    }
}

/// Whether the room goes on being told behind a change: it is one of an Eject, nothing is kept, or the reserved uid has a value.
fn goes_on_telling(table: &Table, node: u8, uid: Uid) -> bool
    requires { IsTable table.now }
    ensures { result ≡ is_telling table.now node uid }
{
    let reserved = Uid {
        node,
        epoch: 0,
        serial: 0,
    };
    uid.epoch != 0 || table.blocks.needed == 0 || table.value(reserved).is_some()
}

/// For how many more changes the room is told behind one.
fn more_behind(table: &Table, node: u8, more: u64, uid: Uid) -> u64
    requires { IsTable table.now }
    ensures { result ≡ changes_behind table.now node more uid }
{
    if goes_on_telling(table, node, uid) {
        more.saturating_sub(1)
    } else {
        0
    }
}

/// Writes a block of a body, and answers the stage behind it.
fn write_part<D: Disk>(
    disk: &mut D,
    table: &Table,
    pending: &Pending,
    block: u32,
    from: u32,
) -> Result<Stage, DiskRefusal>
    requires power { IsTrue (D.counts disk.old).power }
    requires held { IsHeld (D.counts disk.old).size (D.counts disk.old) table.now (Option.Some pending.now) }
    requires part { IsPartNext table.now pending.now block from }
    requires limit { length pending.now.body.items ≤ 262144 }
    ensures counts { DeviceCalls 1 (D.counts disk.old) (D.counts disk.new) (end_of result) }
    ensures obeyed { IsTrue D.obeys → Obeyed (D.due disk.old) (D.due disk.new) (D.counts disk.old) (D.counts disk.new) (end_of result) }
    ensures timed { IsTrue D.tells → Timed (D.counts disk.old).clock (D.told disk.old) (D.counts disk.new).clock (D.told disk.new) }
    ensures told { IsTrue D.tells
        → CallTold (Write (block * 1024) (part_bytes table.now pending.now block from)) (D.counts disk.new).clock (D.told disk.old)
        (D.told disk.new) (end_of result) }
    ensures stage { IfOk result (λ s. s ≡ behind_part table.now.blocks.next.items pending.now.body.items block from) }
{
    let next = table.blocks.next(block);
    let body: &[u8] = &pending.body;
    let to = (from + DATA).min(body.len() as u32);
    write_block(disk, block, next as u16, &body[from as usize..to as usize])?;
    if next == 0 {
        Ok(Stage::Head)
    } else {
        Ok(Stage::Write {
            block: next,
            from: to,
        })
    }
}

/// Closes the next of the heads that are to be closed, and answers the stage behind it.
fn close_next<D: Disk>(
    disk: &mut D,
    table: &mut Table,
    pending: &Pending,
    number: u32,
) -> Result<Stage, DiskRefusal>
    requires power { IsTrue (D.counts disk.old).power }
    requires held { IsHeld (D.counts disk.old).size (D.counts disk.old) table.old (Option.Some pending.now) }
    requires first { IsFirstOf table.old.heads.closing (Option.Some number) }
    ensures counts { DeviceCalls 1 (D.counts disk.old) (D.counts disk.new) (end_of result) }
    ensures obeyed { IsTrue D.obeys → Obeyed (D.due disk.old) (D.due disk.new) (D.counts disk.old) (D.counts disk.new) (end_of result) }
    ensures timed { IsTrue D.tells → Timed (D.counts disk.old).clock (D.told disk.old) (D.counts disk.new).clock (D.told disk.new) }
    ensures told { IsTrue D.tells
        → CallTold (Write (blocks.head_place number) (0 ∷ [])) (D.counts disk.new).clock (D.told disk.old) (D.told disk.new)
        (end_of result) }
    ensures held { IsHeld (D.counts disk.new).size (D.counts disk.new) table.new (Option.Some pending.now) }
    ensures same { IfErr result (λ e. table.new ≡ table.old) }
    ensures closed { IfOk result (λ s. IsClosedBy table.old table.new number) }
    ensures stage { IfOk result (IsBehindClosing table.new pending.now.head) }
{
    write_gate(disk, number, CLOSED)?;
    table.heads.close_head(number);
    match table.heads.next_to_close() {
        Some(_) => Ok(Stage::Close),
        None => Ok(stage_behind_closing(pending.head)),
    }
}

/// Makes the next device call of a job, and answers the stage behind it, or None behind its last.
fn make_call<D: Disk>(
    disk: &mut D,
    table: &mut Table,
    pending: &Pending,
) -> Result<Option<Stage>, DiskRefusal>
    requires power { IsTrue (D.counts disk.old).power }
    requires held { IsHeld (D.counts disk.old).size (D.counts disk.old) table.old (Option.Some pending.now) }
    requires staged { IsStaged table.old pending.now pending.now.stage }
    requires going { is_going pending.now.stage ≡ true }
    requires short { pending.now.head.first < 65536 }
    requires limit { length pending.now.body.items ≤ 262144 }
    ensures counts { DeviceCalls 1 (D.counts disk.old) (D.counts disk.new) (end_of result) }
    ensures obeyed { IsTrue D.obeys → Obeyed (D.due disk.old) (D.due disk.new) (D.counts disk.old) (D.counts disk.new) (end_of result) }
    ensures timed { IsTrue D.tells → Timed (D.counts disk.old).clock (D.told disk.old) (D.counts disk.new).clock (D.told disk.new) }
    ensures told { IsTrue D.tells
        → CallTold (stage_call table.old pending.now pending.now.stage) (D.counts disk.new).clock (D.told disk.old) (D.told disk.new)
        (end_of result) }
    ensures held { IsHeld (D.counts disk.new).size (D.counts disk.new) table.new (Option.Some pending.now) }
    ensures same { IfErr result (λ e. table.new ≡ table.old) }
    ensures next { IfOk result (IsNext table.old table.new pending.now pending.now.stage) }
{
    let head = pending.head;
    match pending.stage {
        Stage::Close => {
            let Some(number) = table.heads.next_to_close() else {
                unreachable!();
            };
            Ok(Some(close_next(disk, table, pending, number)?))
        }
        Stage::Write { block, from } => Ok(Some(write_part(disk, table, pending, block, from)?)),
        Stage::Head => {
            write_head(disk, head)?;
            Ok(Some(Stage::SyncHead))
        }
        Stage::SyncHead => {
            disk.sync()?;
            Ok(Some(Stage::Open))
        }
        Stage::Open => {
            write_gate(disk, head.number, OPEN)?;
            Ok(Some(Stage::SyncOpen))
        }
        Stage::SyncOpen => {
            disk.sync()?;
            Ok(None)
        }
        Stage::Ended { .. } => unreachable!(),
    }
}

/// The head whose gate tells what a refused call left: the one that it was to close, or that of the change.
fn gate_in_doubt(table: &Table, pending: &Pending) -> u32
    requires { AreHeads table.now.heads }
    ensures { result ≡ gate_of table.now pending.now pending.now.stage }
{
    let own = pending.head.number;
    match pending.stage {
        Stage::Close => match table.heads.next_to_close() {
            Some(number) => number,
            None => 0,
        },
        Stage::Write { .. } => own,
        Stage::Head => own,
        Stage::SyncHead => own,
        Stage::Open => own,
        Stage::SyncOpen => own,
        Stage::Ended { .. } => own,
    }
}

/// Settles a change by what a gate says: its own, or that of a head which it was to close.
fn settle_table(table: &mut Table, pending: &Pending, gate: u32, is_open: bool) -> Pick
    requires held { (size : ℕ) × (counts : Counts) × IsHeld size counts table.old (Option.Some pending.now) }
    requires gate { (gate ≡ pending.now.head.number) ⊎ (is_member table.old.heads.closing gate ≡ true) }
    ensures held { (size : ℕ) (counts : Counts) → IsHeld size counts table.old (Option.Some pending.now)
        → IsHeld size counts table.new Option.None }
    ensures settled { IsSettledBy table.old table.new pending.now gate is_open result }
    ensures keys { (q : _) → IsSome (tree.get uid_cmp table.old.heads.index q) → IsSome (tree.get uid_cmp table.new.heads.index q) }
{
    let head = pending.head;
    if gate == head.number {
        if is_open {
            table.make_change(head);
            Pick::New
        } else {
            table.drop_change(head);
            Pick::Old
        }
    } else if is_open {
        table.drop_change(head);
        Pick::Old
    } else {
        table.heads.close_head(gate);
        table.drop_change(head);
        Pick::Old
    }
}

impl<D: Disk> BlockStore<D> {
    ghost use Rattle.passive_store.specs.Kept.{Idle, is_busy, is_unsettled, body_at, calls_left, IsOwn, IsEject};
    ghost use Rattle.passive_store.specs.Seen.{asked, Advances, SettlesOneCall, Settled, Begins, Finishes};
    ghost use Rattle.passive_blocks.specs.BlockLayout.{block_layout};
    ghost use Rattle.passive_blocks.specs.StoreState.{block_seen, state_kept, HasEntry, body_asked};

    /// Begins the job of a change for which there is an entry, where it finds room.
    fn start(&mut self, uid: Uid, removal: bool, body: Vec<u8>) -> Result<(), StoreRefusal>
        requires idle { self.old.work ≡ Idle }
        requires entry { HasEntry self.old.entries uid }
        requires own { IsOwn self.old.node uid (length body.items) }
        requires limit { length body.items ≤ 262144 }
        requires eject { removal ≡ true → 1 ≤ uid.epoch }
        requires empty { removal ≡ true → body.items ≡ [] }
        requires kept { removal ≡ true → IsTrue D.tells → IsSome (body_at (state_kept D.told self.old) uid) }
        ensures begins { Begins D.tells block_layout (asked uid (body_asked removal body.items)) result
            (block_seen D.counts D.told D.due self.old) (block_seen D.counts D.told D.due self.new) }
        ensures only { IfErr result (λ e. e ≡ Full) }
        ensures fewer { self.new.more ≤ self.old.more }
    {
        let more = more_behind(&self.table, self.node, self.more, uid);
        let head = self.table.choose(uid, removal, body.len() as u32)?;
        let stage = first_stage(&self.table, head);
        self.pending = Some(Pending {
            head,
            body,
            stage,
            made: 0,
        });
        self.more = more;
        Ok(())
    }

    /// Makes the next device call of the job.
    fn advance_job(&mut self) -> Result<Progress, StoreRefusal>
        requires power { IsTrue (D.counts self.old.device).power }
        requires busy { IsTrue (is_busy self.old.work) }
        ensures { Advances D.tells D.obeys block_layout result (block_seen D.counts D.told D.due self.old)
            (block_seen D.counts D.told D.due self.new) }
    {
        let Some(mut pending) = self.pending.take() else {
            return Ok(Progress::Done);
        };
        let result = make_call(&mut self.disk, &mut self.table, &pending);
        pending.made += 1;
        match result {
            Err(refusal) => {
                pending.stage = Stage::Ended {
                    gate: gate_in_doubt(&self.table, &pending),
                    synced: false,
                };
                self.pending = Some(pending);
                Err(refusal.into())
            }
            Ok(next) => match next {
                Some(stage) => {
                    pending.stage = stage;
                    self.pending = Some(pending);
                    Ok(Progress::Going)
                }
                None => {
                    self.table.make_change(pending.head);
                    Ok(Progress::Done)
                }
            },
        }
    }

    /// Makes one call of the settling: a sync, or the read of a gate.
    fn settle_once(&mut self) -> Result<Progress, StoreRefusal>
        requires power { IsTrue (D.counts self.old.device).power }
        requires unsettled { IsTrue (is_unsettled self.old.work) }
        ensures settles { SettlesOneCall D.tells D.obeys block_layout result (block_seen D.counts D.told D.due self.old)
            (block_seen D.counts D.told D.due self.new) }
        ensures entries { (q : _) → HasEntry self.old.entries q → HasEntry self.new.entries q }
    {
        self.picked = None;
        let Some(mut pending) = self.pending.take() else {
            return Ok(Progress::Done);
        };
        let Stage::Ended { gate, synced } = pending.stage else {
            self.pending = Some(pending);
            return Ok(Progress::Done);
        };
        if !synced {
            return match self.disk.sync() {
                Ok(()) => {
                    pending.stage = Stage::Ended { gate, synced: true };
                    self.pending = Some(pending);
                    Ok(Progress::Going)
                }
                Err(refusal) => {
                    pending.stage = Stage::Ended {
                        gate,
                        synced: false,
                    };
                    self.pending = Some(pending);
                    Err(refusal.into())
                }
            };
        }
        match read_gate(&mut self.disk, gate) {
            Err(refusal) => {
                pending.stage = Stage::Ended {
                    gate,
                    synced: false,
                };
                self.pending = Some(pending);
                Err(refusal.into())
            }
            Ok(is_open) => {
                let pick = settle_table(&mut self.table, &pending, gate, is_open);
                self.picked = Some(pick);
                Ok(Progress::Done)
            }
        }
    }

    ghost use Rattle.passive_store.specs.Seen.{Settled};
    ghost use Rattle.passive_blocks.specs.StageAnew.{IsAnew};

    /// Makes ready for a whole settling, and tells whether there is one.
    fn begin_settling(&mut self) -> bool
        requires { IsTrue (D.counts self.old.device).power }
        ensures anew { IsAnew D.tells block_layout result (block_seen D.counts D.told D.due self.old)
            (block_seen D.counts D.told D.due self.new) }
        ensures entries { self.new.entries ≡ self.old.entries }
    {
        self.picked = None;
        let Some(mut pending) = self.pending.take() else {
            return false;
        };
        let Stage::Ended { gate, .. } = pending.stage else {
            self.pending = Some(pending);
            return false;
        };
        pending.stage = Stage::Ended {
            gate,
            synced: false,
        };
        self.pending = Some(pending);
        true
    }

    /// Settles the change in doubt, if there is one whose job has ended.
    fn settle_blocks(&mut self) -> Result<(), StoreRefusal>
        requires { IsTrue (D.counts self.old.device).power }
        ensures settled { Settled D.tells D.obeys block_layout result (block_seen D.counts D.told D.due self.old)
            (block_seen D.counts D.told D.due self.new) }
        ensures entries { (q : _) → HasEntry self.old.entries q → HasEntry self.new.entries q }
    {
        if self.begin_settling() {
            self.settle_once()?;
            self.settle_once()?;
        }
        Ok(())
    }

    /// Makes the device calls of the job up to its end.
    fn finish_job(&mut self) -> Result<(), StoreRefusal>
        requires power { IsTrue (D.counts self.old.device).power }
        requires busy { IsTrue (is_busy self.old.work) }
        requires some { 1 ≤ calls_left self.old.work }
        ensures { Finishes D.tells D.obeys block_layout result (block_seen D.counts D.told D.due self.old)
            (block_seen D.counts D.told D.due self.new) }
    {
        while let Progress::Going = self.advance_job()? {}
        Ok(())
    }

    /// Whether a value is kept under a uid.
    fn is_kept(&self, uid: Uid) -> bool
        ensures { IsTrue D.tells → result ≡ is_some (body_at (state_kept D.told self.now) uid) }
    {
        self.table.value(uid).is_some()
    }

    ghost use Rattle.passive_blocks.specs.ReadState.{ReadsBody};

    /// Reads what is kept under a uid.
    fn read_body(&mut self, alloc: Global, uid: Uid) -> Result<Option<Body>, StoreRefusal>
        requires power { IsTrue (D.counts self.old.device).power }
        ensures { ReadsBody D.tells D.obeys uid result (block_seen D.counts D.told D.due self.old)
            (block_seen D.counts D.told D.due self.new) }
    {
        let Some(value) = self.table.value(uid) else {
            return Ok(None);
        };
        let bytes = read_value(alloc, &mut self.disk, &self.table.blocks, value)?;
        Ok(Some(Seq { items: bytes }))
    }
}

impl<D: Disk> Store for BlockStore<D> {
    type Device = D;

    ghost use Rattle.passive_blocks.specs.BlockLayout.{block_layout};
    ghost use Rattle.passive_blocks.specs.StoreState.{block_seen};

    ghost layout = { block_layout };

    ghost seen = { λ s. block_seen D.counts D.told D.due s };

    fn open_disk(alloc: Global, mut disk: D, node: u8) -> Result<Self, (D, StoreRefusal)> {
        match open_blocks(alloc, &mut disk, node) {
            Ok(table) => {
                let size = disk.size();
                let more = changes_told(&table);
                Ok(BlockStore {
                    disk,
                    node,
                    size,
                    table,
                    pending: None,
                    picked: None,
                    more,
                })
            }
            Err(refusal) => Err((disk, refusal)),
        }
    }

    fn disk(&self) -> &D {
        &self.disk
    }

    fn close(self) -> D {
        let BlockStore { disk, .. } = self;
        disk
    }

    fn disk_mut_arm(&mut self, what: Arm) {
        self.disk.arm(what);
    }

    fn unsure(&self) -> Option<Uid> {
        match &self.pending {
            Some(pending) => unsure_uid(pending),
            None => None,
        }
    }

    fn working_on(&self) -> Option<Uid> {
        match &self.pending {
            Some(pending) => worked_uid(pending),
            None => None,
        }
    }

    fn picked(&self) -> Option<Pick> {
        self.picked
    }

    fn mark(&self, uid: Uid) -> Option<u64> {
        self.table.mark(uid)
    }

    fn holds(&self, uid: Uid) -> bool {
        self.is_kept(uid)
    }

    fn after(&self, uid: Option<Uid>) -> Option<Uid> {
        self.table.after(uid, self.node)
    }

    fn room(&self) -> Option<u32> {
        self.table.room()
    }

    fn settle_step(&mut self) -> Result<Progress, StoreRefusal> {
        self.settle_once()
    }

    fn begin_put(&mut self, alloc: Global, uid: Uid, body: &[u8]) -> Result<(), StoreRefusal> {
        let bytes = copy_body(alloc, body)?;
        self.table.make_entry(uid)?;
        self.start(uid, false, bytes)
    }

    fn begin_delete(&mut self, alloc: Global, uid: Uid) -> Result<(), StoreRefusal> {
        self.table.make_entry(uid)?;
        self.start(uid, true, Vec::new(alloc))
    }

    fn advance(&mut self) -> Result<Progress, StoreRefusal> {
        self.advance_job()
    }

    fn settle(&mut self) -> Result<(), StoreRefusal> {
        self.settle_blocks()
    }

    fn put(&mut self, alloc: Global, uid: Uid, body: &[u8]) -> Result<(), StoreRefusal> {
        self.picked = None;
        let bytes = copy_body(alloc, body)?;
        self.table.make_entry(uid)?;
        self.settle_blocks()?;
        self.start(uid, false, bytes)?;
        self.finish_job()
    }

    fn delete(&mut self, alloc: Global, uid: Uid) -> Result<(), StoreRefusal> {
        self.picked = None;
        self.table.make_entry(uid)?;
        self.settle_blocks()?;
        if !self.is_kept(uid) {
            return Ok(());
        }
        self.start(uid, true, Vec::new(alloc))?;
        self.finish_job()
    }

    fn get(&mut self, alloc: Global, uid: Uid) -> Result<Option<Body>, StoreRefusal> {
        self.settle_blocks()?;
        self.read_body(alloc, uid)
    }
}

/// The uid that a job works on.
fn worked_uid(pending: &Pending) -> Option<Uid>
    ensures { (t : _) → result ≡ worked_on (work_at t pending.now pending.now.stage) }
{
    let uid = pending.head.uid;
    match pending.stage {
        Stage::Close => Some(uid),
        Stage::Write { .. } => Some(uid),
        Stage::Head => Some(uid),
        Stage::SyncHead => Some(uid),
        Stage::Open => Some(uid),
        Stage::SyncOpen => Some(uid),
        Stage::Ended { .. } => None,
    }
}

/// The uid of a change in doubt: from its first device call on.
fn unsure_uid(pending: &Pending) -> Option<Uid>
    ensures { (t : _) → result ≡ unsure_in (work_at t pending.now pending.now.stage) }
{
    let uid = pending.head.uid;
    let begun = if pending.made == 0 { None } else { Some(uid) };
    match pending.stage {
        Stage::Close => begun,
        Stage::Write { .. } => begun,
        Stage::Head => begun,
        Stage::SyncHead => begun,
        Stage::Open => begun,
        Stage::SyncOpen => begun,
        Stage::Ended { .. } => Some(uid),
    }
}
