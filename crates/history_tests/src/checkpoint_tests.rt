ghost use Rattle.std.specs.Prelude.{◌≡◌, ◌≢◌, ◌≤◌, ◌<◌, ◌^◌, ◌==◌, ◌&&◌, ◌∷◌, [], ℕ, codes, length};
ghost use Rattle.std.specs.Prelude.{Option, IsTrue, IfOk, IfSome, MatchOption};
ghost use Rattle.eden_value.specs.Shape.{ints};
ghost use Rattle.eden_model.specs.Map.{same_text};
ghost use Rattle.epl_syntax.specs.declared.types.Native.TheVariants.{Cell};
ghost use Rattle.epl_syntax.specs.Edentype.{native};
ghost use Rattle.epl_syntax.specs.Kinds.{have_shapes};
ghost use Rattle.passive_store.specs.Kept.{Idle, is_busy, worked_on};
ghost use Rattle.checkpoint.specs.Asked.{AllOfNode, PowerBehind};
ghost use Rattle.eden_disk.specs.Calls.{Counts};
ghost use Rattle.history_tests.specs.declared.checkpoint_tests.Came.TheVariants.{Stopped};

use crate::common::{FIRST, Log, arm_of, blank, uid_of};
use capability::{Body, Seq, Uid};
use checkpoint::{
    BootFall, BootNote, Start, Starter, StepEnd, StoreEnd, Worker, arm, boot, crash, runs_stand,
    start_from,
};
use eden_codec::Rep;
use eden_disk::{Disk, ImageMode, SimDisk};
use eden_value::{Items, Kind, Value, has_kind, texted};
use epl_syntax::same_text;
use journal::BootEnd;
use passive_store::{Doubt, Pick, Store};
use std::alloc::{AllocError, Global};
use std::process::Abort;

const SECOND: Uid = Uid {
    node: 1,
    epoch: 1,
    serial: 2,
};

const KEEP: ImageMode = ImageMode::Keep;

const LOSE: ImageMode = ImageMode::Lose;

const MODES: &[ImageMode] = &[KEEP, LOSE];

/// The device calls of an opening of a blank disk, and of a change.
const OPENING: u32 = 7;

const JOB: u32 = 4;

/// The one type Cell, whose durable value is an integer.
struct Cells;

fn are_one_int(values: &Items) -> bool
    ensures { result ≡ have_shapes values.now (ints ∷ []) }
{
    if values.values.len() != 1 {
        return false;
    }
    has_kind(&values.values[0], &Kind::Int)
}

/// Whether a representation is one of a Cell.
fn is_cell(alloc: Global, rep: &Rep) -> Result<bool, AllocError>
    ensures { IfOk result (λ is. is ≡ (same_text (codes "Cell") rep.now.type_name
        && ((rep.now.version == 1) && have_shapes rep.now.values (ints ∷ [])))) }
{
    let name = texted(b"Cell".to_vec(alloc)?)?;
    Ok(same_text(&name, &rep.type_name) && rep.version == 1 && are_one_int(&rep.values))
}

impl Starter for Cells {
    type Started = Items;

    ghost types = { λ _. native Cell ∷ [] };

    ghost started = { λ _ durable. (native Cell, durable) };

    fn start(&self, alloc: Global, rep: Rep, _me: Uid) -> Result<Option<Items>, AllocError> {
        let is_cell = is_cell(alloc, &rep)?;
        Ok(if is_cell { Some(rep.values) } else { None })
    }
}

/// How far some steps came: how many they were, what a settling found, and the end of the first request with the
/// process that it answers.
#[derive(Clone, Copy, PartialEq, Eq)]
struct Steps {
    made: u32,
    pick: Option<Pick>,
    end: Option<StoreEnd>,
    process: Option<u8>,
}

/// Makes steps up to the end of the first request, at most so many.
#[tactic(auto, using(checkpoint::proofs::OneCalls::none_worked))]
fn step_on<St: Store>(
    rt: &impl Abort,
    alloc: Global,
    worker: &mut Worker,
    store: &mut St,
    most: u32,
) -> Steps
    requires power { IsTrue (St.seen store.old).disk.counts.power }
    requires begun { worker.old.begun ≡ is_busy (St.seen store.old).work }
    requires of_node { AllOfNode (St.seen store.old).node worker.old.requests.items }
    ensures node { (St.seen store.new).node ≡ (St.seen store.old).node }
    ensures begun { worker.new.begun ≡ is_busy (St.seen store.new).work }
    ensures of_node { AllOfNode (St.seen store.new).node worker.new.requests.items }
    ensures idle { IfSome result.end (λ _. worked_on (St.seen store.new).work ≡ Option.None) }
    ensures power { MatchOption result.end (IsTrue (St.seen store.new).disk.counts.power)
        (λ e. PowerBehind e (St.seen store.new).disk.counts) }
{
    let mut pick = None;
    for made in 0..most {
        if !worker.pending() {
            return Steps {
                made,
                pick,
                end: None,
                process: None,
            };
        }
        match worker.step(alloc, store).expect(rt, "memory") {
            StepEnd::Going { settled } => {
                if let Some(found) = settled {
                    pick = Some(found.pick);
                }
            }
            StepEnd::Ended { request, end } => {
                return Steps {
                    made: made + 1,
                    pick,
                    end: Some(end),
                    process: request.process,
                };
            }
        }
    }
    Steps {
        made: most,
        pick,
        end: None,
        process: None,
    }
}

/// What is kept of a Cell that holds 5, and of others.
const CELL_5: &[u8] = &[
    1, 4, b'C', b'e', b'l', b'l', 0, 1, 1, 1, 0, 0, 0, 0, 0, 0, 0, 5,
];

const CELL_6: &[u8] = &[
    1, 4, b'C', b'e', b'l', b'l', 0, 1, 1, 1, 0, 0, 0, 0, 0, 0, 0, 6,
];

const CELL_7: &[u8] = &[
    1, 4, b'C', b'e', b'l', b'l', 0, 1, 1, 1, 0, 0, 0, 0, 0, 0, 0, 7,
];

const CELL_8: &[u8] = &[
    1, 4, b'C', b'e', b'l', b'l', 0, 1, 1, 1, 0, 0, 0, 0, 0, 0, 0, 8,
];

const CELL_9: &[u8] = &[
    1, 4, b'C', b'e', b'l', b'l', 0, 1, 1, 1, 0, 0, 0, 0, 0, 0, 0, 9,
];

/// What is done to a store.
#[derive(Clone, Copy)]
enum Act {
    /// A process of the Eject of this serial asks that these bytes are kept of it.
    Put(u32, u8, &'static [u8]),
    /// It asks that nothing is.
    Delete(u32, u8),
    /// The first Eject goes.
    Drop,
    /// The device call that comes so many calls later is to fail, or to stop in this mode.
    Arm(Option<ImageMode>, u32),
    /// Steps up to the end of the first request, at most so many.
    Steps(u32),
    /// The first process of the first Eject asks for so many zero bytes, and steps that make so many device calls.
    Zeros(u16, u64),
}

/// An act, and the steps that it makes.
type Row = (Act, Option<Steps>);

/// The Eject of this serial asks that these bytes are kept of it.
fn ask_put(
    rt: &impl Abort,
    alloc: Global,
    worker: &mut Worker,
    serial: u32,
    process: u8,
    bytes: &[u8],
)
    ensures begun { worker.new.begun ≡ worker.old.begun }
    ensures of_node { (n : ℕ) → n ≡ 1 → AllOfNode n worker.old.requests.items → AllOfNode n worker.new.requests.items }
{
    assert!(rt; 1 <= serial && bytes.len() <= 100);
    let items = bytes.to_vec(alloc).expect(rt, "memory");
    let uid = Uid {
        node: 1,
        epoch: 1,
        serial,
    };
    worker
        .ask_put(uid, process, Seq { items })
        .expect(rt, "memory");
}

/// The Eject of this serial asks that nothing is kept of it.
fn ask_delete(rt: &impl Abort, worker: &mut Worker, serial: u32, process: u8)
    ensures begun { worker.new.begun ≡ worker.old.begun }
    ensures of_node { (n : ℕ) → n ≡ 1 → AllOfNode n worker.old.requests.items → AllOfNode n worker.new.requests.items }
{
    assert!(rt; 1 <= serial);
    let uid = Uid {
        node: 1,
        epoch: 1,
        serial,
    };
    worker.ask_delete(uid, process).expect(rt, "memory");
}

/// The first Eject goes.
fn drop_first(worker: &mut Worker)
    ensures begun { worker.new.begun ≡ worker.old.begun }
    ensures of_node { (n : ℕ) → n ≡ 1 → AllOfNode n worker.old.requests.items → AllOfNode n worker.new.requests.items }
{
    worker.drop_requests(FIRST);
}

/// The first process of the first Eject asks for so many zero bytes.
fn ask_zeros(rt: &impl Abort, alloc: Global, worker: &mut Worker, length: u16)
    ensures begun { worker.new.begun ≡ worker.old.begun }
    ensures of_node { (n : ℕ) → n ≡ 1 → AllOfNode n worker.old.requests.items → AllOfNode n worker.new.requests.items }
{
    let items = vec![in alloc; 0u8; length as usize].expect(rt, "memory");
    worker.ask_put(FIRST, 1, Seq { items }).expect(rt, "memory");
}

/// Asks for so many zero bytes, and makes the steps, which make so many device calls.
fn put_zeros<St: Store>(
    rt: &impl Abort,
    alloc: Global,
    worker: &mut Worker,
    store: &mut St,
    length: u16,
    calls: u64,
) -> Steps
    requires node { (St.seen store.old).node ≡ 1 }
    requires power { IsTrue (St.seen store.old).disk.counts.power }
    requires begun { worker.old.begun ≡ is_busy (St.seen store.old).work }
    requires of_node { AllOfNode (St.seen store.old).node worker.old.requests.items }
    ensures node { (St.seen store.new).node ≡ 1 }
    ensures begun { worker.new.begun ≡ is_busy (St.seen store.new).work }
    ensures of_node { AllOfNode (St.seen store.new).node worker.new.requests.items }
    ensures power { MatchOption result.end (IsTrue (St.seen store.new).disk.counts.power)
        (λ e. PowerBehind e (St.seen store.new).disk.counts) }
{
    ask_zeros(rt, alloc, worker, length);
    let before = store.disk().clock();
    let steps = step_on(rt, alloc, worker, store, 100);
    let made = store.disk().clock().saturating_sub(before);
    assert!(rt; made == calls, "{length}");
    steps
}

/// Makes an act that is no step.
fn ask<St: Store>(rt: &impl Abort, alloc: Global, worker: &mut Worker, store: &mut St, act: Act)
    requires node { (St.seen store.old).node ≡ 1 }
    requires power { IsTrue (St.seen store.old).disk.counts.power }
    requires begun { worker.old.begun ≡ is_busy (St.seen store.old).work }
    requires of_node { AllOfNode (St.seen store.old).node worker.old.requests.items }
    ensures node { (St.seen store.new).node ≡ 1 }
    ensures begun { worker.new.begun ≡ is_busy (St.seen store.new).work }
    ensures of_node { AllOfNode (St.seen store.new).node worker.new.requests.items }
    ensures power { IsTrue (St.seen store.new).disk.counts.power }
{
    match act {
        Act::Put(serial, process, bytes) => ask_put(rt, alloc, worker, serial, process, bytes),
        Act::Delete(serial, process) => ask_delete(rt, worker, serial, process),
        Act::Drop => drop_first(worker),
        Act::Arm(stop, after) => arm(store, arm_of(stop, after.max(1))),
        _ => {}
    }
}

/// Whether the disk has power behind these steps.
fn has_power(steps: &Steps) -> bool
    ensures { (counts : Counts) → MatchOption steps.now.end (IsTrue counts.power) (λ e. PowerBehind e counts)
        → IsTrue result → IsTrue counts.power }
{
    match steps.end {
        None => true,
        Some(StoreEnd::Done) => true,
        Some(StoreEnd::Full) => true,
        Some(StoreEnd::Fault) => true,
        Some(StoreEnd::Stopped) => false,
    }
}

/// Makes an act: the steps that it makes, and whether the disk has power.
fn take<St: Store>(
    rt: &impl Abort,
    alloc: Global,
    worker: &mut Worker,
    store: &mut St,
    act: Act,
) -> (Option<Steps>, bool)
    requires node { (St.seen store.old).node ≡ 1 }
    requires power { IsTrue (St.seen store.old).disk.counts.power }
    requires begun { worker.old.begun ≡ is_busy (St.seen store.old).work }
    requires of_node { AllOfNode (St.seen store.old).node worker.old.requests.items }
    ensures node { (St.seen store.new).node ≡ 1 }
    ensures begun { worker.new.begun ≡ is_busy (St.seen store.new).work }
    ensures of_node { AllOfNode (St.seen store.new).node worker.new.requests.items }
    ensures power { IsTrue result.1 → IsTrue (St.seen store.new).disk.counts.power }
{
    match act {
        Act::Steps(most) => {
            let steps = step_on(rt, alloc, worker, store, most);
            (Some(steps), has_power(&steps))
        }
        Act::Zeros(length, calls) => {
            let steps = put_zeros(rt, alloc, worker, store, length, calls);
            (Some(steps), has_power(&steps))
        }
        _ => {
            ask(rt, alloc, worker, store, act);
            (None, true)
        }
    }
}

/// Makes the acts, up to the first behind which the disk has no power. Whether it has.
fn run<St: Store>(
    rt: &impl Abort,
    alloc: Global,
    worker: &mut Worker,
    store: &mut St,
    rows: &[Row],
) -> bool
    requires node { (St.seen store.old).node ≡ 1 }
    requires power { IsTrue (St.seen store.old).disk.counts.power }
    requires begun { worker.old.begun ≡ is_busy (St.seen store.old).work }
    requires of_node { AllOfNode (St.seen store.old).node worker.old.requests.items }
    ensures node { (St.seen store.new).node ≡ 1 }
    ensures begun { worker.new.begun ≡ is_busy (St.seen store.new).work }
    ensures of_node { AllOfNode (St.seen store.new).node worker.new.requests.items }
    ensures power { IsTrue result → IsTrue (St.seen store.new).disk.counts.power }
{
    for (place, &(act, wanted)) in rows.iter().enumerate() {
        let (steps, up) = take(rt, alloc, worker, store, act);
        assert!(rt; steps == wanted, "at {place}");
        if !up {
            return false;
        }
    }
    true
}

/// Makes the acts, of which none is to stop the disk.
fn run_up<St: Store>(
    rt: &impl Abort,
    alloc: Global,
    worker: &mut Worker,
    store: &mut St,
    rows: &[Row],
)
    requires node { (St.seen store.old).node ≡ 1 }
    requires power { IsTrue (St.seen store.old).disk.counts.power }
    requires begun { worker.old.begun ≡ is_busy (St.seen store.old).work }
    requires of_node { AllOfNode (St.seen store.old).node worker.old.requests.items }
    ensures node { (St.seen store.new).node ≡ 1 }
    ensures begun { worker.new.begun ≡ is_busy (St.seen store.new).work }
    ensures of_node { AllOfNode (St.seen store.new).node worker.new.requests.items }
    ensures power { IsTrue (St.seen store.new).disk.counts.power }
{
    let is_up = run(rt, alloc, worker, store, rows);
    assert!(rt; is_up, "the disk stopped");
}

/// A blank disk.
fn blank_disk(rt: &impl Abort, alloc: Global) -> Box<SimDisk> {
    Box::new(alloc, blank(alloc).expect(rt, "memory")).expect(rt, "memory")
}

/// Boots a disk, which is to succeed.
fn boot_up<St: Store>(
    rt: &impl Abort,
    alloc: Global,
    disk: St::Device,
    noted: Option<Doubt>,
) -> (St, BootNote)
where
    St::Device: Drop,
    ensures node { (St.seen result.0).node ≡ 1 }
    ensures idle { (St.seen result.0).work ≡ Idle }
    ensures power { IsTrue (St.seen result.0).disk.counts.power }
{
    match boot(alloc, disk, 1, noted) {
        Ok(booted) => booted,
        Err(_) => panic!(rt; "no boot"),
    }
}

/// Boots a disk, and makes these acts.
fn begin<St: Store + Drop>(
    rt: &impl Abort,
    alloc: Global,
    disk: Box<St::Device>,
    rows: &[Row],
) -> (St, Box<Worker>)
where
    St::Device: Drop,
    ensures node { (St.seen result.0).node ≡ 1 }
    ensures begun { result.1.value.begun ≡ is_busy (St.seen result.0).work }
    ensures of_node { AllOfNode (St.seen result.0).node result.1.value.requests.items }
    ensures power { IsTrue (St.seen result.0).disk.counts.power }
{
    let (mut store, _) = boot_up::<St>(rt, alloc, Box::into_inner(disk), None);
    let mut worker = Box::new(alloc, Worker::new(alloc)).expect(rt, "memory");
    run_up(rt, alloc, &mut worker, &mut store, rows);
    (store, worker)
}

/// How an activation ended.
#[derive(Clone, Copy, PartialEq, Eq)]
enum Came {
    Number { n: i64 },
    Gone,
    Fault,
    Damaged,
    Stopped,
}

/// The one integer of these values.
fn the_number(rt: &impl Abort, items: &Items) -> i64 {
    match items.values.as_slice() {
        [Value::Int { n }] => *n,
        _ => panic!(rt; "no one integer"),
    }
}

/// Activates an Eject.
fn activate<St: Store>(
    rt: &impl Abort,
    alloc: Global,
    store: &mut St,
    uid: Uid,
) -> (Came, Option<Pick>)
    requires power { IsTrue (St.seen store.old).disk.counts.power }
    requires idle { worked_on (St.seen store.old).work ≡ Option.None }
    ensures power { result.0 ≢ Stopped → IsTrue (St.seen store.new).disk.counts.power }
    ensures idle { worked_on (St.seen store.new).work ≡ Option.None }
{
    let (start, settled) = start_from(alloc, store, &Cells, uid).expect(rt, "memory");
    let pick = match settled {
        Some(found) => Some(found.pick),
        None => None,
    };
    match &start {
        Start::Values { start } => {
            let n = the_number(rt, start);
            (Came::Number { n }, pick)
        }
        Start::Gone => (Came::Gone, pick),
        Start::Fault => (Came::Fault, pick),
        Start::Damaged => (Came::Damaged, pick),
        Start::Stopped => (Came::Stopped, pick),
    }
}

/// The integer of a Cell that starts from what is kept, or None where nothing is.
fn number_of<St: Store>(rt: &impl Abort, alloc: Global, store: &mut St, uid: Uid) -> Option<i64>
    requires power { IsTrue (St.seen store.old).disk.counts.power }
    requires idle { worked_on (St.seen store.old).work ≡ Option.None }
    ensures power { IsTrue (St.seen store.new).disk.counts.power }
    ensures idle { worked_on (St.seen store.new).work ≡ Option.None }
{
    match activate(rt, alloc, store, uid).0 {
        Came::Number { n } => Some(n),
        Came::Gone => None,
        _ => panic!(rt; "what is kept is not read"),
    }
}

/// What a boot finds: the epoch, the pick, and the integers of both Cells.
#[derive(Clone, Copy, PartialEq, Eq)]
struct Found {
    epoch: u32,
    pick: Option<Pick>,
    first: Option<i64>,
    second: Option<i64>,
}

/// Boots a disk again.
fn reboot<St: Store + Drop>(
    rt: &impl Abort,
    alloc: Global,
    disk: St::Device,
    noted: Option<Doubt>,
) -> Found
where
    St::Device: Drop,
{
    let (mut store, note) = boot_up::<St>(rt, alloc, disk, noted);
    let first = number_of(rt, alloc, &mut store, FIRST);
    let second = number_of(rt, alloc, &mut store, SECOND);
    Found {
        epoch: note.epoch,
        pick: note.pick,
        first,
        second,
    }
}

/// Steps that settle nothing, how the first request ended, if it did, and the process that it answers.
fn steps_of(made: u32, end: Option<StoreEnd>, process: Option<u8>) -> Option<Steps> {
    Some(Steps {
        made,
        pick: None,
        end,
        process,
    })
}

/// The first Cell holds 5 and the second 7.
const TWO_CELLS: &[Row] = &[
    (Act::Put(1, 1, CELL_5), None),
    (Act::Put(2, 2, CELL_7), None),
    (
        Act::Steps(100),
        Some(Steps {
            made: JOB,
            pick: None,
            end: Some(StoreEnd::Done),
            process: Some(1),
        }),
    ),
    (
        Act::Steps(100),
        Some(Steps {
            made: JOB,
            pick: None,
            end: Some(StoreEnd::Done),
            process: Some(2),
        }),
    ),
];

/// Two Cells are kept on a disk, these acts made, and the power cut: how often the disk stopped and failed, and what a boot finds.
fn cut_on<St: Store + Drop>(
    rt: &impl Abort,
    alloc: Global,
    disk: Box<St::Device>,
    rows: &[Row],
    mode: ImageMode,
) -> (u64, u64, Found)
where
    St::Device: Drop,
{
    let (mut store, mut worker) = begin::<St>(rt, alloc, disk, TWO_CELLS);
    run(rt, alloc, &mut worker, &mut store, rows);
    let (disk, noted) = crash(store, mode);
    let stops = disk.stops();
    let faults = disk.faults();
    (stops, faults, reboot::<St>(rt, alloc, disk, noted))
}

/// The same of a blank disk.
fn cut(rt: &impl Abort, alloc: Global, rows: &[Row], mode: ImageMode) -> (u64, u64, Found) {
    cut_on::<Log>(rt, alloc, blank_disk(rt, alloc), rows, mode)
}

/// The first Cell is to hold 9, or to be removed.
fn change(removal: bool) -> Row {
    if removal {
        (Act::Delete(1, 3), None)
    } else {
        (Act::Put(1, 3, CELL_9), None)
    }
}

/// Whether a change is found after so many of its device calls and a power cut: behind the write of its gate, where the
/// cut keeps what was not synced, and behind the last sync.
fn is_found(calls: u32, mode: ImageMode) -> bool {
    calls == JOB || calls == 3 && mode == KEEP
}

/// What is found of a change, in doubt or not.
fn found_of(removal: bool, made: bool, doubtful: bool) -> Found {
    let pick = if made { Pick::New } else { Pick::Old };
    let new = if removal { None } else { Some(9) };
    Found {
        epoch: 2,
        pick: if doubtful { Some(pick) } else { None },
        first: if made { new } else { Some(5) },
        second: Some(7),
    }
}

/// Whether a change that a power cut ends behind so many of its device calls is found as it has to be.
fn is_found_behind(
    rt: &impl Abort,
    alloc: Global,
    mode: ImageMode,
    calls: u32,
    removal: bool,
) -> bool {
    let made = if calls == JOB {
        steps_of(calls, Some(StoreEnd::Done), Some(3))
    } else {
        steps_of(calls, None, None)
    };
    let rows = [change(removal), (Act::Steps(calls), made)];
    let doubtful = 0 < calls && calls < JOB;
    let found = found_of(removal, is_found(calls, mode), doubtful);
    cut(rt, alloc, &rows, mode) == (0, 0, found)
}

#[test]
fn a_change_that_a_crash_cuts(rt: HostRuntime) {
    for &mode in MODES {
        for calls in 0..=JOB {
            for &removal in &[false, true] {
                assert!(rt;
                    is_found_behind(&rt, rt.alloc(), mode, calls, removal),
                    "after {calls}"
                );
            }
        }
    }
}

/// Whether a change that a stop in one of its device calls ends is found as it has to be.
fn outlives_a_stop(
    rt: &impl Abort,
    alloc: Global,
    mode: ImageMode,
    after: u32,
    removal: bool,
) -> bool {
    let rows = [
        change(removal),
        (Act::Arm(Some(mode), after), None),
        (
            Act::Steps(100),
            steps_of(after, Some(StoreEnd::Stopped), Some(3)),
        ),
    ];
    let found = found_of(removal, 3 <= after && mode == KEEP, true);
    cut(rt, alloc, &rows, mode) == (1, 0, found)
}

#[test]
fn a_stop_in_each_device_call(rt: HostRuntime) {
    for &mode in MODES {
        for after in 1..=JOB {
            for &removal in &[false, true] {
                assert!(rt;
                    outlives_a_stop(&rt, rt.alloc(), mode, after, removal),
                    "in {after}"
                );
            }
        }
    }
}

/// A fault in a device call of the settling, and the request that fails with it; but for the third time nothing is done.
fn second_fault(settling: u32) -> (Row, Row) {
    if settling < 3 {
        let end = Some(StoreEnd::Fault);
        return (
            (Act::Arm(None, settling), None),
            (Act::Steps(100), steps_of(settling, end, Some(4))),
        );
    }
    let none = steps_of(0, None, None);
    ((Act::Steps(0), none), (Act::Steps(0), none))
}

/// What is found behind a fault in a device call of a change, whether or not the next request fails too.
fn found_behind(after: u32, fails: bool) -> Found {
    Found {
        epoch: 2,
        pick: None,
        first: Some(if after == JOB { 9 } else { 5 }),
        second: Some(if fails { 6 } else { 8 }),
    }
}

/// Whether faults in a device call of a change, and in one of the settling behind it, lose nothing that is kept.
fn outlives_faults(rt: &impl Abort, alloc: Global, after: u32, settling: u32) -> bool {
    let fails = settling < 3;
    let (again, refused) = second_fault(settling);
    let settled = Steps {
        made: 2 + JOB,
        pick: Some(if after == JOB { Pick::New } else { Pick::Old }),
        end: Some(StoreEnd::Done),
        process: Some(if fails { 5 } else { 4 }),
    };
    let rows = [
        (Act::Put(1, 3, CELL_9), None),
        (Act::Put(2, 4, CELL_8), None),
        (Act::Put(2, 5, CELL_6), None),
        (Act::Arm(None, after), None),
        (
            Act::Steps(100),
            steps_of(after, Some(StoreEnd::Fault), Some(3)),
        ),
        again,
        refused,
        (Act::Steps(100), Some(settled)),
    ];
    let faults = if fails { 2 } else { 1 };
    cut(rt, alloc, &rows, LOSE) == (0, faults, found_behind(after, fails))
}

// The settling of the next request fails too, but for the third time.
#[test]
fn a_fault_in_each_device_call(rt: HostRuntime) {
    for after in 1..=JOB {
        for settling in 1..=3 {
            assert!(rt;
                outlives_faults(&rt, rt.alloc(), after, settling),
                "in {after}, {settling}"
            );
        }
    }
}

/// The first Cell is to hold 9, the second 8, and last the first is to be removed; but it goes at once, or in the first request.
const GOES: &[(&[Row], i64)] = &[
    (
        &[
            (Act::Put(1, 3, CELL_9), None),
            (Act::Put(2, 4, CELL_8), None),
            (Act::Delete(1, 3), None),
            (
                Act::Steps(0),
                Some(Steps {
                    made: 0,
                    pick: None,
                    end: None,
                    process: None,
                }),
            ),
            (Act::Drop, None),
            (
                Act::Steps(100),
                Some(Steps {
                    made: 4,
                    pick: None,
                    end: Some(StoreEnd::Done),
                    process: Some(4),
                }),
            ),
            (
                Act::Steps(100),
                Some(Steps {
                    made: 0,
                    pick: None,
                    end: None,
                    process: None,
                }),
            ),
        ],
        5,
    ),
    (
        &[
            (Act::Put(1, 3, CELL_9), None),
            (Act::Put(2, 4, CELL_8), None),
            (Act::Delete(1, 3), None),
            (
                Act::Steps(1),
                Some(Steps {
                    made: 1,
                    pick: None,
                    end: None,
                    process: None,
                }),
            ),
            (Act::Drop, None),
            (
                Act::Steps(100),
                Some(Steps {
                    made: 3,
                    pick: None,
                    end: Some(StoreEnd::Done),
                    process: None,
                }),
            ),
            (
                Act::Steps(100),
                Some(Steps {
                    made: 4,
                    pick: None,
                    end: Some(StoreEnd::Done),
                    process: Some(4),
                }),
            ),
            (
                Act::Steps(100),
                Some(Steps {
                    made: 0,
                    pick: None,
                    end: None,
                    process: None,
                }),
            ),
        ],
        9,
    ),
];

#[test]
fn requests_of_an_eject_that_goes(rt: HostRuntime) {
    for &(rows, first) in GOES {
        let found = Found {
            epoch: 2,
            pick: None,
            first: Some(first),
            second: Some(8),
        };
        assert!(rt; cut(&rt, rt.alloc(), rows, LOSE) == (0, 0, found));
    }
}

// A removal of what is not kept makes no device call, and needs no room.
const ROOM: &[Row] = &[
    (
        Act::Zeros(4046, 0),
        Some(Steps {
            made: 1,
            pick: None,
            end: Some(StoreEnd::Full),
            process: Some(1),
        }),
    ),
    (
        Act::Zeros(4045, JOB as u64),
        Some(Steps {
            made: JOB,
            pick: None,
            end: Some(StoreEnd::Done),
            process: Some(1),
        }),
    ),
    (
        Act::Zeros(0, 0),
        Some(Steps {
            made: 1,
            pick: None,
            end: Some(StoreEnd::Full),
            process: Some(1),
        }),
    ),
    (Act::Delete(2, 2), None),
    (
        Act::Steps(100),
        Some(Steps {
            made: 1,
            pick: None,
            end: Some(StoreEnd::Done),
            process: Some(2),
        }),
    ),
];

/// Boots a disk, and makes these acts.
fn begins_on<St: Store + Drop>(rt: &impl Abort, alloc: Global, disk: Box<St::Device>, rows: &[Row])
where
    St::Device: Drop,
{
    begin::<St>(rt, alloc, disk, rows);
}

/// The same with a blank disk.
fn begins(rt: &impl Abort, alloc: Global, rows: &[Row]) {
    begins_on::<Log>(rt, alloc, blank_disk(rt, alloc), rows);
}

#[test]
fn a_request_without_room(rt: HostRuntime) {
    begins(&rt, rt.alloc(), ROOM);
}

/// Makes acts on a disk, of which none is to stop it, and activates an Eject.
fn activated_on<St: Store + Drop>(
    rt: &impl Abort,
    alloc: Global,
    disk: Box<St::Device>,
    first: &[Row],
    second: &[Row],
    third: &[Row],
    uid: Uid,
) -> (Came, Option<Pick>)
where
    St::Device: Drop,
{
    let (mut store, mut worker) = begin::<St>(rt, alloc, disk, first);
    run_up(rt, alloc, &mut worker, &mut store, second);
    run_up(rt, alloc, &mut worker, &mut store, third);
    assert!(rt; store.working_on().is_none());
    activate(rt, alloc, &mut store, uid)
}

/// The same on a blank disk.
fn activated(
    rt: &impl Abort,
    alloc: Global,
    first: &[Row],
    second: &[Row],
    third: &[Row],
    uid: Uid,
) -> (Came, Option<Pick>) {
    activated_on::<Log>(rt, alloc, blank_disk(rt, alloc), first, second, third, uid)
}

// Bytes that spell nothing, a type that is not there, another version, and no value.
const KEPT: &[(&[u8], Came)] = &[
    (
        &[
            1, 4, b'C', b'e', b'l', b'l', 0, 1, 1, 1, 0, 0, 0, 0, 0, 0, 1, 2,
        ],
        Came::Number { n: 258 },
    ),
    (
        &[
            1, 4, b'C', b'e', b'l', b'l', 0, 1, 1, 1, 0, 0, 0, 0, 0, 0, 1,
        ],
        Came::Damaged,
    ),
    (
        &[
            2, 4, b'C', b'e', b'l', b'l', 0, 1, 1, 1, 0, 0, 0, 0, 0, 0, 1, 2,
        ],
        Came::Damaged,
    ),
    (
        &[
            1, 4, b'C', b'e', b'l', b'k', 0, 1, 1, 1, 0, 0, 0, 0, 0, 0, 1, 2,
        ],
        Came::Damaged,
    ),
    (
        &[
            1, 4, b'C', b'e', b'l', b'l', 0, 2, 1, 1, 0, 0, 0, 0, 0, 0, 1, 2,
        ],
        Came::Damaged,
    ),
    (
        &[
            1, 4, b'C', b'e', b'l', b'l', 0, 1, 0, 1, 0, 0, 0, 0, 0, 0, 1, 2,
        ],
        Came::Damaged,
    ),
];

/// Whether an Eject of which these bytes are kept comes so.
fn comes(rt: &impl Abort, alloc: Global, bytes: &'static [u8], wanted: Came) -> bool {
    let rows = [
        (Act::Put(1, 1, bytes), None),
        (
            Act::Steps(100),
            steps_of(JOB, Some(StoreEnd::Done), Some(1)),
        ),
    ];
    activated(rt, alloc, &rows, &[], &[], FIRST) == (wanted, None)
}

#[test]
fn a_start_by_what_is_kept(rt: HostRuntime) {
    for (i, &(bytes, wanted)) in KEPT.iter().enumerate() {
        assert!(rt; comes(&rt, rt.alloc(), bytes, wanted), "at {i}");
    }
}

// Of the sync and the read of the settling, and the read of what is kept. Of an Eject of which nothing is kept nothing is read.
type Wake = (&'static [Row], u32, Option<Came>, bool);

const WAKES: &[Wake] = &[
    (&[], 1, None, true),
    (&[], 2, Some(Came::Number { n: 7 }), true),
    (&[(Act::Arm(None, 1), None)], 1, Some(Came::Fault), false),
    (
        &[(Act::Arm(Some(KEEP), 1), None)],
        1,
        Some(Came::Stopped),
        false,
    ),
    (&[(Act::Arm(None, 2), None)], 1, Some(Came::Fault), false),
    (
        &[(Act::Arm(Some(KEEP), 2), None)],
        1,
        Some(Came::Stopped),
        false,
    ),
    (&[(Act::Arm(None, 3), None)], 1, Some(Came::Fault), true),
    (
        &[(Act::Arm(Some(KEEP), 3), None)],
        1,
        Some(Came::Stopped),
        true,
    ),
    (&[(Act::Arm(None, 3), None)], 3, Some(Came::Gone), true),
];

/// How an Eject comes behind a put that failed in a device call, and what the settling finds.
fn wanted_behind(failed: u32, end: Option<Came>, settled: bool) -> (Came, Option<Pick>) {
    let (pick, n) = if failed == JOB {
        (Pick::New, 9)
    } else {
        (Pick::Old, 5)
    };
    let came = match end {
        Some(end) => end,
        None => Came::Number { n },
    };
    (came, if settled { Some(pick) } else { None })
}

/// Whether an Eject comes as its row says behind a put that failed in a device call.
fn wakes(
    rt: &impl Abort,
    alloc: Global,
    failed: u32,
    &(trouble, serial, end, settled): &Wake,
) -> bool {
    let rows = [
        (Act::Put(1, 3, CELL_9), None),
        (Act::Arm(None, failed), None),
        (
            Act::Steps(100),
            steps_of(failed, Some(StoreEnd::Fault), Some(3)),
        ),
    ];
    let found = activated(rt, alloc, TWO_CELLS, &rows, trouble, uid_of(serial));
    found == wanted_behind(failed, end, settled)
}

#[test]
fn a_start_behind_a_settling(rt: HostRuntime) {
    for failed in 1..=JOB {
        for (i, wake) in WAKES.iter().enumerate() {
            assert!(rt; wakes(&rt, rt.alloc(), failed, wake), "{failed}, {i}");
        }
    }
}

/// How a boot goes while a device call is armed, and a boot behind it.
fn two_boots_on<St: Store + Drop>(
    rt: &impl Abort,
    alloc: Global,
    mut disk: Box<St::Device>,
    stop: Option<ImageMode>,
    after: u32,
) -> (BootFall, BootNote)
where
    St::Device: Drop,
    requires { 1 ≤ after }
{
    disk.arm(arm_of(stop, after));
    let refused = boot::<St>(alloc, Box::into_inner(disk), 1, None);
    let (disk, fall) = refused.err().expect(rt, "no fault");
    let (_, note) = boot_up::<St>(rt, alloc, disk, fall.doubt);
    (fall, note)
}

/// The same of a blank disk.
fn two_boots(
    rt: &impl Abort,
    alloc: Global,
    stop: Option<ImageMode>,
    after: u32,
) -> (BootFall, BootNote)
    requires { 1 ≤ after }
{
    two_boots_on::<Log>(rt, alloc, blank_disk(rt, alloc), stop, after)
}

/// In which mode a disk stops, if it does not fail; how a boot ends in which it does; and from which device call on the next boot
/// finds what it began.
type Fall = (Option<ImageMode>, BootEnd, u32);

const FALLS: &[Fall] = &[
    (None, BootEnd::DiskFault, 11),
    (Some(KEEP), BootEnd::Stop, 10),
    (Some(LOSE), BootEnd::Stop, 12),
];

/// Whether a boot ended so, with a doubt if it began a put.
fn is_fall(fall: &BootFall, end: BootEnd, began: bool) -> bool {
    let note = BootNote {
        epoch: began as u32,
        pick: None,
        began,
    };
    fall.end == Some(end) && fall.note == note && fall.doubt.is_some() == began
}

/// Whether the next boot tells what became of the put that was begun.
fn is_next(note: &BootNote, began: bool, is_kept: bool) -> bool {
    let found = if is_kept { Pick::New } else { Pick::Old };
    let pick = if began { Some(found) } else { None };
    note.epoch == 1 + is_kept as u32 && note.pick == pick
}

/// Whether a boot that is refused a device call, and the next one, go as they have to.
fn falls(rt: &impl Abort, alloc: Global, after: u32, row: &Fall) -> bool
    requires { 1 ≤ after }
{
    let &(stop, end, kept) = row;
    let (fall, note) = two_boots(rt, alloc, stop, after);
    let began = OPENING < after;
    is_fall(&fall, end, began) && is_next(&note, began, kept <= after)
}

#[test]
fn a_boot_that_is_refused_a_device_call(rt: HostRuntime) {
    for after in 1..=OPENING + JOB {
        for row in FALLS {
            assert!(rt; falls(&rt, rt.alloc(), after, row), "{after}");
        }
    }
}

/// How a boot of a disk ends.
fn end_of_boot_on<St: Store + Drop>(alloc: Global, disk: Box<St::Device>) -> Option<BootEnd>
where
    St::Device: Drop,
{
    match boot::<St>(alloc, Box::into_inner(disk), 1, None) {
        Ok(_) => Some(BootEnd::Up),
        Err((_, fall)) => fall.end,
    }
}

/// A disk with this image.
fn disk_of(rt: &impl Abort, alloc: Global, image: Vec<u8>) -> Box<SimDisk>
    requires { length image.items < 2 ^ 32 }
{
    let disk = SimDisk::of(alloc, image).expect(rt, "memory");
    Box::new(alloc, disk).expect(rt, "memory")
}

/// A boot of a disk with the image of this row ends so.
fn boots_to(rt: &impl Abort, alloc: Global, row: usize, image: Vec<u8>, end: BootEnd)
    requires { length image.items < 2 ^ 32 }
{
    let found = end_of_boot_on::<Log>(alloc, disk_of(rt, alloc, image));
    assert!(rt; found == Some(end), "{row}");
}

/// Boots a disk, and gives it back.
fn booted<St: Store + Drop>(
    rt: &impl Abort,
    alloc: Global,
    disk: Box<St::Device>,
) -> Box<St::Device>
where
    St::Device: Drop,
{
    let (store, _) = boot_up::<St>(rt, alloc, Box::into_inner(disk), None);
    Box::new(alloc, store.close()).expect(rt, "memory")
}

/// The image of a blank disk that was booted.
fn image_of_booted(rt: &impl Abort, alloc: Global) -> Vec<u8> {
    let disk = booted::<Log>(rt, alloc, blank_disk(rt, alloc));
    disk.image(alloc).expect(rt, "memory")
}

/// Puts a byte in some places.
fn fill(image: &mut [u8], from: usize, to: usize, byte: u8) {
    for place in from..to {
        if let Some(found) = image.get_mut(place) {
            *found = byte;
        }
    }
}

/// That image, with this byte in some places.
fn booted_image(rt: &impl Abort, alloc: Global, from: usize, to: usize, byte: u8) -> Vec<u8>
    ensures { length result.items < 2 ^ 32 }
{
    let mut image = image_of_booted(rt, alloc);
    fill(&mut image, from, to, byte);
    assert!(rt; image.len() == 4096);
    image
}

/// Another epoch and the last one; a record of another node and one of no kind; and one of no length: the places, the byte that
/// is put there, and how a boot ends.
const BYTES: &[(usize, usize, u8, BootEnd)] = &[
    (34, 35, 9, BootEnd::Up),
    (31, 35, 255, BootEnd::EpochsSpent),
    (21, 22, 2, BootEnd::Damaged { place: 16 }),
    (30, 31, 7, BootEnd::Damaged { place: 16 }),
    (35, 36, 225, BootEnd::Damaged { place: 35 }),
];

/// A size that the layout does not allow, one without room for an epoch, and one with it; and how a boot ends.
const SIZES: &[(u8, BootEnd)] = &[
    (16, BootEnd::Damaged { place: 0 }),
    (35, BootEnd::Full),
    (36, BootEnd::Up),
];

#[test]
fn a_boot_by_what_the_disk_holds(rt: HostRuntime) {
    let alloc = rt.alloc();
    for &(from, to, byte, end) in BYTES {
        let image = booted_image(&rt, alloc, from, to, byte);
        boots_to(&rt, alloc, from, image, end);
    }
    for &(size, end) in SIZES {
        let image = vec![in alloc; 0u8; size as usize].expect(&rt, "memory");
        boots_to(&rt, alloc, size as usize, image, end);
    }
}

#[test]
fn a_law_is_there_to_be_called(_rt: HostRuntime) {
    runs_stand();
}
