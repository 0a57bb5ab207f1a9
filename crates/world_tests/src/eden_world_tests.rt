ghost use Rattle.std.specs.Prelude.{◌≡◌, ◌≤◌, length, IfSome};
ghost use Rattle.eden_world.specs.Listed.{HasTurn};
ghost use Rattle.eden_world.specs.Seated.{FitsTogether};

use crate::fixtures::{blank_disks, by, txt};
use crate::script_steps::{FIRST, Word, carry};
use capability::mint;
use eden_disk::SimDisk;
use eden_world::{Seat, World};
use epl_syntax::Types;
use journal::{Entry, Key, Mode, line};
use passive_store::{LogStore, Store};
use runs::{Machine, Run};
use std::alloc::Global;
use std::process::Abort;

type Log = LogStore<SimDisk>;

const SAVED: &str = "+ process 1.1.1 1 checkpoint
+ store 1.1.1 12 part
+ disk 1 12 - -
+ store 1.1.1 13 part
+ disk 1 13 - -
+ store 1.1.1 14 part
+ disk 1 14 - -
+ store 1.1.1 15 done
+ disk 1 15 - -
+ process 1.1.1 1 return 1
+ reply 1 1 0
a ok (0)
quiet
";

const STARTED: &str = "+ request 3 0 1
+ activate 1.1.1 ok
+ disk 1 26 - -
+ start 3 1.1.1 1
+ process 1.1.1 1 return 3
+ reply 3 1 0
d ok (0)
quiet
";

const FAILED: &str = "+ request 1 0 1
+ activate 1.1.1 fault
+ disk 1 38 - -
+ reply 1 1 0
a refused 7 store fault
quiet
";

const STOPPED: &str = "+ request 2 0 1
+ activate 1.1.1 ok
+ disk 1 39 - -
+ start 2 1.1.1 1
+ process 1.1.1 1 checkpoint
node 1 down stop
b refused 6 broken
+ disk 1 40 - -
quiet
";

const ADDED: &str = "+ request 4 0 1
+ start 4 1.4.1 1
+ process 1.4.1 1 checkpoint
+ store 1.4.1 53 part
+ disk 1 53 - -
+ store 1.4.1 54 part
+ disk 1 54 - -
+ store 1.4.1 55 part
+ disk 1 55 - -
+ store 1.4.1 56 done
+ disk 1 56 - -
+ process 1.4.1 1 return 4
+ reply 4 1 0
e ok (0)
quiet
";

const WALKED: &str = "+ call 5 w
+ request 5 0 1
+ start 5 1.4.1 1
+ process 1.4.1 1 return 5
+ reply 5 1 0
w ok (0, <1.1.1:ffff>)
";

/// A word, and the lines of its entries.
type Row<'a> = (Word<'a>, &'a str);

/// The words of a script, and the lines of its entries.
fn script<'a>(rt: &impl Abort, alloc: Global, rows: &[Row<'a>]) -> (Vec<Word<'a>>, Vec<u8>) {
    let mut words = Vec::new(alloc);
    let mut lines = Vec::new(alloc);
    for (word, text) in rows {
        words.push(*word).expect(rt, "memory");
        lines
            .extend_from_slice(text.as_bytes())
            .expect(rt, "memory");
    }
    (words, lines)
}

/// The lines of a history, with the disk that each entry shows.
fn lines_of(rt: &impl Abort, alloc: Global, history: &[Entry]) -> Vec<u8> {
    let mut lines = Vec::new(alloc);
    for entry in history {
        line(alloc, Mode::Full, entry, &mut lines).expect(rt, "memory");
    }
    lines
}

/// A run over eight disks at most.
fn begun<St: Store + Drop>(
    rt: &impl Abort,
    alloc: Global,
    disks: Vec<St::Device>,
) -> Box<Run<World<St>>>
where
    St::Device: Drop,
    requires { length disks.items ≤ 8 }
    ensures { FitsTogether St.seen result.value.machine }
{
    let types = Types::native(alloc).expect(rt, "memory");
    match World::<St>::new(alloc, types, disks) {
        Ok(world) => Box::new(alloc, Run::new(alloc, world)).expect(rt, "memory"),
        Err(_) => panic!(rt; "memory"),
    }
}

/// The lines of a script, and the disks that are given back.
fn carried<St: Store + Drop>(
    rt: &impl Abort,
    alloc: Global,
    disks: Vec<St::Device>,
    words: &[Word],
) -> (Vec<u8>, Vec<St::Device>)
where
    St::Device: Drop,
    requires { length disks.items ≤ 8 }
    ensures { length result.1.items ≤ 8 }
{
    let mut room = Vec::new(alloc);
    room.reserve(8).expect(rt, "memory");
    let mut run = begun::<St>(rt, alloc, disks);
    carry(rt, alloc, &mut *run, 0, words);
    let (world, history) = Box::into_inner(run).into_parts();
    (lines_of(rt, alloc, &history), world.close(room))
}

/// Whether a script over these disks is told so, and the disks that are given back.
fn is_told<St: Store + Drop>(
    rt: &impl Abort,
    alloc: Global,
    disks: Vec<St::Device>,
    rows: &[Row],
) -> (bool, Vec<St::Device>)
where
    St::Device: Drop,
    requires { length disks.items ≤ 8 }
    ensures { length result.1.items ≤ 8 }
{
    let (words, lines) = script(rt, alloc, rows);
    let (written, disks) = carried::<St>(rt, alloc, disks, &words);
    (written == lines, disks)
}

/// What is asked of a world itself, and answered by whether it is so.
#[derive(Clone, Copy)]
enum Ask<'a> {
    /// That these are carried out.
    Carry(&'a [Word<'a>]),
    /// Whether there is a turn, which stands at each place.
    HasTurn,
    /// Whether the turn is a delivery to node 1 from the shell. It is taken, and whether it shows these lines.
    Take(&'a str),
    /// Whether the node is up.
    IsUp(u8),
    /// Whether the call is.
    IsOpen(u32),
    /// Whether the name stands for the first Eject, or else for no capability.
    Means(&'a str, bool),
    /// Whether the call of the name found something.
    IsFound(&'a str),
    /// Whether what it found is the first Eject.
    FoundFirst(&'a str),
    /// That the component is looked up there by a call of the name.
    LookUp(&'a str, &'a str),
}

/// The key that comes next, which stands at each place as well.
fn only_key<St: Store + Drop>(rt: &impl Abort, world: &World<St>) -> Option<Key>
where
    St::Device: Drop,
    requires { FitsTogether St.seen world.now }
    ensures { IfSome result (λ key. HasTurn St.seen world.now key) }
{
    let next = world.following(None);
    assert!(rt; world.item(7) == next, "the key at a place");
    next
}

/// A history of one entry.
fn alone(rt: &impl Abort, alloc: Global, entry: Entry) -> Vec<Entry> {
    vec![in alloc; entry].expect(rt, "memory")
}

/// Takes the only turn, and whether it is a delivery to node 1 from the shell that shows these lines.
fn is_taken<St: Store + Drop>(
    rt: &impl Abort,
    alloc: Global,
    run: &mut Run<World<St>>,
    lines: &str,
) -> bool
where
    St::Device: Drop,
    requires { FitsTogether St.seen run.old.machine }
    ensures { FitsTogether St.seen run.new.machine }
{
    let key = only_key(rt, &run.machine).expect(rt, "a turn");
    assert!(rt; run.machine.calls_asked() < 1_000_000, "few calls");
    let entry = run.machine.take(alloc, key).expect(rt, "memory");
    let taken = alone(rt, alloc, entry);
    let shown = lines_of(rt, alloc, &taken);
    (key.station, key.kind, key.sender) == (1, 1, 0) && shown.as_slice() == lines.as_bytes()
}

/// A component is looked up in the first Eject by a call of this name.
fn look_up<St: Store + Drop>(
    rt: &impl Abort,
    alloc: Global,
    run: &mut Run<World<St>>,
    name: &str,
    component: &str,
)
where
    St::Device: Drop,
    requires { FitsTogether St.seen run.old.machine }
    ensures { FitsTogether St.seen run.new.machine }
{
    let name = txt(rt, alloc, name);
    let component = txt(rt, alloc, component);
    assert!(rt; run.machine.calls_asked() < 1_000_000, "few calls");
    let entry = run
        .machine
        .look_up(alloc, &name, Some(mint(FIRST)), &component)
        .expect(rt, "memory");
    let _asked = alone(rt, alloc, entry);
}

/// Whether the name stands for the first Eject, or else for no capability.
fn is_meant<St: Store + Drop>(
    rt: &impl Abort,
    alloc: Global,
    world: &World<St>,
    name: &str,
    is_first: bool,
) -> bool
where
    St::Device: Drop,
    requires { FitsTogether St.seen world.now }
{
    let wanted = if is_first { Some(mint(FIRST)) } else { None };
    world.capability(&by(rt, alloc, name, 0)) == wanted
}

/// The answer of a world to what changes nothing.
fn is_seen<St: Store + Drop>(rt: &impl Abort, alloc: Global, world: &World<St>, ask: Ask) -> bool
where
    St::Device: Drop,
    requires { FitsTogether St.seen world.now }
{
    match ask {
        Ask::HasTurn => only_key(rt, world).is_some(),
        Ask::IsUp(node) => matches!(world.seat(node), Some(Seat::Up { .. })),
        Ask::IsOpen(call) => world.is_open(call),
        Ask::Means(name, is_first) => is_meant(rt, alloc, world, name, is_first),
        Ask::IsFound(name) => world.found(&txt(rt, alloc, name)),
        Ask::FoundFirst(name) => world.next_directory(&txt(rt, alloc, name)) == Some(mint(FIRST)),
        Ask::Carry(_) | Ask::Take(_) | Ask::LookUp(_, _) => false,
    }
}

/// Asks the run, and whether the answer is yes.
fn is_so<St: Store + Drop>(
    rt: &impl Abort,
    alloc: Global,
    run: &mut Run<World<St>>,
    ask: Ask,
) -> bool
where
    St::Device: Drop,
    requires { FitsTogether St.seen run.old.machine }
    ensures { FitsTogether St.seen run.new.machine }
{
    match ask {
        Ask::Carry(words) => {
            carry(rt, alloc, run, 0, words);
            true
        }
        Ask::Take(lines) => is_taken(rt, alloc, run, lines),
        Ask::LookUp(name, component) => {
            look_up(rt, alloc, run, name, component);
            true
        }
        _ => is_seen(rt, alloc, &run.machine, ask),
    }
}

/// Each question is answered so.
fn all_is_so<St: Store + Drop>(
    rt: &impl Abort,
    alloc: Global,
    run: &mut Run<World<St>>,
    asks: &[(Ask, bool)],
)
where
    St::Device: Drop,
    requires { FitsTogether St.seen run.old.machine }
{
    'asks: for (place, (ask, wanted)) in asks.iter().enumerate() {
        let is_so = is_so(rt, alloc, run, *ask);
        assert!(rt; is_so == *wanted, "question {place}");
    }
}

/// A Directory is asked to hold itself, and is then looked up in itself.
const ASKS: &[(Ask<'static>, bool)] = &[
    (Ask::HasTurn, false),
    (
        Ask::Carry(&[
            Word::Restart(1),
            Word::Create("x", "Directory"),
            Word::Add("a", "x", "x"),
        ]),
        true,
    ),
    (Ask::IsUp(1), true),
    (Ask::IsOpen(1), true),
    (Ask::IsOpen(2), false),
    (Ask::Means("x", true), true),
    (Ask::Means("a", false), true),
    (Ask::Take("+ request 1 0 1\n"), true),
    (Ask::Carry(&[Word::Go(100)]), true),
    (Ask::IsOpen(1), false),
    (Ask::IsFound("a"), true),
    (Ask::LookUp("w", "x"), true),
    (Ask::IsOpen(2), true),
    (Ask::IsFound("w"), false),
    (Ask::Carry(&[Word::Go(100)]), true),
    (Ask::IsFound("w"), true),
    (Ask::FoundFirst("w"), true),
];

#[test]
fn the_calls_of_a_machine(rt: HostRuntime) {
    let alloc = rt.alloc();
    let mut run = begun::<Log>(&rt, alloc, blank_disks(&rt, alloc, 4096));
    all_is_so(&rt, alloc, &mut *run, ASKS);
}

// An opening makes a sync, a read at 0, a read for each record and one at the tail; on a blank disk four calls more in place of the
// reads of records. A boot reads the epoch besides, if there is one, and puts the next by four calls. So does a save.

/// A Cell from its creation through a save, a crash and a restart.
const KEPT: &[Row<'static>] = &[
    (Word::Restart(1), "node 1 up epoch 1\n+ disk 1 11 - yes\n"),
    (Word::Restart(1), "node 1 is up\n"),
    (Word::Create("c", "Cell"), "c is 1.1.1\n"),
    (Word::Call("a", "c", "Save"), "+ call 1 a\n"),
    (Word::Turn(3), "+ request 1 0 1\n"),
    (Word::Go(1), "+ start 1 1.1.1 1\n"),
    (Word::Go(100), SAVED),
    (Word::Call("b", "c", "Get"), "+ call 2 b\n"),
    (
        Word::Crash,
        "node 1 down crash\nb refused 6 broken\n+ disk 1 15 - -\n",
    ),
    (Word::Crash, "node 1 is down\n"),
    (Word::Create("h", "Cell"), "h refused 5 unreachable\n"),
    (Word::Call("i", "h", "Get"), "i void\n"),
    (Word::Restart(1), "node 1 up epoch 2\n+ disk 1 25 - yes\n"),
    (Word::Call("d", "c", "Get"), "+ call 3 d\n"),
    (Word::Go(100), STARTED),
];

/// Then a disk that fails in an activation and stops in a save, a cut link, and a walk.
const HARMED: &[Row<'static>] = &[
    (Word::Restart(1), "node 1 up epoch 3\n+ disk 1 37 - yes\n"),
    (Word::Hold("c"), "+ hold c\n"),
    (Word::Restrict("r", "c"), "+ restrict r\n"),
    (Word::Fail(1), "+ fail 1 1\n+ disk 1 37 - -\n"),
    (Word::Stop(3), "+ stop 1 3 lose\n+ disk 1 37 - -\n"),
    (Word::Call("a", "r", "Get"), "+ call 1 a\n"),
    (Word::Go(100), FAILED),
    (Word::Call("b", "c", "Save"), "+ call 2 b\n"),
    (Word::Go(100), STOPPED),
    (Word::Restart(1), "node 1 up epoch 4\n+ disk 1 52 old yes\n"),
    (Word::Call("d", "c", "Get"), "+ call 3 d\n"),
    (Word::Cut, "+ cut 0 1\nd refused 6 broken\n"),
    (Word::Join, "+ join 0 1\n"),
    (Word::Create("x", "Directory"), "x is 1.4.1\n"),
    (Word::Add("e", "x", "c"), "+ call 4 e\n"),
    (Word::Go(100), ADDED),
    (Word::Walk("w", "x", 0, "c"), WALKED),
    (Word::Call("f", "c", "Get"), "+ call 6 f\n"),
    (Word::End, "open f\n"),
];

#[test]
fn a_script_over_the_disks_of_another(rt: HostRuntime) {
    let alloc = rt.alloc();
    let disks = blank_disks(&rt, alloc, 4096);
    let (kept, disks) = is_told::<Log>(&rt, alloc, disks, KEPT);
    let (harmed, disks) = is_told::<Log>(&rt, alloc, disks, HARMED);
    assert_eq!(rt; (kept, harmed, disks.len()), (true, true, 8));
}
