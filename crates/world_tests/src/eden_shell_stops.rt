//! A stop in each device call of a run, a power cut behind each turn of another, and what the next run over the same disks finds.
ghost use Rattle.std.specs.Prelude.{◌≡◌, length};

use crate::fixtures::{DISK_SIZE, blank_disks, sink_of, source_of, words_of};
use eden_disk::{Disk, ImageMode, SimDisk};
use eden_io::{MemSink, MemSource};
use eden_shell::{Outcome, eden};
use std::alloc::Global;
use std::fmt::Write as _;
use std::process::Abort;

/// How a disk is left, and the words of it in a script.
const MODES: &[(&str, bool)] = &[("keep", true), ("lose", false), ("garble 225", true)];

/// A later run, which asks both Cells.
const ASKS: &str =
    "nodes 1\nhold c 1.1.1\nhold x 1.1.2\ncall a c.Get()\ngo 100\ncall b x.Get()\ngo 100\nend\n";

/// How a run over these disks of what the source tells ends.
fn outcome_of(
    rt: &impl Abort,
    alloc: Global,
    source: &mut MemSource,
    sink: &mut MemSink,
    disks: &mut Vec<SimDisk>,
) -> Outcome
    requires { length disks.old.items ≡ 8 }
    ensures { length disks.new.items ≡ 8 }
{
    let words = words_of(rt, alloc, &["run"]);
    eden(alloc, &words, source, sink, disks).outcome
}

/// Runs a script over these disks to its end, and gives the transcript.
fn run(rt: &impl Abort, alloc: Global, script: &str, disks: &mut Vec<SimDisk>) -> Vec<u8>
    requires { length disks.old.items ≡ 8 }
    ensures { length disks.new.items ≡ 8 }
{
    let mut source = source_of(rt, alloc, script, 0, &[]);
    let mut sink = sink_of(rt, alloc, 100, 10_000, &[]);
    let outcome = outcome_of(rt, alloc, &mut *source, &mut *sink, disks);
    assert!(rt; outcome == Outcome::Ran, "{script}");
    sink.written().to_vec(alloc).expect(rt, "memory")
}

/// The power of each disk fails, and comes again.
fn cut_each(disks: &mut Vec<SimDisk>)
    ensures { length disks.new.items ≡ length disks.old.items }
{
    for disk in disks.iter_mut() {
        disk.cut_power(ImageMode::Lose);
        disk.restart();
    }
}

/// The transcript of a later run: its epoch, and what each Cell answers.
fn later_transcript(rt: &impl Abort, alloc: Global, epoch: u32, (c, x): (&str, &str)) -> String {
    format!(in alloc; "node 1 up epoch {epoch}\na {c}\nquiet\nb {x}\nquiet\n").expect(rt, "memory")
}

/// Runs a script over blank disks, and then, once the power of each failed, asks both Cells. How often the first disk was stopped,
/// if the later run came to this: the epoch, and what each Cell answers.
fn stops_before(
    rt: &impl Abort,
    alloc: Global,
    script: &str,
    epoch: u32,
    answered: (&str, &str),
) -> Option<u64> {
    let mut disks = blank_disks(rt, alloc, DISK_SIZE);
    run(rt, alloc, script, &mut disks);
    let stops = disks.first().expect(rt, "a disk").stops();
    cut_each(&mut disks);
    let wanted = later_transcript(rt, alloc, epoch, answered);
    if run(rt, alloc, ASKS, &mut disks).as_slice() == wanted.as_bytes() {
        Some(stops)
    } else {
        None
    }
}

/// Two Cells: the first saves 0, the second 3, and the first 8.
const SAVES: &str =
    "call a c.Save()\ngo 100\ncall b x.Set(3)\ngo 100\ncall d x.Save()\ngo 100\ncall e c.Set(8)\ngo 100\ncall f c.Save()\ngo 100\n";

/// The second saves 4, which first closes the head from which the first had its 0.
const LAST_SAVE: &str = "call g x.Set(4)\ngo 100\ncall h x.Save()\ngo 100\nend\n";

/// Four saves, and the power fails in this device call behind the boot.
fn four_saves(rt: &impl Abort, alloc: Global, call: u32, mode: &str) -> String {
    let saves = SAVES;
    let last = LAST_SAVE;
    format!(in alloc;
        "nodes 1\ncreate c 1 Cell\ncreate x 1 Cell\nstop 1 {call} {mode}\n{saves}{last}"
    ).expect(rt, "memory")
}

/// The device calls of the four saves: each writes its block and its head, and syncs, writes its gate, and syncs. The last writes
/// another gate first.
const CALLS_OF_SAVES: u32 = 21;

/// Whether a save is kept where the power fails in this device call: it was acknowledged behind its last one, or its gate was
/// left open.
fn is_save_kept(call: u32, gate: u32, last: u32, gate_stays: bool) -> bool {
    call > last || gate_stays && call >= gate
}

/// What the two Cells answer later: each from its last save that is kept.
fn answers(call: u32, gate_stays: bool) -> (&'static str, &'static str) {
    let gone = "refused 4 gone";
    if is_save_kept(call, 20, 21, gate_stays) {
        ("ok (8)", "ok (4)")
    } else if is_save_kept(call, 14, 15, gate_stays) {
        ("ok (8)", "ok (3)")
    } else if is_save_kept(call, 9, 10, gate_stays) {
        ("ok (0)", "ok (3)")
    } else if is_save_kept(call, 4, 5, gate_stays) {
        ("ok (0)", gone)
    } else {
        (gone, gone)
    }
}

#[test]
fn a_stop_in_each_device_call(rt: HostRuntime) {
    let alloc = rt.alloc();
    for call in 1..CALLS_OF_SAVES + 1 {
        for &(mode, gate_stays) in MODES {
            let script = four_saves(&rt, alloc, call, mode);
            let stops = stops_before(&rt, alloc, script.as_str(), 2, answers(call, gate_stays));
            assert!(rt; stops == Some(1), "call {call} {mode}");
        }
    }
}

/// The first Cell holds 5 and has saved it, and then has 9 to save.
const A_SAVE: &str =
    "call a c.Set(5)\ngo 100\ncall b c.Save()\ngo 100\ncall d c.Set(9)\ngo 100\ncall e c.Save()\n";

/// The power of its node is cut behind so many turns of the second save.
fn two_saves(rt: &impl Abort, alloc: Global, turns: u32, mode: &str) -> String {
    let saves = A_SAVE;
    format!(in alloc;
        "nodes 1\ncreate c 1 Cell\ncreate x 1 Cell\n{saves}go {turns}\ncrash 1 {mode}\nend\n"
    ).expect(rt, "memory")
}

/// The turns of a save: the request is delivered, it is started, its process runs, the store makes five device calls, the process
/// returns, and the reply is delivered.
const TURNS_OF_A_SAVE: u32 = 10;

/// The one in which the gate is written.
const TURN_OF_THE_GATE: u32 = 7;

/// What the first Cell answers later: from the second save, if that is kept.
fn answer(turns: u32, gate_stays: bool) -> &'static str {
    if turns > TURN_OF_THE_GATE || turns == TURN_OF_THE_GATE && gate_stays {
        "ok (9)"
    } else {
        "ok (5)"
    }
}

#[test]
fn a_power_cut_behind_each_turn(rt: HostRuntime) {
    let alloc = rt.alloc();
    for turns in 1..TURNS_OF_A_SAVE + 1 {
        for &(mode, gate_stays) in MODES {
            let script = two_saves(&rt, alloc, turns, mode);
            let answered = (answer(turns, gate_stays), "refused 4 gone");
            let stops = stops_before(&rt, alloc, script.as_str(), 2, answered);
            assert!(rt; stops.is_some(), "turns {turns} {mode}");
        }
    }
}

/// The device calls of a boot over two values on blocks: a sync, a read of what stands on the disk, one of each of 32 heads and of the
/// two blocks, one of the epoch, and the five of its put.
const CALLS_OF_A_BOOT: u32 = 42;

/// The first of them that may leave the gate of the epoch open.
const CALL_OF_THE_EPOCH: u32 = 41;

/// A Cell that has saved 5. The power fails in this device call of the next boot.
fn second_boot(rt: &impl Abort, alloc: Global, call: u32, mode: &str) -> String {
    format!(in alloc;
        "nodes 1\ncreate c 1 Cell\ncall a c.Set(5)\ngo 100\ncall b c.Save()\ngo 100\ncrash 1\nstop 1 {call} {mode}\nrestart 1\nend\n"
    ).expect(rt, "memory")
}

/// The epoch of the boot behind it.
fn next_epoch(call: u32, gate_stays: bool) -> u32 {
    if gate_stays && call >= CALL_OF_THE_EPOCH {
        3
    } else {
        2
    }
}

#[test]
fn a_stop_in_each_device_call_of_a_boot(rt: HostRuntime) {
    let alloc = rt.alloc();
    for call in 1..CALLS_OF_A_BOOT + 1 {
        for &(mode, gate_stays) in MODES {
            let script = second_boot(&rt, alloc, call, mode);
            let epoch = next_epoch(call, gate_stays);
            let answered = ("ok (5)", "refused 4 gone");
            let stops = stops_before(&rt, alloc, script.as_str(), epoch, answered);
            assert!(rt; stops == Some(1), "call {call} {mode}");
        }
    }
}
