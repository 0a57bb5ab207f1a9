use capability::Seq;
use eden_io::{MemSink, Sink};
use eden_value::{Txt, texted};
use journal::{BootEnd, Entry, Event, History, Mode};
use std::alloc::Global;
use std::process::Abort;
use transcript::*;

fn entry(alloc: Global, event: Event, node: u8) -> Entry {
    Entry {
        event,
        node,
        clock: if node == 0 { 0 } else { 11 },
        broken: Seq {
            items: Vec::new(alloc),
        },
    }
}

/// The name of the one call.
fn caller(rt: &impl Abort, alloc: Global) -> Txt {
    let bytes = b"a".to_vec(alloc).expect(rt, "memory");
    texted(bytes).expect(rt, "memory")
}

/// A crash of the node, which breaks the call.
fn crash(rt: &impl Abort, alloc: Global) -> Entry {
    let mut crash = entry(alloc, Event::Crash { node: 1 }, 1);
    crash
        .broken
        .items
        .push(caller(rt, alloc))
        .expect(rt, "memory");
    crash
}

/// A history of these entries.
fn history_of(rt: &impl Abort, alloc: Global, entries: Vec<Entry>) -> Box<History> {
    Box::new(alloc, History { entries }).expect(rt, "memory")
}

// A node is booted, a call is asked and delivered, and the node crashes, which breaks the call.
fn history(rt: &impl Abort, alloc: Global) -> Box<History> {
    let boot = Event::Boot {
        node: 1,
        epoch: 1,
        end: BootEnd::Up,
        pick: None,
        began: true,
    };
    let asked = Event::Asked {
        call: 1,
        name: caller(rt, alloc),
        at_once: None,
    };
    let request = Event::Request {
        call: 1,
        from: 0,
        to: 1,
        refused: None,
    };
    let entries = vec![in alloc;
        entry(alloc, boot, 1),
        entry(alloc, asked, 0),
        entry(alloc, request, 0),
        crash(rt, alloc),
    ]
    .expect(rt, "memory");
    history_of(rt, alloc, entries)
}

const PLAIN: &[u8] = b"node 1 up epoch 1\nnode 1 down crash\na refused 6 broken\n";

const TRACE: &[u8] =
    b"node 1 up epoch 1\n+ call 1 a\n+ request 1 0 1\nnode 1 down crash\na refused 6 broken\n";

const FULL: &[u8] =
    b"node 1 up epoch 1\n+ disk 1 11 - yes\n+ call 1 a\n+ request 1 0 1\nnode 1 down crash\na refused 6 broken\n+ disk 1 11 - -\n";

const SUMMARY: &[u8] = b"calls 1 ok 0 refused 1 open 0 turns 1\n";

/// A sink of this room, of which a call takes `piece` bytes, and some calls fail.
fn sink_of(rt: &impl Abort, alloc: Global, how: (u32, u32, &[u32])) -> Box<MemSink> {
    let (piece, room, failing) = how;
    assert!(rt; 0 < piece);
    let failing = failing.to_vec(alloc).expect(rt, "memory");
    let sink = MemSink::new(alloc, piece, room, failing).expect(rt, "memory");
    Box::new(alloc, sink).expect(rt, "memory")
}

/// Whether so many bytes of the text are written to a sink, of which a call takes `piece` bytes, and which has this room. Where
/// it is refused a write has failed.
fn is_written(
    rt: &impl Abort,
    alloc: Global,
    history: &History,
    mode: Mode,
    sink: (u32, u32, &[u32]),
    wanted: (&[u8], usize, bool),
) -> bool {
    let (text, count, is_refused) = wanted;
    let mut sink = sink_of(rt, alloc, sink);
    let is_answered = match write_history(alloc, mode, history, &mut *sink) {
        Ok(()) => !is_refused,
        Err(refusal) => is_refused && refusal == WriteRefusal::Failed,
    };
    is_answered
        && sink.written().len() == count
        && text.starts_with(sink.written())
        && sink.faults() == u64::from(is_refused)
}

/// The most bytes of a call, the room, and the calls that fail; the text, how many of its bytes are written, and whether it is
/// refused.
type Row<'a> = (Mode, (u32, u32, &'a [u32]), (&'a [u8], usize, bool));

const ROWS: &[Row<'static>] = &[
    (Mode::Plain, (7, 1000, &[]), (PLAIN, 55, false)),
    (Mode::Trace, (7, 1000, &[]), (TRACE, 82, false)),
    (Mode::Full, (7, 1000, &[]), (FULL, 116, false)),
    (Mode::Summary, (7, 1000, &[]), (SUMMARY, 38, false)),
    // A front is written where a write fails.
    (Mode::Plain, (100, 1000, &[1]), (PLAIN, 0, true)),
    (Mode::Trace, (10, 1000, &[3]), (TRACE, 20, true)),
    (Mode::Plain, (100, 25, &[]), (PLAIN, 25, true)),
    (Mode::Full, (100, 40, &[]), (FULL, 40, true)),
    (Mode::Summary, (100, 37, &[]), (SUMMARY, 37, true)),
];

#[test]
fn a_history_is_written_in_each_mode(rt: HostRuntime) {
    let alloc = rt.alloc();
    let history = history(&rt, alloc);
    for (place, &(mode, sink, wanted)) in ROWS.iter().enumerate() {
        assert!(rt;
            is_written(&rt, alloc, &history, mode, sink, wanted),
            "{place}"
        );
    }
}

/// So many crashes of a node.
fn crashes(rt: &impl Abort, alloc: Global, times: u32) -> Box<History> {
    let mut entries = Vec::new(alloc);
    for _ in 0..times {
        entries
            .push(entry(alloc, Event::Crash { node: 1 }, 1))
            .expect(rt, "memory");
    }
    history_of(rt, alloc, entries)
}

/// How they are written.
fn written_crashes(rt: &impl Abort, alloc: Global, times: u32) -> Vec<u8> {
    let mut text = Vec::new(alloc);
    for _ in 0..times {
        text.extend_from_slice(b"node 1 down crash\n")
            .expect(rt, "memory");
    }
    text
}

#[test]
fn a_long_text_is_written_in_pieces(rt: HostRuntime) {
    let alloc = rt.alloc();
    let history = crashes(&rt, alloc, 4000);
    let text = written_crashes(&rt, alloc, 4000);
    // The calls that fail, how many bytes are written, 18 for each entry, and whether it is refused.
    let rows: &[(&[u32], usize, bool)] = &[(&[], 72_000, false), (&[2], 65_538, true)];
    for &(failing, count, is_refused) in rows {
        let sink = (100_000, 100_000, failing);
        let wanted = (text.as_slice(), count, is_refused);
        assert!(rt;
            is_written(&rt, alloc, &history, Mode::Plain, sink, wanted),
            "{count}"
        );
    }
}
