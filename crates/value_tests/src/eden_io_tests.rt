use eden_io::*;
use std::alloc::Global;
use std::process::Abort;

/// A source of three bytes, one of whose calls fails.
fn source(rt: &impl Abort, alloc: Global, failing: u32) -> Box<MemSource> {
    let bytes = Vec::from_slice(alloc, b"abc").expect(rt, "memory");
    let failing = vec![in alloc; failing].expect(rt, "memory");
    Box::new(alloc, MemSource::new(bytes, failing)).expect(rt, "memory")
}

/// Whether all bytes of the source were read, and how many of its calls failed.
fn answer_of(
    rt: &impl Abort,
    alloc: Global,
    limit: u32,
    failing: u32,
) -> (Result<bool, ReadRefusal>, u64) {
    let mut source = source(rt, alloc, failing);
    let answer = match read_all(alloc, &mut *source, limit) {
        Ok(bytes) => Ok(bytes.as_slice() == b"abc".as_slice()),
        Err(refusal) => Err(refusal),
    };
    (answer, source.faults())
}

/// The limit, the call that fails (0 for none), and what is answered, with the number of faults.
const READ: &[(u32, u32, (Result<bool, ReadRefusal>, u64))] = &[
    (3, 0, (Ok(true), 0)),
    (2, 0, (Err(ReadRefusal::TooLong), 0)),
    (3, 1, (Err(ReadRefusal::Failed), 1)),
];

#[test]
fn a_source_is_read_to_its_end_or_refused(rt: HostRuntime) {
    for (i, &(limit, failing, wanted)) in READ.iter().enumerate() {
        assert!(rt;
            answer_of(&rt, rt.alloc(), limit, failing) == wanted,
            "at {i}"
        );
    }
}

/// The room, the call that fails (0 for none), what is written, and whether it is all.
const WRITTEN: &[(u32, u32, &[u8], bool)] = &[
    (9, 0, b"abcde", true),
    (9, 4, b"abcde", true),
    (9, 3, b"abcd", false),
    (9, 2, b"ab", false),
    (3, 0, b"abc", false),
];

/// A sink with this room that takes two bytes at a time, one of whose calls fails.
fn sink(rt: &impl Abort, alloc: Global, room: u32, failing: u32) -> Box<MemSink> {
    let failing = vec![in alloc; failing].expect(rt, "memory");
    let sink = MemSink::new(alloc, 2, room, failing).expect(rt, "memory");
    Box::new(alloc, sink).expect(rt, "memory")
}

/// Whether of five bytes these are written to a sink, and it has faults unless they are all.
fn is_written(
    rt: &impl Abort,
    alloc: Global,
    room: u32,
    failing: u32,
    written: &[u8],
    whole: bool,
) -> bool {
    let mut sink = sink(rt, alloc, room, failing);
    let is_whole = write_all(&mut *sink, b"abcde").is_ok();
    let faults = if whole { 0 } else { 1 };
    is_whole == whole && sink.written() == written && sink.faults() == faults
}

#[test]
fn a_sink_is_written_in_steps(rt: HostRuntime) {
    for (i, &(room, failing, written, whole)) in WRITTEN.iter().enumerate() {
        assert!(rt;
            is_written(&rt, rt.alloc(), room, failing, written, whole),
            "at {i}"
        );
    }
}
