//! Scripts and their transcripts, over eight blank disks.
use crate::fixtures::{DISK_SIZE, blank_disks, sink_of, source_of, words_of};
use eden_shell::{Outcome, eden_over_blank};
use std::alloc::Global;
use std::process::Abort;

/// Whether a script runs to its end, and has this transcript.
fn is_transcript(
    rt: &impl Abort,
    alloc: Global,
    words: &[&str],
    script: &str,
    transcript: &str,
) -> bool {
    let words = words_of(rt, alloc, words);
    let mut source = source_of(rt, alloc, script, 0, &[]);
    let mut sink = sink_of(rt, alloc, 4096, 100_000, &[]);
    let mut disks = blank_disks(rt, alloc, DISK_SIZE);
    let report = eden_over_blank(alloc, &words, &mut *source, &mut *sink, &mut disks);
    report.outcome == Outcome::Ran && sink.written() == transcript.as_bytes()
}

/// Scripts, and their transcripts.
const ROWS: &[(&str, &str)] = &[
    // a refusal of each kind that a target may answer
    (
        "nodes 1\ncreate c 1 Cell\nrestrict r c 2\ncall a r.Set(1)\ngo 100\ncall b r.Get()\ngo 100\ncall d c.Foo()\ngo 100\n\
        call e c.Set(\"x\")\ngo 100\nhold h 1.1.9\ncall f h.Get()\ngo 100\nend\n",
        "node 1 up epoch 1\nc is 1.1.1\na refused 1 no right\nquiet\nb ok (0)\nquiet\nd refused 2 no operation\nquiet\n\
        e refused 3 bad arguments\nquiet\nf refused 4 gone\nquiet\n",
    ),
    // a crash breaks a call, and nothing is sent to a node that is down
    (
        "nodes 1\ncreate c 1 Cell\ncall a c.Get()\ncrash 1\ncall b c.Get()\nrestart 1\nrestart 1\nend\n",
        "node 1 up epoch 1\nc is 1.1.1\nnode 1 down crash\na refused 6 broken\nb refused 5 unreachable\nnode 1 up epoch 2\n\
        node 1 is up\n",
    ),
    // a Cell that never saved is gone, and its uid is not given again
    (
        "nodes 1\ncreate c 1 Cell\ncrash 1\nrestart 1\ncall a c.Get()\ngo 100\ncreate d 1 Cell\nend\n",
        "node 1 up epoch 1\nc is 1.1.1\nnode 1 down crash\nnode 1 up epoch 2\na refused 4 gone\nquiet\nd is 1.2.1\n",
    ),
    // the link is cut before the request comes, between the request and the reply, and behind the reply
    (
        "nodes 1\ncreate c 1 Cell\ncall a c.Set(5)\ncut 0 1\njoin 0 1\ncall b c.Get()\ngo 100\nend\n",
        "node 1 up epoch 1\nc is 1.1.1\na refused 6 broken\nb ok (0)\nquiet\n",
    ),
    (
        "nodes 1\ncreate c 1 Cell\ncall a c.Set(5)\nturn 0\nturn 0\ncut 0 1\njoin 0 1\ngo 100\ncall b c.Get()\ngo 100\nend\n",
        "node 1 up epoch 1\nc is 1.1.1\na refused 6 broken\nquiet\nb ok (5)\nquiet\n",
    ),
    (
        "nodes 1\ncreate c 1 Cell\ncall a c.Set(5)\ngo 100\ncut 0 1\njoin 0 1\ncall b c.Get()\ngo 100\nend\n",
        "node 1 up epoch 1\nc is 1.1.1\na ok ()\nquiet\nb ok (5)\nquiet\n",
    ),
    // behind a Sleep the queue stays, and behind a Kill there is nobody to hear it
    (
        "nodes 1\ncreate c 1 Cell\ncall a c.Save()\ngo 100\ncall s c.Sleep()\ncall b c.Get()\ncall d c.Get()\ncall e c.Get()\n\
        turn 0\nturn 0\nturn 0\nturn 0\ngo 100\nend\n",
        "node 1 up epoch 1\nc is 1.1.1\na ok (0)\nquiet\ns refused 9 dropped\nb ok (0)\nd ok (0)\ne ok (0)\nquiet\n",
    ),
    (
        "nodes 1\ncreate c 1 Cell\ncall a c.Save()\ngo 100\ncall s c.Kill()\ncall b c.Get()\ncall d c.Get()\ncall e c.Get()\n\
        turn 0\nturn 0\nturn 0\nturn 0\ngo 100\nend\n",
        "node 1 up epoch 1\nc is 1.1.1\na ok (0)\nquiet\ns refused 9 dropped\nb refused 4 gone\nd refused 4 gone\n\
        e refused 4 gone\nquiet\n",
    ),
    // other turns come between the device calls of a save
    (
        "nodes 1\ncreate c 1 Cell\ncreate x 1 Cell\ncall f c.Save()\ncall h x.Get()\ngo 100\nend\n",
        "node 1 up epoch 1\nc is 1.1.1\nx is 1.1.2\nh ok (0)\nf ok (0)\nquiet\n",
    ),
    // a stop in the save of one Cell leaves both as they were saved before
    (
        "nodes 1\ncreate c 1 Cell\ncreate x 1 Cell\ncall a c.Save()\ngo 100\ncall b x.Set(3)\ngo 100\ncall d x.Save()\ngo 100\n\
        call e c.Set(8)\ngo 100\nstop 1 1 lose\ncall f c.Save()\ngo 100\nrestart 1\ncall g c.Get()\ngo 100\ncall h x.Get()\n\
        go 100\nend\n",
        "node 1 up epoch 1\nc is 1.1.1\nx is 1.1.2\na ok (0)\nquiet\nb ok ()\nquiet\nd ok (0)\nquiet\ne ok ()\nquiet\n\
        node 1 down stop\nf refused 6 broken\nquiet\nnode 1 up epoch 2\ng ok (0)\nquiet\nh ok (3)\nquiet\n",
    ),
    // a path into an empty Directory
    (
        "nodes 1\ncreate d 1 Directory\nwalk w d \"a\"\ncall b w.2.Get()\nend\n",
        "node 1 up epoch 1\nd is 1.1.1\nw ok (1, <none>)\nb void\n",
    ),
    // a stream that is asked for a part of its items, and then for one that is out of reach
    (
        "nodes 1\ncreate l 1 Lines\ncreate n 1 Number\ncreate k 1 Sink\ncall a l.Fill([\"x\", \"y\", \"z\"])\ngo 1000\n\
        call b n.Open(l)\ngo 1000\ncall d k.Open(n)\ngo 1000\ncall e k.Pump(2)\ngo 1000\ncall f k.Read()\ngo 1000\n\
        call g n.Transfer(5)\ngo 1000\nend\n",
        "node 1 up epoch 1\nl is 1.1.1\nn is 1.1.2\nk is 1.1.3\na ok (0)\nquiet\nb ok (0)\nquiet\nd ok (0)\nquiet\n\
        e ok (0, 2)\nquiet\nf ok ([\"1: x\", \"2: y\"])\nquiet\ng ok (2, \"\")\nquiet\n",
    ),
    // a gate that is opened in another order of turns: who waits goes first
    (
        "edentype Gate\nclass pass limit 2\nclass one limit 1\nmonitor M\nworking free : bool = false\ncondition c\nend\n\
        operation Pass needs 1 class pass () returns (int)\nvar r : int = 0\nwith M do\nwhile not free do\nwait c\nend\n\
        r := 1\nend\nreturn (r)\nend\n\
        operation Open needs 2 class one () returns ()\nwith M do\nfree := true\nsignal c\nend\nreturn ()\nend\nendtype\n\
        nodes 1\ncreate g 1 Gate\ncall a g.Pass()\ngo 100\ncall b g.Open()\ngo 5\nturn 0\nturn 0\nturn 0\ngo 100\nend\n",
        "node 1 up epoch 1\ng is 1.1.1\nquiet\na ok (1)\nb ok ()\nquiet\n",
    ),
    // two Ejects that wait for each other
    (
        "edentype Peer\nclass all limit 1\n\
        operation Poke needs 1 class all (other : cap, back : cap) returns (int)\nvar s : int = 0\nvar r : int = 0\n\
        invoke other.Poke(back, other) status s gives (r)\nreturn (s)\nend\nendtype\n\
        nodes 1\ncreate p 1 Peer\ncreate q 1 Peer\ncall a p.Poke(q, p)\ngo 100\nend\n",
        "node 1 up epoch 1\np is 1.1.1\nq is 1.1.2\nquiet\nopen a\n",
    ),
    // who faults is gone, where nothing was kept
    (
        "edentype Half\nclass all limit 1\noperation Part needs 1 class all (n : int) returns (int)\nreturn (10 / n)\nend\nendtype\n\
        nodes 1\ncreate x 1 Half\ncall a x.Part(0)\ngo 100\ncall b x.Part(2)\ngo 100\nend\n",
        "node 1 up epoch 1\nx is 1.1.1\neject 1.1.1 fault zero divisor\na refused 9 dropped\nquiet\nb refused 4 gone\nquiet\n",
    ),
    // a turn of 10,000 statements, and one of more
    (
        "edentype Spin\nclass all limit 1\noperation Run needs 1 class all (n : int) returns (int)\nvar i : int = 0\n\
        while i < n do\ni := i + 1\nend\nreturn (i)\nend\nendtype\n\
        nodes 1\ncreate s 1 Spin\ncall a s.Run(4999)\ngo 100\ncall b s.Run(5000)\ngo 100\nend\n",
        "node 1 up epoch 1\ns is 1.1.1\na ok (4999)\nquiet\neject 1.1.1 fault budget\nb refused 9 dropped\nquiet\n",
    ),
    // a declared process runs once, unasked
    (
        "edentype Once\nclass all limit 2\nmonitor M\nworking n : int = 0\nend\n\
        operation Read needs 1 class all () returns (int)\nvar r : int = 0\nwith M do\nr := n\nend\nreturn (r)\nend\n\
        process P\nwith M do\nn := 7\nend\nend\nendtype\n\
        nodes 1\ncreate o 1 Once\ngo 100\ncall a o.Read()\ngo 100\nend\n",
        "node 1 up epoch 1\no is 1.1.1\nquiet\na ok (7)\nquiet\n",
    ),
    // a capability that is kept has the rights with which it was given
    (
        "edentype Box\ndurable held : cap = none\nclass all limit 1\n\
        operation Keep needs 1 class all (c : cap) returns (int)\nvar s : int = 0\nheld := restrict(c, 65535)\ncheckpoint s\n\
        return (s)\nend\noperation Fetch needs 2 class all () returns (cap)\nreturn (held)\nend\nendtype\n\
        nodes 2\ncreate b 1 Box\ncreate c 2 Cell\nrestrict r c 2\ncall a b.Keep(r)\ngo 100\ncrash 1\nrestart 1\n\
        call d b.Fetch()\ngo 100\ncall e d.1.Get()\ngo 100\ncall f d.1.Set(4)\ngo 100\nend\n",
        "node 1 up epoch 1\nnode 2 up epoch 1\nb is 1.1.1\nc is 2.1.1\na ok (0)\nquiet\nnode 1 down crash\nnode 1 up epoch 2\n\
        d ok (<2.1.1:0002>)\nquiet\ne ok (0)\nquiet\nf refused 1 no right\nquiet\n",
    ),
];

#[test]
fn scripts_have_their_transcripts(rt: HostRuntime) {
    let alloc = rt.alloc();
    for (place, &(script, transcript)) in ROWS.iter().enumerate() {
        assert!(rt;
            is_transcript(&rt, alloc, &["run"], script, transcript),
            "{place}"
        );
    }
}

/// A Cell that saved a 5 and then was given a 9, and what is written of it.
const SAVED: (&str, &str) = (
    "nodes 1\ncreate c 1 Cell\ncall a c.Set(5)\ngo 100\ncall b c.Save()\ngo 100\ncall d c.Set(9)\ngo 100\n",
    "node 1 up epoch 1\nc is 1.1.1\na ok ()\nquiet\nb ok (0)\nquiet\nd ok ()\nquiet\n",
);

/// Behind it: scripts, and their transcripts.
const BEHIND_A_SAVE: &[(&str, &str)] = &[
    // a save that failed in its last device call may be kept
    (
        "fail 1 5\ncall f c.Save()\ngo 100\ncrash 1 keep\nrestart 1\ncall i c.Get()\ngo 100\nend\n",
        "f ok (7)\nquiet\nnode 1 down crash\nnode 1 up epoch 2\ni ok (9)\nquiet\n",
    ),
    (
        "fail 1 5\ncall f c.Save()\ngo 100\ncrash 1 lose\nrestart 1\ncall i c.Get()\ngo 100\nend\n",
        "f ok (7)\nquiet\nnode 1 down crash\nnode 1 up epoch 2\ni ok (5)\nquiet\n",
    ),
    // and the next save is whole
    (
        "fail 1 5\ncall f c.Save()\ngo 100\ncall g c.Set(11)\ngo 100\ncall h c.Save()\ngo 100\ncrash 1\nrestart 1\n\
        call i c.Get()\ngo 100\nend\n",
        "f ok (7)\nquiet\ng ok ()\nquiet\nh ok (0)\nquiet\nnode 1 down crash\nnode 1 up epoch 2\ni ok (11)\nquiet\n",
    ),
    // an activation whose device call fails may be tried again
    (
        "crash 1\nrestart 1\nfail 1 1\ncall e c.Get()\ngo 100\ncall f c.Get()\ngo 100\nend\n",
        "node 1 down crash\nnode 1 up epoch 2\ne refused 7 store fault\nquiet\nf ok (5)\nquiet\n",
    ),
    // a garbled gate that happens not to be open
    (
        "stop 1 4 garble 0\ncall f c.Save()\ngo 100\nrestart 1\ncall g c.Get()\ngo 100\nend\n",
        "node 1 down stop\nf refused 6 broken\nquiet\nnode 1 up epoch 2\ng ok (5)\nquiet\n",
    ),
    // a garbled block, and a garbled head behind its closed gate, are found by neither of two boots
    (
        "stop 1 1 garble 225\ncall f c.Save()\ngo 100\nrestart 1\ncrash 1\nrestart 1\ncall g c.Get()\ngo 100\nend\n",
        "node 1 down stop\nf refused 6 broken\nquiet\nnode 1 up epoch 2\nnode 1 down crash\nnode 1 up epoch 3\ng ok (5)\nquiet\n",
    ),
    (
        "stop 1 2 garble 225\ncall f c.Save()\ngo 100\nrestart 1\ncrash 1\nrestart 1\ncall g c.Get()\ngo 100\nend\n",
        "node 1 down stop\nf refused 6 broken\nquiet\nnode 1 up epoch 2\nnode 1 down crash\nnode 1 up epoch 3\ng ok (5)\nquiet\n",
    ),
];

/// One text behind another.
fn joined(rt: &impl Abort, alloc: Global, front: &str, rest: &str) -> String {
    format!(in alloc; "{front}{rest}").expect(rt, "memory")
}

#[test]
fn what_comes_behind_a_save(rt: HostRuntime) {
    let alloc = rt.alloc();
    let (script, transcript) = SAVED;
    for (place, &(rest, written)) in BEHIND_A_SAVE.iter().enumerate() {
        let script = joined(&rt, alloc, script, rest);
        let wanted = joined(&rt, alloc, transcript, written);
        assert!(rt;
            is_transcript(&rt, alloc, &["run"], script.as_str(), wanted.as_str()),
            "{place}"
        );
    }
}

/// Statements, and the cause of the fault in which they end.
const FAULTS: &[(&str, &str)] = &[
    ("return (9223372036854775807 + 1)", "overflow"),
    ("return (1 / 0)", "zero divisor"),
    ("return ([1][1])", "bad index"),
    (
        "var t : text = \"x\"\nwhile true do\nt := t & t\nend",
        "too long",
    ),
    ("return (size([[[[[1]]]]]))", "too deep"),
    ("var c : cap = none\nc := restrict(c, 65536)", "bad mask"),
    (
        "var c : cap = none\nvar s : int = 0\ninvoke c.Get() status s",
        "no capability",
    ),
    // the Cell returns a number, and no variable takes it
    (
        "var c : cap = none\nvar s : int = 0\ncreate Cell status s gives (c)\ninvoke c.Get() status s",
        "bad kind",
    ),
    ("", "no return"),
    ("while true do\nend", "budget"),
];

/// A script with a type whose operation has these statements, and a call of it.
fn calling(rt: &impl Abort, alloc: Global, statements: &str) -> String {
    format!(in alloc;
        "edentype A\nclass all limit 1\noperation Go needs 1 class all () returns (int)\n{statements}\nend\nendtype\n\
        nodes 1\ncreate x 1 A\ncall a x.Go()\ngo 100\nend\n"
    )
    .expect(rt, "memory")
}

/// What is written of it where they fault.
fn faulted(rt: &impl Abort, alloc: Global, cause: &str) -> String {
    format!(in alloc;
        "node 1 up epoch 1\nx is 1.1.1\neject 1.1.1 fault {cause}\na refused 9 dropped\nquiet\n"
    ).expect(rt, "memory")
}

#[test]
fn faults_have_their_causes(rt: HostRuntime) {
    let alloc = rt.alloc();
    for &(statements, cause) in FAULTS {
        let script = calling(&rt, alloc, statements);
        let wanted = faulted(&rt, alloc, cause);
        assert!(rt;
            is_transcript(&rt, alloc, &["run"], script.as_str(), wanted.as_str()),
            "{cause}"
        );
    }
}

/// Scripts, and the lines of every event. A boot over such a disk makes 43 device calls: a sync, a read, a write over the one block of
/// heads, a sync, the mark, a sync, a read of each of 32 heads, and the five of its put.
const TRACED: &[(&str, &str)] = &[
    // the gate of a first save was never written: the activation settles that nothing is kept
    (
        "nodes 1\ncreate c 1 Cell\nfail 1 4\ncall a c.Save()\ngo 100\ncall b c.Sleep()\ngo 100\ncall d c.Get()\ngo 100\nend\n",
        "node 1 up epoch 1\nc is 1.1.1\n+ fail 1 4\n+ call 1 a\n+ request 1 0 1\n+ start 1 1.1.1 1\n+ process 1.1.1 1 checkpoint\n\
        + store 1.1.1 44 part\n+ store 1.1.1 45 part\n+ store 1.1.1 46 part\n+ store 1.1.1 47 fault\n\
        + process 1.1.1 1 return 1\n+ reply 1 1 0\na ok (7)\nquiet\n+ call 2 b\n+ request 2 0 1\n+ start 2 1.1.1 1\n\
        + process 1.1.1 1 deactivate\n+ reply 2 1 0\nb refused 9 dropped\nquiet\n+ call 3 d\n+ request 3 0 1\n\
        + activate 1.1.1 gone\n+ reply 3 1 0\nd refused 4 gone\nquiet\n",
    ),
    // a representation of 28,769 bytes takes 29 blocks, which are all that are free
    (
        "edentype Hoard\ndurable l : list of text = list(text)\nclass all limit 1\n\
        operation Fill needs 1 class all (n : int) returns (int)\nvar t : text = \"x\"\nvar s : int = 0\n\
        while size(t) < 1024 do\nt := t & t\nend\nwhile size(l) < n do\nl := l & [t]\nend\n\
        checkpoint s\nreturn (s)\nend\nendtype\n\
        nodes 1\ncreate h 1 Hoard\ncall a h.Fill(28)\ngo 100\nend\n",
        "node 1 up epoch 1\nh is 1.1.1\n+ call 1 a\n+ request 1 0 1\n+ start 1 1.1.1 1\n+ process 1.1.1 1 checkpoint\n\
        + store 1.1.1 43 full\n+ process 1.1.1 1 return 1\n+ reply 1 1 0\na ok (12)\nquiet\n",
    ),
    // a stream of one filter: two items are asked for in four invocations, which are the calls 5 to 8
    (
        "nodes 1\ncreate l 1 Lines\ncreate n 1 Number\ncreate k 1 Sink\ncall a l.Fill([\"x\", \"y\", \"z\"])\ngo 1000\n\
        call b n.Open(l)\ngo 1000\ncall d k.Open(n)\ngo 1000\ncall e k.Pump(2)\ngo 1000\nend\n",
        "node 1 up epoch 1\nl is 1.1.1\nn is 1.1.2\nk is 1.1.3\n\
        + call 1 a\n+ request 1 0 1\n+ start 1 1.1.1 1\n+ process 1.1.1 1 checkpoint\n+ store 1.1.1 44 part\n\
        + store 1.1.1 45 part\n+ store 1.1.1 46 part\n+ store 1.1.1 47 part\n+ store 1.1.1 48 done\n\
        + process 1.1.1 1 return 1\n+ reply 1 1 0\na ok (0)\nquiet\n\
        + call 2 b\n+ request 2 0 1\n+ start 2 1.1.2 1\n+ process 1.1.2 1 checkpoint\n+ store 1.1.2 49 part\n\
        + store 1.1.2 50 part\n+ store 1.1.2 51 part\n+ store 1.1.2 52 part\n+ store 1.1.2 53 done\n\
        + process 1.1.2 1 return 2\n+ reply 2 1 0\nb ok (0)\nquiet\n\
        + call 3 d\n+ request 3 0 1\n+ start 3 1.1.3 1\n+ process 1.1.3 1 checkpoint\n+ store 1.1.3 54 part\n\
        + store 1.1.3 55 part\n+ store 1.1.3 56 part\n+ store 1.1.3 57 part\n+ store 1.1.3 58 done\n\
        + process 1.1.3 1 return 3\n+ reply 3 1 0\nd ok (0)\nquiet\n\
        + call 4 e\n+ request 4 0 1\n+ start 4 1.1.3 1\n+ process 1.1.3 1 invoke 5\n\
        + request 5 1 1\n+ start 5 1.1.2 1\n+ process 1.1.2 1 invoke 6\n\
        + request 6 1 1\n+ start 6 1.1.1 1\n+ process 1.1.1 1 return 6\n+ reply 6 1 1\n\
        + process 1.1.2 1 checkpoint\n+ store 1.1.2 59 part\n+ store 1.1.2 60 part\n+ store 1.1.2 61 part\n\
        + store 1.1.2 62 part\n+ store 1.1.2 63 done\n+ process 1.1.2 1 return 5\n+ reply 5 1 1\n\
        + process 1.1.3 1 checkpoint\n+ store 1.1.3 64 part\n+ store 1.1.3 65 part\n+ store 1.1.3 66 part\n\
        + store 1.1.3 67 part\n+ store 1.1.3 68 part\n+ store 1.1.3 69 done\n+ process 1.1.3 1 invoke 7\n\
        + request 7 1 1\n+ start 7 1.1.2 1\n+ process 1.1.2 1 invoke 8\n\
        + request 8 1 1\n+ start 8 1.1.1 1\n+ process 1.1.1 1 return 8\n+ reply 8 1 1\n\
        + process 1.1.2 1 checkpoint\n+ store 1.1.2 70 part\n+ store 1.1.2 71 part\n+ store 1.1.2 72 part\n\
        + store 1.1.2 73 part\n+ store 1.1.2 74 part\n+ store 1.1.2 75 done\n+ process 1.1.2 1 return 7\n+ reply 7 1 1\n\
        + process 1.1.3 1 checkpoint\n+ store 1.1.3 76 part\n+ store 1.1.3 77 part\n+ store 1.1.3 78 part\n\
        + store 1.1.3 79 part\n+ store 1.1.3 80 part\n+ store 1.1.3 81 done\n\
        + process 1.1.3 1 return 4\n+ reply 4 1 0\ne ok (0, 2)\nquiet\n",
    ),
    // a process that waits in a monitor, and a declared one that lets it go on
    (
        "edentype Gate\nclass pass limit 2\nmonitor M\nworking free : bool = false\ncondition c\nend\n\
        operation Pass needs 1 class pass () returns ()\nwith M do\nwhile not free do\nwait c\nend\nend\nreturn ()\nend\n\
        process P\nyield\nwith M do\nfree := true\nsignal c\nend\nend\nendtype\n\
        nodes 1\ncreate g 1 Gate\ncall a g.Pass()\ngo 100\nend\n",
        "node 1 up epoch 1\ng is 1.1.1\n+ call 1 a\n+ request 1 0 1\n+ start 1 1.1.1 2\n+ process 1.1.1 1 yield\n\
        + process 1.1.1 2 lock\n+ process 1.1.1 1 lock\n+ process 1.1.1 2 wait\n+ process 1.1.1 1 signal\n\
        + process 1.1.1 1 leave\n+ process 1.1.1 2 leave\n+ process 1.1.1 1 end\n+ process 1.1.1 2 return 1\n\
        + reply 1 1 0\na ok ()\nquiet\n",
    ),
];

#[test]
fn traces_have_each_line(rt: HostRuntime) {
    let alloc = rt.alloc();
    for (place, &(script, transcript)) in TRACED.iter().enumerate() {
        assert!(rt;
            is_transcript(&rt, alloc, &["run", "--trace"], script, transcript),
            "{place}"
        );
    }
}
