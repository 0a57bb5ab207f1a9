//! The calls of `Ends`, and scripts of a wire with what they write.

use eden_script::{ScriptCause, ScriptRefusal};
use lossy_wire::{Ends, Header, Taken, run_wire};
use std::alloc::Global;
use std::process::Abort;

/// What a step does at the ends of three stations.
#[derive(Clone, Copy)]
enum Step {
    /// A value is sent, and goes with this number.
    Send(u8, u8, u32),
    /// A value is sent again with its number, if there is one.
    Again(u8, u8, Option<u32>),
    /// A value comes with its number: whether it is delivered, and how many are.
    Value(u8, u8, u32, bool, u32),
    /// So many are said to be delivered.
    Known(u8, u8, u32),
    /// How many values were sent, known and delivered.
    Sum(u8, u8, (u32, u32, u32)),
}

/// Whether a step at the ends is as it says.
fn is_so(rt: &impl Abort, ends: &mut Ends, step: Step) -> bool {
    match step {
        Step::Send(a, b, number) => {
            assert!(rt; 1 <= a && a <= 8 && 1 <= b && b <= 8 && ends.sent(a, b) < 1000);
            ends.send(a, b) == Header::Carried { number }
        }
        Step::Again(a, b, wanted) => {
            assert!(rt; 1 <= a && a <= 8 && 1 <= b && b <= 8);
            ends.again(a, b) == wanted.map(|number| Header::Carried { number })
        }
        Step::Value(a, b, number, delivers, upto) => {
            assert!(rt; 1 <= a && a <= 8 && 1 <= b && b <= 8);
            let reply = Some(Header::Known { upto });
            ends.take(a, b, Header::Carried { number }) == Taken { delivers, reply }
        }
        Step::Known(a, b, upto) => {
            assert!(rt; 1 <= a && a <= 8 && 1 <= b && b <= 8);
            let taken = ends.take(a, b, Header::Known { upto });
            !taken.delivers && taken.reply.is_none()
        }
        Step::Sum(a, b, wanted) => {
            assert!(rt; 1 <= a && a <= 8 && 1 <= b && b <= 8);
            (ends.sent(a, b), ends.known(a, b), ends.delivered(a, b)) == wanted
        }
    }
}

/// Steps at the ends of three stations, one behind the other.
const STEPS: &[Step] = &[
    Step::Again(1, 2, None),
    Step::Send(1, 2, 1),
    Step::Send(1, 2, 2),
    Step::Send(3, 2, 1),
    Step::Again(1, 2, Some(1)),
    // a value that is not the next one, then the next one, then both again
    Step::Value(1, 2, 2, false, 0),
    Step::Value(1, 2, 1, true, 1),
    Step::Value(1, 2, 1, false, 1),
    Step::Value(1, 2, 2, true, 2),
    Step::Value(1, 2, 0, false, 2),
    // more than was sent, then what was delivered, then an old number
    Step::Known(2, 1, 3),
    Step::Sum(1, 2, (2, 0, 2)),
    Step::Known(2, 1, 1),
    Step::Again(1, 2, Some(2)),
    Step::Known(2, 1, 0),
    Step::Sum(1, 2, (2, 1, 2)),
    Step::Known(2, 1, 2),
    Step::Again(1, 2, None),
    Step::Send(1, 2, 3),
    Step::Again(1, 2, Some(3)),
    Step::Sum(1, 2, (3, 2, 2)),
    Step::Sum(3, 2, (1, 0, 0)),
    Step::Sum(2, 1, (0, 0, 0)),
];

#[test]
fn ends_keep_what_is_not_known(rt: HostRuntime) {
    let mut ends = Ends::new(rt.alloc(), 3).expect(&rt, "memory");
    for (place, &step) in STEPS.iter().enumerate() {
        assert!(rt; is_so(&rt, &mut ends, step), "{place}");
    }
}

/// A script of a wire, and what it writes, or its first bad line and its cause.
type Row<'a> = (&'a str, Result<&'a str, (u32, ScriptCause)>);

/// Whether a script writes that, or is refused so.
fn writes(
    rt: &impl Abort,
    alloc: Global,
    script: &str,
    wanted: Result<&str, (u32, ScriptCause)>,
) -> bool {
    assert!(rt; script.len() <= 1_000_000);
    match (run_wire(alloc, script.as_bytes()), wanted) {
        (Ok(text), Ok(other)) => text.as_slice() == other.as_bytes(),
        (Err(ScriptRefusal::Bad { line, cause }), Err(at)) => (line, cause) == at,
        _ => false,
    }
}

/// Scripts that are carried out.
const WRITTEN: &[Row<'static>] = &[
    ("stations 2\nend", Ok("")),
    (
        "# a comment\n\nstations 3\nsend 3 1 [1, \"x\"]\ncarry 3 1 1\ncarry 1 3 1\nend\n\n# so\n",
        Ok("1 from 3 [1, \"x\"]\n3 1 sent 1 known 1 delivered 1\n"),
    ),
    // values come in another order than they were sent, between comments
    (
        "stations 2\nsend 1 2 \"a\"\n# b\nsend 1 2 [2, 3]\nagain 1 2\ncarry 1 2 2\ncarry 1 2 3\n\ncarry 1 2 2\nend\n",
        Ok("2 from 1 \"a\"\n2 from 1 [2, 3]\n1 2 sent 2 known 0 delivered 2\n"),
    ),
    (
        "stations 8\nsend 8 7 none\nsend 1 2 -0\ncarry 7 8 1\nend\n",
        Ok("no packet\n1 2 sent 1 known 0 delivered 0\n8 7 sent 1 known 0 delivered 0\n"),
    ),
];

/// Scripts that are refused, for each cause.
const REFUSED: &[Row<'static>] = &[
    ("", Err((1, ScriptCause::NoEnd))),
    ("stations 2\nagain 1 2\n", Err((3, ScriptCause::NoEnd))),
    ("stations 2\n\tend\n", Err((2, ScriptCause::BadByte))),
    ("stations 2\nend\nend\n", Err((3, ScriptCause::AfterEnd))),
    (
        "stations 2\nwalk 1\nend\n",
        Err((2, ScriptCause::NoCommand)),
    ),
    ("again 1 2\n", Err((1, ScriptCause::Misplaced))),
    ("end\n", Err((1, ScriptCause::Misplaced))),
    ("stations 2\nstations 2\n", Err((2, ScriptCause::Misplaced))),
    ("stations 2 \n", Err((1, ScriptCause::BadForm))),
    ("stations 2\nsend 1 2\n", Err((2, ScriptCause::BadForm))),
    ("stations 2\nsend 1 2 a\n", Err((2, ScriptCause::BadForm))),
    ("stations 2\nagain 1 01\n", Err((2, ScriptCause::BadForm))),
    ("stations 2\nagain 9 9\n", Err((2, ScriptCause::BadForm))),
    ("stations 1\n", Err((1, ScriptCause::BadNumber))),
    ("stations 9\n", Err((1, ScriptCause::BadNumber))),
    ("stations 2\nagain 1 3\n", Err((2, ScriptCause::BadNumber))),
    ("stations 2\nagain 0 1\n", Err((2, ScriptCause::BadNumber))),
    (
        "stations 2\ncarry 1 2 0\n",
        Err((2, ScriptCause::BadNumber)),
    ),
    (
        "stations 2\ncarry 1 2 4294967296\n",
        Err((2, ScriptCause::BadNumber)),
    ),
    (
        "stations 2\nsend 1 2 9223372036854775808\n",
        Err((2, ScriptCause::BadNumber)),
    ),
];

#[test]
fn scripts_of_a_wire_are_written(rt: HostRuntime) {
    for (place, &(script, wanted)) in WRITTEN.iter().enumerate() {
        assert!(rt; writes(&rt, rt.alloc(), script, wanted), "{place}");
    }
}

#[test]
fn scripts_of_a_wire_are_refused(rt: HostRuntime) {
    for (place, &(script, wanted)) in REFUSED.iter().enumerate() {
        assert!(rt; writes(&rt, rt.alloc(), script, wanted), "{place}");
    }
}
