ghost use Rattle.std.specs.Prelude.{◌≢◌};
ghost use Rattle.shell_answers.specs.declared.outcome.Outcome.TheVariants.{WriteFault};

use crate::fixtures::{sink_of, source_of, words_of};
use eden_io::{MemSink, MemSource};
use eden_script::ScriptCause;
use journal::{History, Mode};
use shell_answers::*;
use std::alloc::Global;
use std::process::Abort;

const PLAIN: Job = Job::Run { mode: Mode::Plain };

const TRACE: Job = Job::Run { mode: Mode::Trace };

const RUN_PLAIN: Option<Task> = Some(Task::History { job: PLAIN });

const RUN_TRACE: Option<Task> = Some(Task::History { job: TRACE });

const RUN_FULL: Option<Task> = Some(Task::History {
    job: Job::Run { mode: Mode::Full },
});

const GEN_LEAST: Option<Task> = Some(Task::History {
    job: Job::Gen { number: 0 },
});

const GEN_MOST: Option<Task> = Some(Task::History {
    job: Job::Gen { number: u64::MAX },
});

/// Words, what they ask for, and the directory that they name.
const WORDS: &[(&[&str], Option<Task>, Option<&str>)] = &[
    (&[], None, None),
    (&["run"], RUN_PLAIN, None),
    (&["run", "--trace"], RUN_TRACE, None),
    (&["run", "--full"], RUN_FULL, None),
    (&["run", "--full", "--trace"], None, None),
    (&["run", "--help"], None, None),
    (&["host", "d"], RUN_PLAIN, Some("d")),
    (&["host", "d", "--trace"], RUN_TRACE, Some("d")),
    (&["host", "d", "--full"], None, None),
    (&["host", ""], None, None),
    (&["host", "-d"], None, None),
    (&["host", "--trace"], None, None),
    (&["gen", "0"], GEN_LEAST, None),
    (&["gen", "18446744073709551615"], GEN_MOST, None),
    (&["gen", "18446744073709551616"], None, None),
    (&["gen", ""], None, None),
    (&["wire"], Some(Task::Wire), None),
    (&["wire", "--trace"], None, None),
    (&["move"], Some(Task::Move), None),
    (&["move", "--trace"], None, None),
    (&["Move"], None, None),
    (&["twin"], Some(Task::Twin), None),
    (&["twin", "1"], None, None),
    (&["--version"], None, None),
];

/// Whether the words ask for this task, and name this directory.
fn ask_for(words: &Vec<String>, task: Option<Task>, dir: Option<&str>) -> bool {
    task_of(words) == task && host_dir(words).map(|dir| dir.as_str()) == dir
}

#[test]
fn words_ask_for_tasks(rt: HostRuntime) {
    let alloc = rt.alloc();
    for (place, &(words, task, dir)) in WORDS.iter().enumerate() {
        let words = words_of(&rt, alloc, words);
        assert!(rt; ask_for(&words, task, dir), "{place}");
    }
}

/// What a reading comes to.
#[derive(Clone, Copy)]
enum Read<'a> {
    /// A job, and the number of nodes of its script.
    Script(Job, u8),
    /// What the script of a wire writes.
    Wire(&'a str),
    /// The numbers of nodes and of commands of a script of Ejects that wander.
    Moves(u8, usize),
    /// The number of commands of a script of pairs of disks.
    Twins(usize),
    /// No script: why, the outcome of the call and its status, and what is written.
    Refused(Outcome, Outcome, u8, &'a str),
}

/// A history without entries.
fn nothing(alloc: Global) -> Carried {
    Carried {
        history: History {
            entries: Vec::new(alloc),
        },
        whole: true,
    }
}

/// Whether the words ask for this.
fn is_asked(asked: Asked, wanted: Read) -> bool {
    match (asked, wanted) {
        (Asked::History { job, script }, Read::Script(other, nodes)) => {
            job == other && script.nodes == nodes
        }
        (Asked::Wire { text }, Read::Wire(other)) => text.as_slice() == other.as_bytes(),
        (Asked::Move { script }, Read::Moves(nodes, count)) => {
            script.nodes == nodes && script.commands.len() == count
        }
        (Asked::Twin { script }, Read::Twins(count)) => script.commands.len() == count,
        _ => false,
    }
}

/// Whether a run without entries is written to its end.
fn is_concluded(alloc: Global, sink: &mut MemSink) -> bool {
    conclude(alloc, Mode::Plain, nothing(alloc), sink).outcome == Outcome::Ran
}

/// Whether a refusal is told so; later writes do not fail.
fn is_refused(alloc: Global, due: Outcome, sink: &mut MemSink, wanted: Read) -> bool
    requires { due ≢ WriteFault }
{
    let Read::Refused(cause, outcome, code, text) = wanted else {
        return false;
    };
    let report = refuse(alloc, due, sink);
    let is_told = report.outcome == outcome && status(&report.outcome) == code;
    let is_written = sink.written() == text.as_bytes();
    due == cause && is_told && is_written && is_concluded(alloc, sink)
}

/// Whether the words and the bytes come to that, where these reads and writes fail.
fn is_read(
    rt: &impl Abort,
    alloc: Global,
    words: &[&str],
    bytes: &str,
    (reads, writes): (&[u32], &[u32]),
    wanted: Read,
) -> bool {
    let words = words_of(rt, alloc, words);
    let mut source = source_of(rt, alloc, bytes, 0, reads);
    let mut sink = sink_of(rt, alloc, 7, 100, writes);
    match read_script(alloc, &words, &mut *source) {
        Ok(asked) => is_asked(asked, wanted),
        Err(due) => is_refused(alloc, due, &mut sink, wanted),
    }
}

const NO_COMMAND: Outcome = Outcome::BadScript {
    line: 1,
    cause: ScriptCause::NoCommand,
};

const NO_END: Outcome = Outcome::BadScript {
    line: 2,
    cause: ScriptCause::NoEnd,
};

/// Words, the bytes of a script, the reads and the writes that fail, and what it comes to.
type Reading<'a> = (&'a [&'a str], &'a str, (&'a [u32], &'a [u32]), Read<'a>);

const READINGS: &[Reading<'static>] = &[
    (
        &["host", "d", "--trace"],
        "nodes 2\nend\n",
        (&[], &[]),
        Read::Script(TRACE, 2),
    ),
    (
        &["run"],
        "frob\n",
        (&[], &[]),
        Read::Refused(NO_COMMAND, NO_COMMAND, 3, "bad script line 1: no command\n"),
    ),
    (
        &["run"],
        "nodes 1\n",
        (&[], &[]),
        Read::Refused(NO_END, NO_END, 3, "bad script line 2: no end\n"),
    ),
    (
        &["wire"],
        "stations 2\nagain 1 2\nend\n",
        (&[], &[]),
        Read::Wire("nothing\n"),
    ),
    (
        &["wire"],
        "stations 2\n",
        (&[], &[]),
        Read::Refused(NO_END, NO_END, 3, "bad script line 2: no end\n"),
    ),
    (
        &["move"],
        "nodes 2\nmake 1 1 5\nmove 1 1.1.1 2\nend\n",
        (&[], &[]),
        Read::Moves(2, 2),
    ),
    (
        &["move"],
        "stations 2\nend\n",
        (&[], &[]),
        Read::Refused(NO_COMMAND, NO_COMMAND, 3, "bad script line 1: no command\n"),
    ),
    (
        &["twin"],
        "twins\nopen 1\nput 1 1 \"a\"\nend\n",
        (&[], &[]),
        Read::Twins(2),
    ),
    (
        &["twin"],
        "twins\n",
        (&[], &[]),
        Read::Refused(NO_END, NO_END, 3, "bad script line 2: no end\n"),
    ),
    (
        &["move"],
        "nodes 2\n",
        (&[], &[]),
        Read::Refused(NO_END, NO_END, 3, "bad script line 2: no end\n"),
    ),
    (
        &["run"],
        "nodes 2\nend\n",
        (&[1], &[1]),
        Read::Refused(Outcome::ReadFault, Outcome::WriteFault, 5, ""),
    ),
];

#[test]
fn a_script_is_read_or_refused(rt: HostRuntime) {
    let alloc = rt.alloc();
    for (place, &(words, bytes, failing, wanted)) in READINGS.iter().enumerate() {
        assert!(rt;
            is_read(&rt, alloc, words, bytes, failing, wanted),
            "{place}"
        );
    }
}
