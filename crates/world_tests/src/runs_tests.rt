ghost use Rattle.journal.specs.World.{World};
ghost use Rattle.journal.specs.declared.event.Entry.{Entry};
ghost use Rattle.journal.specs.Fit.{NumbersFit};
ghost use Rattle.journal.specs.Run.{Step};
ghost use Rattle.runs.specs.Room.{is_single};
ghost use Rattle.std.specs.Prelude.{ℕ, ◌≤◌};

use crate::script_steps::{Word, carry};
use capability::{Cap, Uid, mint};
use eden_value::Txt;
use journal::{Command, Entry, Event, Key, Names, Ref, Shown};
use runs::*;
use std::alloc::{AllocError, Global};
use std::process::Abort;

/// A machine of keys in ascending order, of which each has one turn. It stands for no world.
#[derive(Drop)]
struct Keys {
    keys: Vec<Key>,
    /// How many calls were asked.
    calls: u32,
    /// The calls up to this one find a directory, and those behind it nothing.
    finds: u32,
}

const fn key(serial: u32) -> Key {
    Key {
        station: 1,
        kind: 4,
        sender: 0,
        uid: Uid {
            node: 1,
            epoch: 1,
            serial,
        },
        process: 1,
    }
}

fn entry(alloc: Global, event: Event) -> Entry {
    Entry {
        event,
        node: 0,
        clock: 0,
        broken: Names {
            items: Vec::new(alloc),
        },
    }
}

impl Machine for Keys {
    ghost whole = { λ _. Unit {0} };

    ghost stands = { λ m more w. ⊥ };

    ghost did = { λ m s n. Unit {0} };

    ghost starved = { λ m more w n. Unit {0} };

    ghost shows = { λ m e n. Unit {0} };

    ghost leaves = { λ m n. Unit {0} };

    ghost enables = { λ m key. Unit {0} };

    ghost asked = { λ m. m.calls };

    fn calls_asked(&self) -> usize {
        self.calls as usize
    }

    fn following(&self, last: Option<Key>) -> Option<Key> {
        let first = self.keys.first().copied();
        let Some(last) = last else {
            return first;
        };
        for key in &self.keys {
            if last < *key {
                return Some(*key);
            }
        }
        first
    }

    fn may_take(&self, key: Key) -> bool {
        self.keys.contains(&key)
    }

    fn item(&self, i: u32) -> Option<Key> {
        let place = (i as usize).checked_rem(self.keys.len())?;
        self.keys.get(place).copied()
    }

    fn take(&mut self, alloc: Global, key: Key) -> Result<Entry, AllocError> {
        self.keys.retain(|k| *k != key);
        let event = Event::Process {
            uid: key.uid,
            process: key.process,
            shown: Shown::Yield,
        };
        Ok(entry(alloc, event))
    }

    fn carry_out(&mut self, alloc: Global, command: &Command) -> Result<Entry, AllocError> {
        let event = match command {
            Command::Restart { node } => Event::Still {
                node: *node,
                up: true,
            },
            _ => Event::Left {
                names: Names {
                    items: Vec::new(alloc),
                },
            },
        };
        Ok(entry(alloc, event))
    }

    fn look_up(
        &mut self,
        alloc: Global,
        name: &Txt,
        directory: Option<Cap>,
        _component: &Txt,
    ) -> Result<Entry, AllocError> {
        let name = name.share()?;
        if directory.is_none() {
            return Ok(entry(alloc, Event::Void { name }));
        }
        self.calls += 1;
        let event = Event::Asked {
            call: self.calls,
            name,
            at_once: None,
        };
        Ok(entry(alloc, event))
    }

    fn capability(&self, by: &Ref) -> Option<Cap> {
        if by.result == 0 {
            Some(mint(key(1).uid))
        } else {
            None
        }
    }

    fn found(&self, _name: &Txt) -> bool {
        self.calls <= self.finds
    }

    fn next_directory(&self, _name: &Txt) -> Option<Cap> {
        Some(mint(key(2).uid))
    }

    // Each call is answered by a turn that leaves an even number of keys.
    fn is_open(&self, _call: u32) -> bool {
        self.keys.len() % 2 == 1
    }
}

// A run with keys of these serials.
fn run_of(rt: &impl Abort, alloc: Global, serials: &[u32], finds: u32) -> Box<Run<Keys>> {
    let mut keys = Vec::new(alloc);
    for serial in serials {
        keys.push(key(*serial)).expect(rt, "memory");
    }
    let machine = Keys {
        keys,
        calls: 0,
        finds,
    };
    Box::new(alloc, Run::new(alloc, machine)).expect(rt, "memory")
}

// One letter an entry; of a turn the serial of its key.
fn letters(rt: &impl Abort, alloc: Global, history: &[Entry]) -> Vec<u8> {
    let mut out = Vec::new(alloc);
    for entry in history {
        let letter = match &entry.event {
            Event::Process { uid, .. } => b'0' + (uid.serial % 10) as u8,
            Event::Still { .. } => b'b',
            Event::Asked { .. } => b'a',
            Event::Void { .. } => b'v',
            Event::Quiet => b'q',
            Event::Spent => b's',
            _ => b'l',
        };
        out.push(letter).expect(rt, "memory");
    }
    out
}

/// The letters of a run over these words, behind so many nodes that are booted.
fn carried(
    rt: &impl Abort,
    alloc: Global,
    run: Box<Run<Keys>>,
    nodes: u8,
    words: &[Word],
) -> Vec<u8>
    requires { nodes ≤ 8 }
{
    let mut run = run;
    carry(rt, alloc, &mut *run, nodes, words);
    letters(rt, alloc, &run.history)
}

/// The calls that find a directory, a word of a script that begins at two nodes, and what is seen of three keys. A walk waits for
/// each of its answers, and goes on where something was found.
const SCRIPTS: &[(u32, Word<'static>, &[u8])] = &[
    (0, Word::Go(2), b"bb12l"),
    (0, Word::Go(9), b"bb123ql"),
    (0, Word::Turn(4), b"bb2l"),
    (0, Word::Restart(2), b"bbbl"),
    (9, Word::Walk("w", "d", 0, "x"), b"bba1l"),
    (9, Word::Walk("w", "d", 0, "x/y"), b"bba1a23l"),
    (1, Word::Walk("w", "d", 0, "x/y/z"), b"bba1a23l"),
    (9, Word::Walk("w", "d", 0, "x/y/z"), b"bba1a23aql"),
    (9, Word::Walk("w", "d", 1, "x/y"), b"bbvl"),
];

#[test]
fn a_script_gives_its_entries(rt: HostRuntime) {
    let alloc = rt.alloc();
    for (place, &(finds, word, wanted)) in SCRIPTS.iter().enumerate() {
        let run = run_of(&rt, alloc, &[1, 2, 3], finds);
        let said = carried(&rt, alloc, run, 2, &[word, Word::End]);
        assert!(rt; said.as_slice() == wanted, "{place}");
    }
}

const LATE_TURNS: &[Word<'static>] = &[Word::Go(5), Word::Turn(0), Word::End];

#[test]
fn turns_run_out(rt: HostRuntime) {
    let alloc = rt.alloc();
    let mut run = run_of(&rt, alloc, &[1, 2], 0);
    run.turns = 99_999;
    let said = carried(&rt, alloc, run, 1, LATE_TURNS);
    assert!(rt; said.as_slice() == b"b1ssl".as_slice());
}

/// Paths, and their components.
const PATHS: &[(&[u8], &[&[u8]])] = &[
    (b"", &[b""]),
    (b"a", &[b"a"]),
    (b"ab/c", &[b"ab", b"c"]),
    (b"/a/", &[b"", b"a", b""]),
];

/// Whether the parts of a path are these.
fn are_these(parts: &[Txt], wanted: &[&[u8]]) -> bool {
    let mut same = parts.len() == wanted.len();
    for (part, one) in parts.iter().zip(wanted) {
        same = same && part.bytes.as_slice() == *one;
    }
    same
}

#[test]
fn slashes_part_components(rt: HostRuntime) {
    for (place, &(path, wanted)) in PATHS.iter().enumerate() {
        let parts = components(rt.alloc(), path).expect(&rt, "memory");
        assert!(rt; are_these(&parts, wanted), "{place}");
    }
}
