//! Commands of scripts, written as words, and runs of them.
ghost use Rattle.std.specs.Prelude.{IsTrue, ◌+◌, ◌≤◌};
ghost use Rattle.std.specs.List.{All};
ghost use Rattle.journal.specs.Fit.{NumbersFit};
ghost use Rattle.runs.specs.Room.{entries_in, entries_of};
ghost use Rattle.runs.specs.Runs.{HasNumbers};

use crate::fixtures::{by, txt};
use capability::{Rights, Uid};
use eden_disk::ImageMode;
use eden_value::Value;
use journal::{Arg, Args, Command};
use runs::{Machine, Run};
use std::alloc::Global;
use std::process::Abort;

/// The first Eject of node 1.
pub(crate) const FIRST: Uid = Uid {
    node: 1,
    epoch: 1,
    serial: 1,
};

/// What a script asks of its nodes, of which all but `Restart` ask node 1, and of Ejects.
#[derive(Clone, Copy)]
pub(crate) enum Word<'a> {
    /// The node.
    Restart(u8),
    Crash,
    Cut,
    Join,
    /// How many device calls away.
    Fail(u32),
    Stop(u32),
    /// How many turns.
    Go(u32),
    /// The place of a key.
    Turn(u32),
    /// A name and a type.
    Create(&'a str, &'a str),
    /// A name for the first Eject.
    Hold(&'a str),
    /// A name, a target and an operation.
    Call(&'a str, &'a str, &'a str),
    /// A name, a Directory, and a name that is added to it, with what it stands for.
    Add(&'a str, &'a str, &'a str),
    /// A name and a target.
    Restrict(&'a str, &'a str),
    /// A name, a Directory by its name and the number of a result, and a path.
    Walk(&'a str, &'a str, u8, &'a str),
    End,
}

/// A name as a text, and what it stands for.
fn entry_of(rt: &impl Abort, alloc: Global, name: &str) -> Vec<Arg> {
    let text = txt(rt, alloc, name);
    let first = Arg::Plain {
        value: Value::Text { text },
    };
    let second = Arg::Named {
        by: by(rt, alloc, name, 0),
    };
    vec![in alloc; first, second].expect(rt, "memory")
}

/// A call of an operation.
fn call(
    rt: &impl Abort,
    alloc: Global,
    name: &str,
    target: &str,
    operation: &str,
    args: Vec<Arg>,
) -> Command {
    Command::Call {
        name: txt(rt, alloc, name),
        target: by(rt, alloc, target, 0),
        operation: txt(rt, alloc, operation),
        args: Args { args },
    }
}

/// A word that names something.
fn naming(rt: &impl Abort, alloc: Global, word: Word) -> Command {
    match word {
        Word::Create(name, kind) => Command::Create {
            name: txt(rt, alloc, name),
            node: 1,
            type_name: txt(rt, alloc, kind),
        },
        Word::Hold(name) => Command::Hold {
            name: txt(rt, alloc, name),
            uid: FIRST,
        },
        Word::Call(name, target, operation) => call(
            rt,
            alloc,
            name,
            target,
            operation,
            Vec::new(alloc),
        ),
        Word::Add(name, target, added) => call(
            rt,
            alloc,
            name,
            target,
            "AddEntry",
            entry_of(rt, alloc, added),
        ),
        Word::Restrict(name, target) => Command::Restrict {
            name: txt(rt, alloc, name),
            target: by(rt, alloc, target, 0),
            mask: Rights { bits: 2 },
        },
        Word::Walk(name, target, k, path) => Command::Walk {
            name: txt(rt, alloc, name),
            target: by(rt, alloc, target, k),
            path: txt(rt, alloc, path),
        },
        _ => Command::End,
    }
}

/// The command of a word.
fn command(rt: &impl Abort, alloc: Global, word: Word) -> Command {
    match word {
        Word::Restart(node) => Command::Restart { node },
        Word::Crash => Command::Crash {
            node: 1,
            mode: ImageMode::Lose,
        },
        Word::Cut => Command::Cut { a: 0, b: 1 },
        Word::Join => Command::Join { a: 0, b: 1 },
        Word::Fail(after) => Command::Fail { node: 1, after },
        Word::Stop(after) => Command::Stop {
            node: 1,
            after,
            mode: ImageMode::Lose,
        },
        Word::Go(n) => Command::Go { n },
        Word::Turn(i) => Command::Turn { i },
        _ => naming(rt, alloc, word),
    }
}

/// Whether a node has this number.
fn is_node(number: u8) -> bool
    ensures { IsTrue result → (1 ≤ number) × (number ≤ 8) }
{
    1 <= number && number <= 8
}

/// Whether the numbers of a command are in their ranges.
fn fits(command: &Command) -> bool
    ensures { IsTrue result → NumbersFit 8 command.now }
{
    match command {
        Command::Create { node, .. }
        | Command::Restart { node }
        | Command::Crash {
            node,
            mode: ImageMode::Lose,
        } => is_node(*node),
        Command::Hold { uid, .. } => is_node(uid.node) && 1 <= uid.epoch && 1 <= uid.serial,
        Command::Call { target, .. } | Command::Walk { target, .. } => target.result <= 8,
        Command::Restrict { target, mask, .. } => target.result <= 8 && mask.bits <= u16::MAX,
        Command::Go { n } => 1 <= *n && *n <= 1_000_000,
        Command::Turn { i } => *i <= 1_000_000,
        Command::Cut { a, b } | Command::Join { a, b } => *a <= 8 && *b <= 8,
        Command::Fail { node, after }
        | Command::Stop {
            node,
            after,
            mode: ImageMode::Lose,
        } => { is_node(*node) && 1 <= *after && *after <= 1_000_000 }
        Command::End => true,
        _ => false,
    }
}

/// Whether those of all are.
fn all_fit(commands: &[Command]) -> bool
    ensures { IsTrue result → All (NumbersFit 8) commands.now }
{
    for command in commands {
        if !fits(command) {
            return false;
        }
    }
    true
}

/// The commands of these words, with their numbers in their ranges.
fn commands_of(rt: &impl Abort, alloc: Global, words: &[Word]) -> Vec<Command>
    ensures { All (NumbersFit 8) result.items }
{
    let mut commands = Vec::new(alloc);
    for word in words {
        commands
            .push(command(rt, alloc, *word))
            .expect(rt, "memory");
    }
    assert!(rt; all_fit(&commands), "numbers in their ranges");
    commands
}

/// How many entries a command gives at most besides those of turns.
fn entries(command: &Command) -> usize
    ensures { entries_of command.now ≤ result }
{
    match command {
        Command::Go { .. } | Command::Turn { .. } => 0,
        Command::Walk { path, .. } => path.as_slice().len() + 1,
        _ => 1,
    }
}

/// Whether there is a number for each call that the commands may ask, behind eight boots.
fn have_numbers<M: Machine>(run: &Run<M>, commands: &[Command]) -> bool
    ensures { IsTrue result → HasNumbers M.asked run.now (8 + entries_in commands.now) }
{
    if run.machine.calls_asked() > 1_000_000 {
        return false;
    }
    let mut left: usize = 1_000_000;
    for command in commands {
        let needed = entries(command);
        if needed > left {
            return false;
        }
        left -= needed;
    }
    true
}

/// Boots so many nodes and carries the words out.
pub(crate) fn carry<M: Machine>(
    rt: &impl Abort,
    alloc: Global,
    run: &mut Run<M>,
    nodes: u8,
    words: &[Word],
)
    requires few { nodes ≤ 8 }
    requires whole { M.whole run.old.machine }
    ensures { M.whole run.new.machine }
{
    let commands = commands_of(rt, alloc, words);
    assert!(rt; have_numbers(run, &commands), "numbers of calls");
    run.carry_all(alloc, nodes, &commands).expect(rt, "memory");
}
