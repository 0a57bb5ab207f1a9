//! A run: a machine that takes turns and carries commands out, and the history so far.
ghost use Rattle.std.specs.Prelude.{◌≡◌, ◌<◌, ◌≤◌, ◌+◌, [], ℕ, List, None, Some, false, IfOk, IfSome, OnOk, OnErr, IsTrue};
ghost use Rattle.std.specs.List.{All, Contains};
ghost use Rattle.journal.specs.World.{World};
ghost use Rattle.journal.specs.Run.{turn_is, turns};
ghost use Rattle.journal.specs.Enabled.{enabled, following};
ghost use Rattle.journal.specs.Fit.{NumbersFit};
ghost use Rattle.runs.specs.Reached.{IsReached};
ghost use Rattle.runs.specs.Machines.{plain, IsLeft};
ghost use Rattle.runs.specs.Room.{entries_in, entries_of, is_single};
ghost use Rattle.runs.specs.Runs.{IsYield};

use crate::machine::Machine;
use journal::{Command, Entry, Event, Key, Names, Shown};
use std::alloc::{AllocError, Global};

// The greatest number of turns of a script.
const MOST_TURNS: u32 = 100_000;

/// A run in progress.
#[derive(Drop)]
pub struct Run<M> {
    pub machine: M,
    /// What happened, entry by entry.
    pub history: Vec<Entry>,
    /// How many turns were taken.
    pub turns: u32,
    /// The key of the last of them.
    pub last: Option<Key>,
    /// Whether it is known that this key follows itself, so that none is looked for.
    pub again: bool,
}

// An entry that touches no disk and breaks no call.
pub fn plain(alloc: Global, event: Event) -> Entry
    ensures { result ≡ plain event }
{
    Entry {
        event,
        node: 0,
        clock: 0,
        broken: Names {
            items: Vec::new(alloc),
        },
    }
}

/// How a turn chooses among the enabled keys.
#[derive(Clone, Copy)]
pub enum Choice {
    /// The least past the last one, or the least of all.
    Following,
    /// The one at this place, counted round.
    Item { i: u32 },
}

// Whether a process let others go on.
fn is_yield(entry: &Entry) -> bool
    ensures { IsTrue result → IsYield entry.now }
{
    match entry.event {
        Event::Process {
            shown: Shown::Yield,
            ..
        } => true,
        _ => false,
    }
}

// Whether a command gives one entry.
pub fn is_single(command: &Command) -> bool
    ensures { result ≡ is_single command.now }
{
    match command {
        Command::Go { .. } => false,
        Command::Turn { .. } => false,
        Command::Walk { .. } => false,
        _ => true,
    }
}

impl<M: Machine> Run<M> {
    ghost use Rattle.runs.specs.Runs.{TakesTurn, TurnFails, TakesCommand, CommandFails, DoesDue, PartOfDue, CarriesCommand, PartOfCommand};
    ghost use Rattle.runs.specs.Runs.{KeepsShown, KeepsShownSoFar, CarriesAll, CarriesPart, chosen_by, Repeats};
    ghost use Rattle.runs.specs.Runs.{HasNumbers, SparesNumbers};
    ghost use Rattle.runs.specs.declared.run.Choice.TheVariants.{Following};

    /// A run of which nothing has happened yet.
    pub fn new(alloc: Global, machine: M) -> Run<M>
        ensures machine { result.machine ≡ machine }
        ensures history { result.history.items ≡ [] }
        ensures turns { result.turns ≡ 0 }
        ensures last { result.last ≡ None }
        ensures again { result.again ≡ false }
    {
        Run {
            machine,
            history: Vec::new(alloc),
            turns: 0,
            last: None,
            again: false,
        }
    }

    /// The machine and the history, once the run is over.
    pub fn into_parts(self) -> (M, Vec<Entry>)
        ensures machine { result.0 ≡ self.machine }
        ensures history { result.1 ≡ self.history }
    {
        let Run {
            machine,
            history,
            turns: _,
            last: _,
            again: _,
        } = self;
        (machine, history)
    }

    // The key that follows the last one. Where that follows itself, it is not looked for.
    fn following(&self) -> Option<Key>
        requires whole { M.whole self.now.machine }
        ensures follows { (more : ℕ) (w : World) → IsReached w → M.stands self.now.machine more w → w.last ≡ self.now.last
            → (IsTrue self.now.again → Repeats w) → result ≡ following w.last (enabled w) }
        ensures enabled { IfSome result (λ key. M.enables self.now.machine key) }
    {
        match self.last {
            Some(key) if self.again && self.machine.may_take(key) => Some(key),
            last => self.machine.following(last),
        }
    }

    // Whether the key whose turn was taken by this entry is known to follow itself: it followed the last one, which is the same, and what
    // is enabled is as it was.
    fn repeats(&self, choice: Choice, key: Key, entry: &Entry) -> bool
        ensures { IsTrue result → (choice ≡ Following) × (self.now.last ≡ Some key) × IsYield entry.now }
    {
        match (choice, self.last) {
            (Choice::Following, Some(last)) => last == key && is_yield(entry),
            _ => false,
        }
    }

    // The key that a turn takes by this choice.
    fn choose(&self, choice: Choice) -> Option<Key>
        requires whole { M.whole self.now.machine }
        ensures chosen { (more : ℕ) (w : World) → IsReached w → M.stands self.now.machine more w
            → w.last ≡ self.now.last → (IsTrue self.now.again → Repeats w) → result ≡ chosen_by choice w (enabled w) }
        ensures enabled { IfSome result (λ key. M.enables self.now.machine key) }
    {
        match choice {
            Choice::Following => self.following(),
            Choice::Item { i } => self.machine.item(i),
        }
    }

    /// Takes a turn, and tells whether it took a key. Room for the entry is taken before the turn.
    pub fn take_turn(&mut self, alloc: Global, choice: Choice) -> Result<bool, AllocError>
        requires whole { M.whole self.old.machine }
        requires calls { HasNumbers M.asked self.old 0 }
        ensures done { IfOk result (TakesTurn M.stands M.did self.old self.new choice) }
        ensures fails { OnErr result (TurnFails M.stands M.did M.starved self.old self.new) }
        ensures history { OnErr result (self.new.history.items ≡ self.old.history.items) }
        ensures left { OnErr result (IsLeft M.whole M.leaves self.old.machine self.new.machine) }
        ensures shown { OnOk result (KeepsShown M.shows self.old self.new) }
        ensures whole { OnOk result (M.whole self.new.machine) }
        // a turn that takes a key is counted
        ensures counted { IfOk result (λ went. IsTrue went → (self.old.turns < 100000) × (self.new.turns ≡ self.old.turns + 1)) }
        ensures asks { OnOk result (SparesNumbers M.asked self.old 0 self.new 0) }
    {
        self.history.reserve(1)?;
        if self.turns >= MOST_TURNS {
            self.history.push_reserved(plain(alloc, Event::Spent));
            return Ok(false);
        }
        match self.choose(choice) {
            Some(key) => {
                let entry = self.machine.take(alloc, key)?;
                self.again = self.repeats(choice, key, &entry);
                self.history.push_reserved(entry);
                self.turns += 1;
                self.last = Some(key);
                Ok(true)
            }
            None => {
                self.history.push_reserved(plain(alloc, Event::Quiet));
                Ok(false)
            }
        }
    }

    /// Takes up to n turns, in the order of keys.
    fn go(&mut self, alloc: Global, n: u32) -> Result<(), AllocError>
        requires whole { M.whole self.old.machine }
        requires calls { HasNumbers M.asked self.old 0 }
        ensures done { OnOk result (1 ≤ n → DoesDue M.stands M.did self.old self.new (turns n)) }
        ensures part { OnErr result (1 ≤ n → PartOfDue M.stands M.did M.starved self.old self.new (turns n)) }
        ensures shown { OnOk result (KeepsShown M.shows self.old self.new) }
        ensures whole { OnOk result (M.whole self.new.machine) }
        ensures shown_part { OnErr result (KeepsShownSoFar M.shows M.whole M.leaves self.old self.new) }
        ensures asks { OnOk result (SparesNumbers M.asked self.old 0 self.new 0) }
    {
        for _ in 0..n {
            if !self.take_turn(alloc, Choice::Following)? {
                return Ok(());
            }
        }
        Ok(())
    }

    /// Takes the turn of the enabled key at a place.
    fn turn(&mut self, alloc: Global, i: u32) -> Result<(), AllocError>
        requires whole { M.whole self.old.machine }
        requires calls { HasNumbers M.asked self.old 0 }
        ensures done { OnOk result (DoesDue M.stands M.did self.old self.new (turn_is i)) }
        ensures part { OnErr result (PartOfDue M.stands M.did M.starved self.old self.new (turn_is i)) }
        ensures shown { OnOk result (KeepsShown M.shows self.old self.new) }
        ensures whole { OnOk result (M.whole self.new.machine) }
        ensures shown_part { OnErr result (KeepsShownSoFar M.shows M.whole M.leaves self.old self.new) }
        ensures asks { OnOk result (SparesNumbers M.asked self.old 0 self.new 0) }
    {
        let _took = self.take_turn(alloc, Choice::Item { i })?;
        Ok(())
    }

    // A command that gives one entry.
    fn command(&mut self, alloc: Global, command: &Command) -> Result<(), AllocError>
        requires single { IsTrue (is_single command.now) }
        requires numbers { NumbersFit 8 command.now }
        requires whole { M.whole self.old.machine }
        requires calls { HasNumbers M.asked self.old 1 }
        ensures done { OnOk result (TakesCommand M.stands M.did self.old self.new command.now) }
        ensures fails { OnErr result (CommandFails M.stands M.did M.starved self.old self.new command.now) }
        ensures history { OnErr result (self.new.history.items ≡ self.old.history.items) }
        ensures left { OnErr result (IsLeft M.whole M.leaves self.old.machine self.new.machine) }
        ensures shown { OnOk result (KeepsShown M.shows self.old self.new) }
        ensures whole { OnOk result (M.whole self.new.machine) }
        ensures asks { OnOk result (SparesNumbers M.asked self.old 1 self.new 0) }
    {
        self.history.reserve(1)?;
        let entry = self.machine.carry_out(alloc, command)?;
        self.again = false;
        self.history.push_reserved(entry);
        Ok(())
    }

    // Any command.
    fn carry_out(&mut self, alloc: Global, command: &Command) -> Result<(), AllocError>
        requires numbers { NumbersFit 8 command.now }
        requires whole { M.whole self.old.machine }
        requires calls { HasNumbers M.asked self.old (entries_of command.now) }
        ensures done { OnOk result (CarriesCommand M.stands M.did self.old self.new command.now) }
        ensures part { OnErr result (PartOfCommand M.stands M.did M.starved self.old self.new command.now) }
        ensures shown { OnOk result (KeepsShown M.shows self.old self.new) }
        ensures whole { OnOk result (M.whole self.new.machine) }
        ensures shown_part { OnErr result (KeepsShownSoFar M.shows M.whole M.leaves self.old self.new) }
        ensures asks { OnOk result (SparesNumbers M.asked self.old (entries_of command.now) self.new 0) }
    {
        if is_single(command) {
            return self.command(alloc, command);
        }
        match command {
            Command::Go { n } => self.go(alloc, *n),
            Command::Turn { i } => self.turn(alloc, *i),
            Command::Walk { name, target, path } => self.walk(alloc, name, target, path),
            _ => unreachable!(),
        }
    }

    /// Boots the nodes and carries all commands out. There are eight nodes at most.
    pub fn carry_all(
        &mut self,
        alloc: Global,
        nodes: u8,
        commands: &[Command],
    ) -> Result<(), AllocError>
        requires few { nodes ≤ 8 }
        requires numbers { All (NumbersFit 8) commands.now }
        requires whole { M.whole self.old.machine }
        requires calls { HasNumbers M.asked self.old (nodes + entries_in commands.now) }
        ensures done { OnOk result (CarriesAll M.stands M.did self.old self.new nodes commands.now) }
        ensures part { OnErr result (CarriesPart M.stands M.did M.starved self.old self.new nodes commands.now) }
        ensures shown { OnOk result (KeepsShown M.shows self.old self.new) }
        ensures whole { OnOk result (M.whole self.new.machine) }
        ensures shown_part { OnErr result (KeepsShownSoFar M.shows M.whole M.leaves self.old self.new) }
    {
        for node in 0..nodes {
            let restart = Command::Restart { node: node + 1 };
            let booted = self.command(alloc, &restart);
            drop(restart);
            booted?;
        }
        for command in commands {
            self.carry_out(alloc, command)?;
        }
        Ok(())
    }
}
