//! What takes turns and carries commands out.
ghost use Rattle.std.specs.Prelude.{◌≡◌, ◌<◌, ◌≤◌, ℕ, suc, IfOk, IfErr, OnOk, OnErr, IfSome, IsTrue};
ghost use Rattle.std.specs.List.{Contains};
ghost use Rattle.eden_value.specs.Limits.{IsText};
ghost use Rattle.journal.specs.World.{World};
ghost use Rattle.journal.specs.declared.event.Entry.{Entry};
ghost use Rattle.journal.specs.declared.event.Key.{Key};
ghost use Rattle.journal.specs.Enabled.{enabled, following, item};
ghost use Rattle.journal.specs.Fit.{NumbersFit};
ghost use Rattle.journal.specs.References.{cap_at};
ghost use Rattle.journal.specs.Run.{Step, is_found, next_directory, is_open_call};
ghost use Rattle.runs.specs.Reached.{IsReached, IsFitIn, IsNamed};
ghost use Rattle.runs.specs.Machines.{TakesKey, CarriesOut, LooksUp};
ghost use Rattle.runs.specs.Room.{is_single, most_calls};

use capability::Cap;
use eden_value::Txt;
use journal::{Command, Entry, Key, Ref};
use std::alloc::{AllocError, Global};

/// What takes turns and carries commands out, for every world for which it stands that a history may have reached.
pub trait Machine {
    /// Its own condition, whatever world it stands for: its parts fit together. Each call asks for it, and keeps it where it answers `Ok`.
    /// Behind an `Err` nothing is said of it, since the run ends there.
    ghost whole: { Self → Type 0 };

    /// The worlds for which it stands, with room for so many more entries.
    ghost stands: { Self → ℕ → World → Type 0 };

    /// What a step did to it besides, from one state to the next.
    ghost did: { Self → Step → Self → Type 0 };

    /// What was begun of a step in this world that want of memory ended, with room for so many more entries behind it: there is no entry.
    ghost starved: { Self → ℕ → World → Self → Type 0 };

    /// What an entry shows of it, for whatever world it stands or for none.
    ghost shows: { Self → Entry → Self → Type 0 };

    /// What a call that found no memory leaves of it, for whatever world it stood or for none.
    ghost leaves: { Self → Self → Type 0 };

    /// It has the turn of this key, whatever world it stands for.
    ghost enables: { Self → Key → Type 0 };

    /// How many calls were asked so far, whatever world it stands for. A step asks one at most.
    ghost asked: { Self → ℕ };

    /// How many calls were asked so far.
    fn calls_asked(&self) -> usize
        ensures { result ≡ asked self.now };

    /// The least enabled key past the last one, or the least of all.
    fn following(&self, last: Option<Key>) -> Option<Key>
        requires whole { whole self.now }
        ensures follows { (more : ℕ) (w : World) → IsReached w → stands self.now more w → result ≡ following last (enabled w) }
        ensures enabled { IfSome result (λ key. enables self.now key) };

    /// Whether it has the turn of a key.
    fn may_take(&self, key: Key) -> bool
        requires whole { whole self.now }
        ensures { IsTrue result → enables self.now key };

    /// The enabled key at this place, counted round.
    fn item(&self, i: u32) -> Option<Key>
        requires whole { whole self.now }
        ensures chosen { (more : ℕ) (w : World) → IsReached w → stands self.now more w → result ≡ item i (enabled w) }
        ensures enabled { IfSome result (λ key. enables self.now key) };

    /// The turn of an enabled key.
    fn take(&mut self, alloc: Global, key: Key) -> Result<Entry, AllocError>
        requires whole { whole self.old }
        requires enabled { enables self.old key }
        requires calls { asked self.old < most_calls }
        ensures taken { IfOk result (λ e. (more : ℕ) (w : World) → IsReached w → stands self.old (suc more) w
            → Contains (enabled w) key → TakesKey stands did self.old self.new more w key e) }
        ensures starved { IfErr result (λ e. (more : ℕ) (w : World) → IsReached w → stands self.old (suc more) w
            → Contains (enabled w) key → starved self.old more w self.new) }
        ensures shows { IfOk result (λ e. shows self.old e self.new) }
        ensures leaves { OnErr result (leaves self.old self.new) }
        ensures whole { OnOk result (whole self.new) }
        ensures asks { OnOk result (asked self.new ≤ suc (asked self.old)) };

    /// A command that gives one entry, where it is fit. It names none but the eight nodes.
    fn carry_out(&mut self, alloc: Global, command: &Command) -> Result<Entry, AllocError>
        requires single { IsTrue (is_single command.now) }
        requires numbers { NumbersFit 8 command.now }
        requires whole { whole self.old }
        requires calls { asked self.old < most_calls }
        ensures carried { IfOk result (λ e. (more : ℕ) (w : World) → IsReached w → stands self.old (suc more) w
            → IsFitIn w command.now → CarriesOut stands did self.old self.new more w command.now e) }
        ensures starved { IfErr result (λ e. (more : ℕ) (w : World) → IsReached w → stands self.old (suc more) w
            → IsFitIn w command.now → starved self.old more w self.new) }
        ensures shows { IfOk result (λ e. shows self.old e self.new) }
        ensures leaves { OnErr result (leaves self.old self.new) }
        ensures whole { OnOk result (whole self.new) }
        ensures asks { OnOk result (asked self.new ≤ suc (asked self.old)) };

    /// The call of a walk under this name: this directory, if it is one, is asked for this component.
    fn look_up(
        &mut self,
        alloc: Global,
        name: &Txt,
        directory: Option<Cap>,
        component: &Txt,
    ) -> Result<Entry, AllocError>
        requires whole { whole self.old }
        requires calls { asked self.old < most_calls }
        ensures looked { IfOk result (λ e. (more : ℕ) (w : World) → IsReached w → stands self.old (suc more) w
            → IfSome directory (IsNamed w) → IsText component.now
            → LooksUp stands did self.old self.new more w name.now directory component.now e) }
        ensures starved { IfErr result (λ e. (more : ℕ) (w : World) → IsReached w → stands self.old (suc more) w
            → IfSome directory (IsNamed w) → IsText component.now → starved self.old more w self.new) }
        ensures shows { IfOk result (λ e. shows self.old e self.new) }
        ensures leaves { OnErr result (leaves self.old self.new) }
        ensures whole { OnOk result (whole self.new) }
        ensures asks { OnOk result (asked self.new ≤ suc (asked self.old)) };

    /// The capability for which a name stands, or one of its results.
    fn capability(&self, by: &Ref) -> Option<Cap>
        requires whole { whole self.now }
        ensures { (more : ℕ) (w : World) → IsReached w → stands self.now more w → result ≡ cap_at w by.now };

    /// Whether the last call of a walk found what it looked up.
    fn found(&self, name: &Txt) -> bool
        requires whole { whole self.now }
        ensures { (more : ℕ) (w : World) → IsReached w → stands self.now more w → result ≡ is_found w name.now };

    /// The directory that the last call of a walk found.
    fn next_directory(&self, name: &Txt) -> Option<Cap>
        requires whole { whole self.now }
        ensures { (more : ℕ) (w : World) → IsReached w → stands self.now more w → result ≡ next_directory w name.now };

    /// Whether a call is open.
    fn is_open(&self, call: u32) -> bool
        requires whole { whole self.now }
        ensures { (more : ℕ) (w : World) → IsReached w → stands self.now more w → result ≡ is_open_call w call };
}
