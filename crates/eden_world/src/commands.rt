//! The commands of a script that give one entry.
ghost use Rattle.std.specs.Prelude.{◌≡◌, ◌≤◌, ◌∷◌, ◌++◌, [], IfOk, IfErr, IsTrue, OnOk, OnErr, is_some, ◌<◌, suc};
ghost use Rattle.eden_model.specs.Traffic.{Traffic, is_open, names_of};
ghost use Rattle.invocation.specs.Carries.{Carries};
ghost use Rattle.eden_disk.specs.Calls.{calls_until};
ghost use Rattle.passive_store.specs.Seen.{disk_seen};
ghost use Rattle.journal.specs.declared.command.Command.TheVariants as commands;
ghost use Rattle.journal.specs.Fit.{NumbersFit};
ghost use Rattle.runs.specs.Room.{is_single, most_calls};
ghost use Rattle.ejects.specs.Counts.{AsksOneAtMost};
ghost use Rattle.eden_kernel.specs.Stands.{held, IsWhole};
ghost use Rattle.scheduled_node.specs.declared.ScheduledNode.{ScheduledNode};
ghost use Rattle.eden_world.specs.Arming.{ArmsSeat};
ghost use Rattle.eden_world.specs.Carried.{CarriesBy, EndsStill, Starves, arms_by};
ghost use Rattle.eden_world.specs.Seated.{EachShows, FitsTogether, KeepsDisks, asked_in, heeds, station_at};
ghost use Rattle.eden_world.specs.Unanswered.{open_names};
ghost use Rattle.eden_world.specs.declared.seats.Seat.TheVariants as place;

use crate::entries::{entry, entry_of_none};
use crate::{Seat, World};
use eden_disk::{Arm, Disk, ImageMode};
use eden_model::Asker;
use eden_value::Txt;
use invocation::Call;
use journal::{Command, Entry, Event, Names};
use passive_store::Store;
use scheduled_node::ScheduledNode;
use std::alloc::{AllocError, Global};

// What stands at a place, once this is asked of its disk.
fn armed<St: Store + Drop>(seat: Seat<St>, what: Arm) -> Seat<St>
where
    St::Device: Drop,
    requires calls { 1 ≤ calls_until what }
    requires whole { (s : ScheduledNode _ _) → seat ≡ place.Up s → IsWhole (held St.seen s.node) }
    ensures { ArmsSeat St.Device.tells St.Device.obeys St.layout St.seen (disk_seen St.Device.counts St.Device.told St.Device.due)
        what seat result }
{
    match seat {
        Seat::Up { mut station } => {
            station.arm(what);
            Seat::Up { station }
        }
        Seat::Down { mut disk, doubt } => {
            disk.arm(what);
            Seat::Down { disk, doubt }
        }
        Seat::Moving => Seat::Moving,
    }
}

// The name under which the shell asked a call joins the names, if the call is still open.
fn list_if_open(call: &Call, names: &mut Vec<Txt>) -> Result<(), AllocError>
    ensures { IfOk result (λ _. names.new.items ≡ names.old.items ++ open_names (call.now ∷ [])) }
{
    if call.closed {
        return Ok(());
    }
    match &call.asker {
        Asker::Shell { name } => {
            names.push(name.share()?)?;
            Ok(())
        }
        Asker::Eject { .. } => Ok(()),
    }
}

impl<St: Store + Drop> World<St>
where
    St::Device: Drop,
{
    // A node crashes, unless it is down.
    fn crash(&mut self, alloc: Global, node: u8, mode: ImageMode) -> Result<Entry, AllocError>
        requires { FitsTogether St.seen self.old }
        ensures whole { OnOk result (FitsTogether St.seen self.new) }
        ensures carried { let look = disk_seen St.Device.counts St.Device.told St.Device.due in
            IfOk result (CarriesBy St.Device.tells St.layout St.seen look self.old self.new (commands.Crash node mode)) }
        ensures starved { let look = disk_seen St.Device.counts St.Device.told St.Device.due in
            IfErr result (λ _. Starves St.Device.tells St.layout St.seen look self.old self.new (commands.Crash node mode)) }
        ensures shows { let look = disk_seen St.Device.counts St.Device.told St.Device.due in
            IfOk result (λ e. EachShows (heeds St.Device.tells St.Device.obeys) St.seen look self.old e self.new) }
        ensures leaves { let look = disk_seen St.Device.counts St.Device.told St.Device.due in
            OnErr result (KeepsDisks (heeds St.Device.tells St.Device.obeys) St.seen look self.old self.new) }
        ensures asks { OnOk result (AsksOneAtMost self.old.calls self.new.calls) }
    {
        if !self.is_up(node) {
            return Ok(entry_of_none(alloc, Event::Still { node, up: false }));
        }
        let broken = self.fall(alloc, node, Some(mode))?;
        let clock = self.clock_at(node);
        Ok(Entry {
            event: Event::Crash { node },
            node,
            clock,
            broken,
        })
    }

    // A link is cut, and its calls break.
    fn cut_link(&mut self, alloc: Global, a: u8, b: u8) -> Result<Entry, AllocError>
        requires whole { FitsTogether St.seen self.old }
        requires from { a ≤ 8 }
        requires to { b ≤ 8 }
        ensures whole { OnOk result (FitsTogether St.seen self.new) }
        ensures carried { let look = disk_seen St.Device.counts St.Device.told St.Device.due in
            IfOk result (CarriesBy St.Device.tells St.layout St.seen look self.old self.new (commands.Cut a b)) }
        ensures starved { let look = disk_seen St.Device.counts St.Device.told St.Device.due in
            IfErr result (λ _. Starves St.Device.tells St.layout St.seen look self.old self.new (commands.Cut a b)) }
        ensures shows { let look = disk_seen St.Device.counts St.Device.told St.Device.due in
            IfOk result (λ e. EachShows (heeds St.Device.tells St.Device.obeys) St.seen look self.old e self.new) }
        ensures leaves { let look = disk_seen St.Device.counts St.Device.told St.Device.due in
            OnErr result (KeepsDisks (heeds St.Device.tells St.Device.obeys) St.seen look self.old self.new) }
        ensures asks { OnOk result (AsksOneAtMost self.old.calls self.new.calls) }
    {
        let broken = self.cut(alloc, a, b)?;
        Ok(Entry {
            event: Event::Link {
                a,
                b,
                joined: false,
            },
            node: 0,
            clock: 0,
            broken,
        })
    }

    // A link is joined again.
    fn join(&mut self, alloc: Global, a: u8, b: u8) -> Result<Entry, AllocError>
        requires whole { FitsTogether St.seen self.old }
        requires from { a ≤ 8 }
        requires to { b ≤ 8 }
        ensures whole { OnOk result (FitsTogether St.seen self.new) }
        ensures carried { let look = disk_seen St.Device.counts St.Device.told St.Device.due in
            IfOk result (CarriesBy St.Device.tells St.layout St.seen look self.old self.new (commands.Join a b)) }
        ensures starved { let look = disk_seen St.Device.counts St.Device.told St.Device.due in
            IfErr result (λ _. EndsStill St.Device.tells St.layout St.seen look self.old self.new) }
        ensures shows { let look = disk_seen St.Device.counts St.Device.told St.Device.due in
            IfOk result (λ e. EachShows (heeds St.Device.tells St.Device.obeys) St.seen look self.old e self.new) }
        ensures leaves { let look = disk_seen St.Device.counts St.Device.told St.Device.due in
            OnErr result (KeepsDisks (heeds St.Device.tells St.Device.obeys) St.seen look self.old self.new) }
        ensures asks { OnOk result (AsksOneAtMost self.old.calls self.new.calls) }
    {
        self.places.set_link(a, b, true);
        let event = Event::Link { a, b, joined: true };
        Ok(entry_of_none(alloc, event))
    }

    // A failure or a stop is asked of the disk of a node, for a device call to come.
    fn arm(&mut self, alloc: Global, node: u8, what: Arm) -> Result<Entry, AllocError>
        requires whole { FitsTogether St.seen self.old }
        requires calls { 1 ≤ calls_until what }
        ensures whole { OnOk result (FitsTogether St.seen self.new) }
        ensures carried { let look = disk_seen St.Device.counts St.Device.told St.Device.due in
            IfOk result (CarriesBy St.Device.tells St.layout St.seen look self.old self.new (arms_by what node)) }
        ensures starved { let look = disk_seen St.Device.counts St.Device.told St.Device.due in
            IfErr result (λ _. EndsStill St.Device.tells St.layout St.seen look self.old self.new) }
        ensures shows { let look = disk_seen St.Device.counts St.Device.told St.Device.due in
            IfOk result (λ e. EachShows (heeds St.Device.tells St.Device.obeys) St.seen look self.old e self.new) }
        ensures leaves { let look = disk_seen St.Device.counts St.Device.told St.Device.due in
            OnErr result (KeepsDisks (heeds St.Device.tells St.Device.obeys) St.seen look self.old self.new) }
        ensures asks { OnOk result (AsksOneAtMost self.old.calls self.new.calls) }
    {
        let seat = armed(self.unseat(node), what);
        self.set_seat(node, seat);
        let clock = self.clock_at(node);
        Ok(entry(alloc, Event::Armed { node, what }, node, clock))
    }

    // The names of the shell's calls that are still open, by number.
    fn open_names(&self, alloc: Global) -> Result<Names, AllocError>
        ensures { IfOk result (λ names. (t : Traffic) → Carries self.now.calls t → names ≡ names_of is_open t) }
    {
        let mut names = Vec::new(alloc);
        let calls = self.calls.all();
        for asked in calls {
            list_if_open(asked, &mut names)?;
        }
        Ok(Names { items: names })
    }

    // The script ends: the calls that are still open are left.
    fn end(&self, alloc: Global) -> Result<Entry, AllocError>
        requires { FitsTogether St.seen self.now }
        ensures carried { let look = disk_seen St.Device.counts St.Device.told St.Device.due in
            IfOk result (CarriesBy St.Device.tells St.layout St.seen look self.now self.now commands.End) }
        ensures starved { let look = disk_seen St.Device.counts St.Device.told St.Device.due in
            IfErr result (λ _. EndsStill St.Device.tells St.layout St.seen look self.now self.now) }
        ensures shows { let look = disk_seen St.Device.counts St.Device.told St.Device.due in
            IfOk result (λ e. EachShows (heeds St.Device.tells St.Device.obeys) St.seen look self.now e self.now) }
    {
        let names = self.open_names(alloc)?;
        Ok(entry_of_none(alloc, Event::Left { names }))
    }

    /// A command that gives one entry.
    pub fn carry(&mut self, alloc: Global, command: &Command) -> Result<Entry, AllocError>
        requires whole { FitsTogether St.seen self.old }
        requires single { IsTrue (is_single command.now) }
        requires numbers { NumbersFit 8 command.now }
        requires calls { asked_in self.old < most_calls }
        ensures whole { OnOk result (FitsTogether St.seen self.new) }
        ensures carried { let look = disk_seen St.Device.counts St.Device.told St.Device.due in
            IfOk result (CarriesBy St.Device.tells St.layout St.seen look self.old self.new command.now) }
        ensures starved { let look = disk_seen St.Device.counts St.Device.told St.Device.due in
            IfErr result (λ _. Starves St.Device.tells St.layout St.seen look self.old self.new command.now) }
        ensures shows { let look = disk_seen St.Device.counts St.Device.told St.Device.due in
            IfOk result (λ e. EachShows (heeds St.Device.tells St.Device.obeys) St.seen look self.old e self.new) }
        ensures leaves { let look = disk_seen St.Device.counts St.Device.told St.Device.due in
            OnErr result (KeepsDisks (heeds St.Device.tells St.Device.obeys) St.seen look self.old self.new) }
        ensures asks { OnOk result (asked_in self.new ≤ suc (asked_in self.old)) }
    {
        match command {
            Command::Create {
                name,
                node,
                type_name,
            } => self.create(alloc, name, *node, type_name),
            Command::Hold { name, uid } => self.hold(alloc, name, *uid),
            Command::Call {
                name,
                target,
                operation,
                args,
            } => self.call(alloc, name, target, operation, args),
            Command::Restrict { name, target, mask } => {
                self.restrict(alloc, name, target, *mask)
            }
            Command::Crash { node, mode } => self.crash(alloc, *node, *mode),
            Command::Restart { node } => self.restart(alloc, *node),
            Command::Cut { a, b } => self.cut_link(alloc, *a, *b),
            Command::Join { a, b } => self.join(alloc, *a, *b),
            Command::Fail { node, after } => self.arm(alloc, *node, Arm::Fail { after: *after }),
            Command::Stop { node, after, mode } => {
                let what = Arm::Stop {
                    after: *after,
                    mode: *mode,
                };
                self.arm(alloc, *node, what)
            }
            Command::End => self.end(alloc),
            Command::Go { .. } | Command::Turn { .. } | Command::Walk { .. } => unreachable!(),
        }
    }
}
