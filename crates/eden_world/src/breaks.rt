//! Calls break as a node goes down or a link is cut: the processes that waited for them are told.
ghost use Rattle.std.specs.Prelude.{◌≡◌, ◌≤◌, IfOk, IsTrue, OnOk, Some, is_some};
ghost use Rattle.passive_store.specs.Seen.{disk_seen};
ghost use Rattle.ejects.specs.Counts.{AsksNone};
ghost use Rattle.scheduled_node.specs.declared.ScheduledNode.{ScheduledNode as Manned};
ghost use Rattle.eden_world.specs.Breaking.{waiter_at, name_by, TellsAt, KeepsAgendas, TellsBy, TellsAll, Loses, Leaves};
ghost use Rattle.eden_world.specs.Breaking.{FallsAndTells, CutsAndTells};
ghost use Rattle.eden_world.specs.InHand.{in_hand};
ghost use Rattle.eden_world.specs.Seated.{FitsTogether, IsSeated, station_at};
ghost use Rattle.eden_world.specs.Told.{SameDisks};

use crate::{Seat, World};
use capability::{CallNumbers, Uid};
use eden_disk::ImageMode;
use eden_model::Asker;
use eden_value::Txt;
use invocation::Calls;
use journal::Names;
use passive_store::Store;
use std::alloc::{AllocError, Global};

// Who waited for a call.
#[derive(Drop)]
enum Waiter {
    Shell { name: Txt },
    Process { uid: Uid, process: u8 },
    Nobody,
}

// Who waited for a call of this number.
fn who_waits(calls: &Calls, number: u32) -> Result<Waiter, AllocError>
    ensures { IfOk result (λ found. found ≡ waiter_at calls.now number) }
{
    match calls.call(number) {
        Some(call) => match &call.asker {
            Asker::Shell { name } => Ok(Waiter::Shell {
                name: name.share()?,
            }),
            Asker::Eject { uid, process } => Ok(Waiter::Process {
                uid: *uid,
                process: *process,
            }),
        },
        None => Ok(Waiter::Nobody),
    }
}

// The name under which the shell asked a call, if it did.
pub(crate) fn name_of_call(calls: &Calls, number: u32) -> Result<Option<Txt>, AllocError>
    ensures { IfOk result (λ found. found ≡ name_by (waiter_at calls.now number)) }
{
    match who_waits(calls, number)? {
        Waiter::Shell { name } => Ok(Some(name)),
        Waiter::Process { .. } | Waiter::Nobody => Ok(None),
    }
}

// Whether the shell asked the call of this number.
pub(crate) fn is_named(calls: &Calls, number: u32) -> bool
    ensures { result ≡ is_some (name_by (waiter_at calls.now number)) }
{
    match calls.call(number) {
        Some(call) => match &call.asker {
            Asker::Shell { .. } => true,
            Asker::Eject { .. } => false,
        },
        None => false,
    }
}

impl<St: Store + Drop> World<St>
where
    St::Device: Drop,
{
    // A process that waited is told, if its node is up.
    fn tell(&mut self, alloc: Global, uid: Uid, process: u8) -> Result<(), AllocError>
        requires whole { FitsTogether St.seen self.old }
        ensures whole { OnOk result (FitsTogether St.seen self.new) }
        ensures seated { IsSeated self.new }
        ensures disks { let look = disk_seen St.Device.counts St.Device.told St.Device.due in
            SameDisks (in_hand St.seen look self.old) (in_hand St.seen look self.new) }
        ensures told { let look = disk_seen St.Device.counts St.Device.told St.Device.due in IsTrue St.Device.tells
            → OnOk result (TellsAt St.layout uid process (in_hand St.seen look self.old) (in_hand St.seen look self.new)
            ((in_hand St.seen look self.old).seats uid.node)) }
        ensures agendas { IsTrue St.Device.tells → OnOk result (KeepsAgendas St.layout St.seen uid process self.old self.new) }
        ensures calls { self.new.calls ≡ self.old.calls }
    {
        if self.station(uid.node).is_none() {
            return Ok(());
        }
        match self.unseat(uid.node) {
            Seat::Up { mut station } => {
                let told = station.broken(alloc, uid, process);
                self.set_seat(uid.node, Seat::Up { station });
                told
            }
            _ => unreachable!(),
        }
    }

    // Whoever waited for the call of a number is told: the name of one of the shell joins the names.
    fn tell_next(
        &mut self,
        alloc: Global,
        number: u32,
        names: &mut Vec<Txt>,
    ) -> Result<(), AllocError>
        requires whole { FitsTogether St.seen self.old }
        ensures whole { OnOk result (FitsTogether St.seen self.new) }
        ensures seated { IsSeated self.new }
        ensures disks { let look = disk_seen St.Device.counts St.Device.told St.Device.due in
            SameDisks (in_hand St.seen look self.old) (in_hand St.seen look self.new) }
        ensures told { IsTrue St.Device.tells → OnOk result (TellsBy St.layout St.seen
            (disk_seen St.Device.counts St.Device.told St.Device.due) (waiter_at self.old.calls number) names.old.items names.new.items
            self.old self.new) }
        ensures calls { self.new.calls ≡ self.old.calls }
    {
        match who_waits(&self.calls, number)? {
            Waiter::Shell { name } => match names.push(name) {
                Ok(()) => Ok(()),
                Err(_) => Err(AllocError),
            },
            Waiter::Process { uid, process } => self.tell(alloc, uid, process),
            Waiter::Nobody => Ok(()),
        }
    }

    // Whoever waited for these calls is told. The names of those of the shell, in their order.
    fn tell_all(&mut self, alloc: Global, broken: &CallNumbers) -> Result<Names, AllocError>
        requires whole { FitsTogether St.seen self.old }
        ensures whole { OnOk result (FitsTogether St.seen self.new) }
        ensures seated { IsSeated self.new }
        ensures disks { let look = disk_seen St.Device.counts St.Device.told St.Device.due in
            SameDisks (in_hand St.seen look self.old) (in_hand St.seen look self.new) }
        ensures told { IsTrue St.Device.tells → IfOk result (λ names. TellsAll St.layout St.seen
            (disk_seen St.Device.counts St.Device.told St.Device.due) broken.now names self.old self.new) }
        ensures calls { self.new.calls ≡ self.old.calls }
    {
        let mut names = Vec::new(alloc);
        for number in broken.as_slice() {
            self.tell_next(alloc, *number, &mut names)?;
        }
        Ok(Names { items: names })
    }

    // A node is down from now on, whose disk stands at its place already: its calls break.
    pub(crate) fn lose(&mut self, alloc: Global, number: u8) -> Result<Names, AllocError>
        requires first { 1 ≤ number }
        requires last { number ≤ 8 }
        requires whole { FitsTogether St.seen self.old }
        ensures whole { OnOk result (FitsTogether St.seen self.new) }
        ensures seated { IsSeated self.new }
        ensures disks { let look = disk_seen St.Device.counts St.Device.told St.Device.due in
            SameDisks (in_hand St.seen look self.old) (in_hand St.seen look self.new) }
        ensures told { IsTrue St.Device.tells → IfOk result (λ names. Loses St.layout St.seen
            (disk_seen St.Device.counts St.Device.told St.Device.due) number names self.old self.new) }
        ensures asks { OnOk result (AsksNone self.old.calls self.new.calls) }
    {
        self.places.set_up(number, false);
        let broken = self.calls.break_node(alloc, number)?;
        self.tell_all(alloc, &broken)
    }

    // The node at a place goes down, and its calls break.
    pub(crate) fn fall(
        &mut self,
        alloc: Global,
        number: u8,
        mode: Option<ImageMode>,
    ) -> Result<Names, AllocError>
        requires first { 1 ≤ number }
        requires last { number ≤ 8 }
        requires whole { FitsTogether St.seen self.old }
        ensures whole { OnOk result (FitsTogether St.seen self.new) }
        ensures seated { IsSeated self.new }
        ensures leaves { (s : Manned _ _) → station_at self.old number ≡ Some s → Leaves St.Device.tells St.Device.obeys St.layout St.seen
            (disk_seen St.Device.counts St.Device.told St.Device.due) mode number s self.old self.new }
        ensures falls { IsTrue St.Device.tells → IfOk result (λ names. (s : Manned _ _) → station_at self.old number ≡ Some s
            → FallsAndTells St.Device.tells St.Device.obeys St.layout St.seen (disk_seen St.Device.counts St.Device.told St.Device.due)
            mode number s names self.old self.new) }
        ensures asks { OnOk result (AsksNone self.old.calls self.new.calls) }
    {
        self.vacate(number, mode);
        self.lose(alloc, number)
    }

    // A link is cut, and its calls break.
    pub(crate) fn cut(&mut self, alloc: Global, a: u8, b: u8) -> Result<Names, AllocError>
        requires from { a ≤ 8 }
        requires to { b ≤ 8 }
        requires whole { FitsTogether St.seen self.old }
        ensures whole { OnOk result (FitsTogether St.seen self.new) }
        ensures seated { IsSeated self.new }
        ensures disks { let look = disk_seen St.Device.counts St.Device.told St.Device.due in
            SameDisks (in_hand St.seen look self.old) (in_hand St.seen look self.new) }
        ensures cuts { IsTrue St.Device.tells → IfOk result (λ names. CutsAndTells St.layout St.seen
            (disk_seen St.Device.counts St.Device.told St.Device.due) a b names self.old self.new) }
        ensures asks { OnOk result (AsksNone self.old.calls self.new.calls) }
    {
        self.places.set_link(a, b, false);
        let broken = self.calls.break_link(alloc, a, b)?;
        self.tell_all(alloc, &broken)
    }
}
