//! A script is carried out over eight disks, of which those that no node of it has are left alone.
ghost use Rattle.std.specs.Prelude.{◌≡◌, ◌≤◌, ◌+◌, ◌++◌, [], length, map, IsTrue, IfOk, OnErr};
ghost use Rattle.std.specs.Vec.{vec_capacity};
ghost use Rattle.passive_store.specs.Layout.{IsLayout};
ghost use Rattle.passive_store.specs.Seen.{disk_seen};
ghost use Rattle.checkpoint.specs.Touches.{ReadsByCalls};
ghost use Rattle.journal.specs.Fit.{IsFit};
ghost use Rattle.runs.specs.Room.{entries_in};
ghost use Rattle.eden_world.specs.Legal.{AreSized, disk_runs};
ghost use Rattle.shell_answers.specs.Answers.{IsCarriedOut};

use eden_disk::Disk;
use eden_world::World;
use journal::{History, Script};
use passive_store::Store;
use runs::{Run, a_run_may_begin};
use shell_answers::Carried;
use std::alloc::{AllocError, Global};
use std::mem;

// How often each disk found no memory. The size of a disk that tells is that of what it tells.
fn wants_of<D: Disk>(alloc: Global, disks: &[D]) -> Result<Vec<u64>, AllocError>
    ensures wants { IfOk result (λ wants. wants.items ≡ map (λ d. (D.counts d).wants) disks.now) }
    ensures sized { IfOk result (λ wants. IsTrue D.tells → AreSized (disk_seen D.counts D.told D.due) disks.now) }
{
    let mut wants = Vec::new(alloc);
    for disk in disks {
        let _size = disk.size();
        wants.push(disk.wants())?;
    }
    Ok(wants)
}

// Whether no disk found no memory since then.
fn have_wanted_none<D: Disk>(wants: &[u64], disks: &[D]) -> bool
    requires { length wants.now ≡ length disks.now }
    ensures { IsTrue result → map (λ d. (D.counts d).wants) disks.now ≡ wants.now }
{
    for at in 0..wants.len() {
        if disks[at].wants() != wants[at] {
            return false;
        }
    }
    true
}

// The same over the disks of its nodes alone.
fn carry_over<St: Store + Drop>(
    alloc: Global,
    script: Script,
    disks: &mut Vec<St::Device>,
) -> Result<Carried, AllocError>
where
    St::Device: Drop,
    requires as_many { length disks.old.items ≡ script.nodes }
    requires layout { IsLayout St.layout }
    requires reads { ReadsByCalls St.layout }
    requires fit { IsFit script }
    requires few { script.nodes + entries_in script.commands ≤ 1048576 }
    ensures carried { IfOk result (λ c. IsCarriedOut
        (record {
          layout = St.layout;
          tells = St.Device.tells;
          runs = disk_runs St.Device.obeys (disk_seen St.Device.counts St.Device.told St.Device.due) disks.old.items disks.new.items;
        })
        script c.history c.whole) }
    ensures untouched { OnErr result (disks.new.items ≡ disks.old.items) }
    ensures as_many { length disks.new.items ≡ length disks.old.items }
{
    a_run_may_begin();
    let wants = wants_of(alloc, disks)?;
    let mut room = Vec::new(alloc);
    room.reserve(8)?;
    let Script {
        types,
        nodes,
        commands,
    } = script;
    let world = match World::<St>::new(alloc, types, mem::replace(disks, Vec::new(alloc))) {
        Ok(world) => world,
        Err((back, e)) => {
            *disks = back;
            return Err(e);
        }
    };
    let mut run = Run::new(alloc, world);
    let ended = run
        .carry_all(alloc, nodes, commands.commands.as_slice())
        .is_ok();
    let (world, history) = run.into_parts();
    *disks = world.close(room);
    Ok(Carried {
        history: History { entries: history },
        whole: ended && have_wanted_none(&wants, disks),
    })
}

// The disks of both, put into a vector that has room for them.
fn joined<D: Drop>(room: Vec<D>, first: &mut Vec<D>, others: &mut Vec<D>) -> Vec<D>
    requires empty { room.items ≡ [] }
    requires room { length first.old.items + length others.old.items ≤ vec_capacity room }
    ensures { result.items ≡ first.old.items ++ others.old.items }
{
    let mut disks = room;
    match disks.append(first) {
        Ok(()) => {}
        Err(_) => unreachable!(),
    }
    match disks.append(others) {
        Ok(()) => {}
        Err(_) => unreachable!(),
    }
    disks
}

/// Carries a script out over the disks of its nodes, which are the first of these, and puts all back in their order. The others are not
/// touched. Where it is refused nothing was begun.
pub fn carry_script<St: Store + Drop>(
    alloc: Global,
    script: Script,
    disks: &mut Vec<St::Device>,
) -> Result<Carried, AllocError>
where
    St::Device: Drop,
    requires eight { length disks.old.items ≡ 8 }
    requires layout { IsLayout St.layout }
    requires reads { ReadsByCalls St.layout }
    requires fit { IsFit script }
    requires few { script.nodes + entries_in script.commands ≤ 1048576 }
    ensures carried { IfOk result (λ c. IsCarriedOut
        (record {
          layout = St.layout;
          tells = St.Device.tells;
          runs = disk_runs St.Device.obeys (disk_seen St.Device.counts St.Device.told St.Device.due) disks.old.items disks.new.items;
        })
        script c.history c.whole) }
    ensures untouched { OnErr result (disks.new.items ≡ disks.old.items) }
    ensures eight { length disks.new.items ≡ 8 }
{
    let room = Vec::with_capacity(alloc, 8)?;
    let mut others = disks.split_off(usize::from(script.nodes))?;
    let carried = carry_over::<St>(alloc, script, disks);
    *disks = joined(room, disks, &mut others);
    carried
}
