//! A job over the two disks of a node.
ghost use Rattle.std.specs.Prelude.{◌≡◌, ◌≤◌, IsTrue, IfOk, OnOk, length};
ghost use Rattle.passive_store.specs.Seen.{disk_seen};
ghost use Rattle.twin_store.specs.Twins.{twin_seen, IsTwinReady};

use crate::{Job, UID};
use capability::Uid;
use eden_disk::Disk;
use passive_store::Store;
use std::alloc::Global;
use twin_store::{TwinRefusal, TwinStore};

// Puts the same bytes so many times.
fn put_all<St: Store>(
    alloc: Global,
    twin: &mut TwinStore<St>,
    body: &[u8],
    number: u32,
) -> Result<(), TwinRefusal>
    requires ready { IsTwinReady (twin_seen St.seen (disk_seen St.Device.counts St.Device.told St.Device.due) twin.old) }
    requires node { twin.old.node ≡ 1 }
    requires limit { length body.now ≤ 262144 }
{
    for _ in 0..number {
        twin.put(alloc, UID, body)?;
    }
    Ok(())
}

// Puts them under so many uids.
fn fill<St: Store>(
    alloc: Global,
    twin: &mut TwinStore<St>,
    body: &[u8],
    number: u32,
) -> Result<(), TwinRefusal>
    requires ready { IsTwinReady (twin_seen St.seen (disk_seen St.Device.counts St.Device.told St.Device.due) twin.old) }
    requires node { twin.old.node ≡ 1 }
    requires limit { length body.now ≤ 262144 }
{
    for at in 0..number {
        let uid = Uid {
            node: 1,
            epoch: 1,
            serial: at + 1,
        };
        twin.put(alloc, uid, body)?;
    }
    Ok(())
}

// Closes it, and gives both disks power.
fn closed<St: Store>(twin: TwinStore<St>) -> (St::Device, St::Device)
    ensures first { IsTrue (St.Device.counts result.0).power }
    ensures second { IsTrue (St.Device.counts result.1).power }
{
    let (mut first, mut second) = twin.close();
    first.restart();
    second.restart();
    (first, second)
}

// Two disks on which the job's values are kept.
fn filled<St: Store + Drop>(
    alloc: Global,
    first: St::Device,
    second: St::Device,
    job: &Job,
) -> Result<(St::Device, St::Device), TwinRefusal>
where
    St::Device: Drop,
    requires first { IsTrue (St.Device.counts first).power }
    requires second { IsTrue (St.Device.counts second).power }
    requires limit { length job.now.body.items ≤ 262144 }
    ensures first { IfOk result (λ d. IsTrue (St.Device.counts d.0).power) }
    ensures second { IfOk result (λ d. IsTrue (St.Device.counts d.1).power) }
{
    if job.values == 0 {
        return Ok((first, second));
    }
    match TwinStore::<St>::open_twin(alloc, first, second, 1) {
        Ok(mut twin) => {
            fill(alloc, &mut twin, &job.body, job.values)?;
            Ok(closed(twin))
        }
        Err((_, _, refusal)) => Err(refusal),
    }
}

// Opens two disks so many times, and gives them back.
fn open_all<St: Store>(
    alloc: Global,
    first: St::Device,
    second: St::Device,
    number: u32,
) -> Result<(St::Device, St::Device), TwinRefusal>
where
    St::Device: Drop,
    requires first { IsTrue (St.Device.counts first).power }
    requires second { IsTrue (St.Device.counts second).power }
    ensures first { IfOk result (λ d. IsTrue (St.Device.counts d.0).power) }
    ensures second { IfOk result (λ d. IsTrue (St.Device.counts d.1).power) }
{
    let mut pair = (first, second);
    for _ in 0..number {
        match TwinStore::<St>::open_twin(alloc, pair.0, pair.1, 1) {
            Ok(twin) => pair = closed(twin),
            Err((_, _, refusal)) => return Err(refusal),
        }
    }
    Ok(pair)
}

/// Does a job over two disks.
pub(crate) fn carry_out<St: Store + Drop>(
    alloc: Global,
    first: St::Device,
    second: St::Device,
    job: &Job,
) -> Result<(), TwinRefusal>
where
    St::Device: Drop,
    requires first { IsTrue (St.Device.counts first).power }
    requires second { IsTrue (St.Device.counts second).power }
    requires limit { length job.now.body.items ≤ 262144 }
{
    let (first, second) = filled::<St>(alloc, first, second, job)?;
    let (first, second) = open_all::<St>(alloc, first, second, job.openings)?;
    match TwinStore::<St>::open_twin(alloc, first, second, 1) {
        Ok(mut twin) => put_all(alloc, &mut twin, &job.body, job.puts),
        Err((_, _, refusal)) => Err(refusal),
    }
}
