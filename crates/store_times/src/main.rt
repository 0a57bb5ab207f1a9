//! A job over one store in memory, or over the two disks of a node, so that its time can be measured from outside:
//! `store_times LAYOUT JOB NUMBER`.
//!
//! LAYOUT is `log` over a disk of 1,048,576 bytes, `blocks` over one of 4,194,304, or `twins` over two of these. JOB is `format`: so many
//! blank disks, or pairs of them, are opened; `open`: one that has its layout is opened so many times; `filled`: the same, where 1,000
//! values of 18 bytes are kept; `small`: 18 bytes are put under one uid so many times; or `large`: so many times 262,144 bytes are put on a
//! blank disk. The status is 0, or 1 where the store refuses or there are other words.
#![tactic(auto)]

mod twins;

ghost use Rattle.std.specs.Prelude.{◌≡◌, ◌≤◌, IsTrue, IfOk, IfSome, length};
ghost use Rattle.passive_store.specs.Kept.{Idle};

use capability::{BODY_LIMIT, Uid};
use eden_disk::{Disk, SimDisk};
use passive_blocks::BlockStore;
use passive_store::{LogStore, Store, StoreRefusal};
use std::alloc::{AllocError, Global};
use std::env;
use std::process::ExitCode;
use twin_store::TwinRefusal;

const LOG_SIZE: u32 = 1_048_576;

const BLOCKS_SIZE: u32 = 4_194_304;

// The Eject under whose uid all is put, but for what fills a disk.
pub(crate) const UID: Uid = Uid {
    node: 1,
    epoch: 1,
    serial: 1,
};

// The representation of a Cell takes so many bytes.
const SMALL: u32 = 18;

// So many values are kept on a disk that is filled.
const MANY: u32 = 1000;

// What is to be done over a store: these bytes are put under so many uids, the disk is opened so often, and they are put under one uid so
// often.
#[derive(Drop)]
pub(crate) struct Job {
    pub(crate) values: u32,
    pub(crate) openings: u32,
    pub(crate) puts: u32,
    pub(crate) body: Vec<u8>,
}

// Puts the same bytes so many times.
fn put_all<St: Store>(
    alloc: Global,
    store: &mut St,
    body: &[u8],
    number: u32,
) -> Result<(), StoreRefusal>
    requires power { IsTrue (St.seen store.old).disk.counts.power }
    requires idle { (St.seen store.old).work ≡ Idle }
    requires node { (St.seen store.old).node ≡ 1 }
    requires limit { length body.now ≤ 262144 }
{
    for _ in 0..number {
        store.put(alloc, UID, body)?;
    }
    Ok(())
}

// Puts the same bytes under so many uids.
fn fill<St: Store>(
    alloc: Global,
    store: &mut St,
    body: &[u8],
    number: u32,
) -> Result<(), StoreRefusal>
    requires power { IsTrue (St.seen store.old).disk.counts.power }
    requires idle { (St.seen store.old).work ≡ Idle }
    requires node { (St.seen store.old).node ≡ 1 }
    requires limit { length body.now ≤ 262144 }
{
    for at in 0..number {
        let uid = Uid {
            node: 1,
            epoch: 1,
            serial: at + 1,
        };
        store.put(alloc, uid, body)?;
    }
    Ok(())
}

// A disk on which the job's values are kept.
fn filled<St: Store + Drop>(
    alloc: Global,
    disk: St::Device,
    job: &Job,
) -> Result<St::Device, StoreRefusal>
where
    St::Device: Drop,
    requires power { IsTrue (St.Device.counts disk).power }
    requires limit { length job.now.body.items ≤ 262144 }
    ensures power { IfOk result (λ d. IsTrue (St.Device.counts d).power) }
{
    if job.values == 0 {
        return Ok(disk);
    }
    match St::open_disk(alloc, disk, 1) {
        Ok(mut store) => {
            fill(alloc, &mut store, &job.body, job.values)?;
            let mut disk = store.close();
            disk.restart();
            Ok(disk)
        }
        Err((_, refusal)) => Err(refusal),
    }
}

// Opens a disk so many times, and gives it back.
fn open_all<St: Store>(
    alloc: Global,
    disk: St::Device,
    number: u32,
) -> Result<St::Device, StoreRefusal>
where
    St::Device: Drop,
    requires power { IsTrue (St.Device.counts disk).power }
    ensures power { IfOk result (λ d. IsTrue (St.Device.counts d).power) }
{
    let mut disk = disk;
    for _ in 0..number {
        match St::open_disk(alloc, disk, 1) {
            Ok(store) => disk = store.close(),
            Err((_, refusal)) => return Err(refusal),
        }
    }
    Ok(disk)
}

// Does a job over a disk.
fn carry_out<St: Store + Drop>(
    alloc: Global,
    disk: St::Device,
    job: &Job,
) -> Result<(), StoreRefusal>
where
    St::Device: Drop,
    requires power { IsTrue (St.Device.counts disk).power }
    requires limit { length job.now.body.items ≤ 262144 }
{
    let disk = filled::<St>(alloc, disk, job)?;
    let disk = open_all::<St>(alloc, disk, job.openings)?;
    match St::open_disk(alloc, disk, 1) {
        Ok(mut store) => put_all(alloc, &mut store, &job.body, job.puts),
        Err((_, refusal)) => Err(refusal),
    }
}

// Does a job over a blank disk with a log.
fn over_log(alloc: Global, job: &Job) -> Result<(), StoreRefusal>
    requires { length job.now.body.items ≤ 262144 }
{
    carry_out::<LogStore<SimDisk>>(alloc, SimDisk::new(alloc, LOG_SIZE)?, job)
}

// Does it over one with blocks.
fn over_blocks(alloc: Global, job: &Job) -> Result<(), StoreRefusal>
    requires { length job.now.body.items ≤ 262144 }
{
    carry_out::<BlockStore<SimDisk>>(alloc, SimDisk::new(alloc, BLOCKS_SIZE)?, job)
}

// Does it over two blank disks with blocks.
fn over_twins(alloc: Global, job: &Job) -> Result<(), TwinRefusal>
    requires { length job.now.body.items ≤ 262144 }
{
    let Ok(first) = SimDisk::new(alloc, BLOCKS_SIZE) else {
        return Err(TwinRefusal::OutOfMemory);
    };
    let Ok(second) = SimDisk::new(alloc, BLOCKS_SIZE) else {
        return Err(TwinRefusal::OutOfMemory);
    };
    twins::carry_out::<BlockStore<SimDisk>>(alloc, first, second, job)
}

// Whether a job was done over blank disks of this layout.
fn is_done_over(alloc: Global, layout: &str, job: &Job) -> bool
    requires { length job.now.body.items ≤ 262144 }
{
    if layout == "log" {
        over_log(alloc, job).is_ok()
    } else if layout == "twins" {
        over_twins(alloc, job).is_ok()
    } else {
        over_blocks(alloc, job).is_ok()
    }
}

// The job of this name, and over how many blank disks it is done.
fn job_named(alloc: Global, name: &str, number: u32) -> Result<(u32, Job), AllocError>
    ensures { IfOk result (λ it. length it.1.body.items ≤ 262144) }
{
    let (disks, values, openings, puts, size) = if name == "format" {
        (number, 0, 0, 0, 0)
    } else if name == "open" {
        (1, 0, number, 0, 0)
    } else if name == "filled" {
        (1, MANY, number, 0, SMALL)
    } else if name == "small" {
        (1, 0, 0, number, SMALL)
    } else {
        (number, 0, 0, 1, BODY_LIMIT)
    };
    Ok((
        disks,
        Job {
            values,
            openings,
            puts,
            body: vec![in alloc; 7u8; size as usize]?,
        },
    ))
}

// Does what the words ask for, and tells whether all was done.
fn run(alloc: Global, layout: &str, name: &str, number: u32) -> bool {
    let Ok((disks, job)) = job_named(alloc, name, number) else {
        return false;
    };
    for _ in 0..disks {
        if !is_done_over(alloc, layout, &job) {
            return false;
        }
    }
    true
}

// The words of the command line, without the program's own name.
fn words(rt: &HostRuntime) -> Result<Vec<String>, AllocError> {
    let mut words = Vec::new(rt.alloc());
    if let Ok(args) = env::args(rt) {
        for word in args.skip(1) {
            words.push(word)?;
        }
    }
    Ok(words)
}

fn main(rt: HostRuntime) -> ExitCode {
    let Ok(words) = words(&rt) else {
        return ExitCode::FAILURE;
    };
    let [layout, name, number] = words.as_slice() else {
        return ExitCode::FAILURE;
    };
    let Ok(number) = number.as_str().parse::<u32>() else {
        return ExitCode::FAILURE;
    };
    if run(rt.alloc(), layout.as_str(), name.as_str(), number) {
        ExitCode::SUCCESS
    } else {
        ExitCode::FAILURE
    }
}
