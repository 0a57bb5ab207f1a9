//! A disk is overwritten with zeros.
ghost use Rattle.std.specs.Prelude.{◌≡◌, ◌≤◌, ℕ, Bool, IsTrue, IfOk, OnOk, length, replicate};
ghost use Rattle.eden_disk.specs.Calls.{end_of, faults_after, stops_after};
ghost use Rattle.eden_disk.specs.Told.{contents, at_rest, overlay};
ghost use Rattle.passive_store.specs.Seen.{disk_seen};
ghost use Rattle.twin_world.specs.Commands.{is_second};
ghost use Rattle.twin_world.specs.Commands as command;
ghost use Rattle.twin_world.specs.Places.{Resting, standing, Acts, IsZeroed, IsBlankedOnce, IsStoppedOnce, blanked_as, is_failed};
ghost use Rattle.twin_world.specs.View.{answer_of};

use crate::answer::{Answer, Done};
use crate::place::{Place, plain, rest};
use eden_disk::{Disk, DiskRefusal};
use passive_store::Store;
use std::alloc::{AllocError, Global};

/// So many zeros.
fn zeros(alloc: Global, size: u32) -> Result<Vec<u8>, AllocError>
    ensures { IfOk result (λ bytes. bytes.items ≡ replicate size 0) }
{
    let mut bytes = Vec::new(alloc);
    bytes.resize(size as usize, 0)?;
    Ok(bytes)
}

/// Overwrites a disk. Where the write fails, no sync is made.
fn overwrite<D: Disk>(disk: &mut D, bytes: &[u8]) -> Result<(), DiskRefusal>
    requires power { IsTrue (D.counts disk.old).power }
    requires whole { length bytes.now ≤ (D.counts disk.old).size }
    ensures faults { (D.counts disk.new).faults ≡ faults_after (end_of result) (D.counts disk.old).faults }
    ensures stops { (D.counts disk.new).stops ≡ stops_after (end_of result) (D.counts disk.old).stops }
    ensures told { IsTrue D.tells → OnOk result (contents (D.told disk.new)
        ≡ at_rest (overlay 0 bytes.now (contents (D.told disk.old)).now)) }
{
    disk.write(0, bytes)?;
    disk.sync()
}

/// Gives a disk power, and overwrites it with zeros.
fn blank<D: Disk>(alloc: Global, disk: D) -> (D, Result<Result<(), DiskRefusal>, AllocError>)
    ensures faults { IsBlankedOnce result.1 (D.counts disk).faults (D.counts result.0).faults }
    ensures stops { IsStoppedOnce result.1 (D.counts disk).stops (D.counts result.0).stops }
    ensures zeroed { let look = disk_seen D.counts D.told D.due in IfOk result.1 (λ how. OnOk how (IsZeroed D.tells (look result.0))) }
{
    let mut disk = disk;
    disk.restart();
    let size = disk.size();
    match zeros(alloc, size) {
        Ok(bytes) => {
            let how = overwrite(&mut disk, &bytes);
            (disk, Ok(how))
        }
        Err(e) => (disk, Err(e)),
    }
}

/// What a blanking is answered, and whether the disk failed.
fn blanking(how: Result<(), DiskRefusal>) -> (Answer, bool)
    ensures answer { answer_of result.0 ≡ blanked_as how }
    ensures marked { result.1 ≡ is_failed how }
{
    match how {
        Ok(()) => (Answer::Made, false),
        Err(DiskRefusal::Failed) => (Answer::CutShort { stopped: false }, true),
        Err(DiskRefusal::Stopped) => (Answer::CutShort { stopped: true }, false),
    }
}

/// Overwrites the first disk of a pair that is closed.
fn blank_first<St: Store>(
    alloc: Global,
    first: St::Device,
    second: St::Device,
) -> (Place<St>, Result<Done, AllocError>)
    ensures { let look = disk_seen St.Device.counts St.Device.told St.Device.due in (n d : ℕ) → is_second d ≡ Bool.false
        → Acts St.Device.tells St.layout n (command.blanks d) result.1 (Resting (look first) (look second))
        (standing St.seen look result.0) }
{
    let (first, how) = blank(alloc, first);
    match how {
        Ok(how) => {
            let stopped = how == Err(DiskRefusal::Stopped);
            let (answer, first_failed) = blanking(how);
            (
                rest(first, second, stopped),
                Ok(Done {
                    answer,
                    first_failed,
                    second_failed: false,
                }),
            )
        }
        Err(e) => (Place::Rest { first, second }, Err(e)),
    }
}

/// Overwrites the second disk of a pair that is closed.
fn blank_second<St: Store>(
    alloc: Global,
    first: St::Device,
    second: St::Device,
) -> (Place<St>, Result<Done, AllocError>)
    ensures { let look = disk_seen St.Device.counts St.Device.told St.Device.due in (n d : ℕ) → is_second d ≡ Bool.true
        → Acts St.Device.tells St.layout n (command.blanks d) result.1 (Resting (look first) (look second))
        (standing St.seen look result.0) }
{
    let (second, how) = blank(alloc, second);
    match how {
        Ok(how) => {
            let stopped = how == Err(DiskRefusal::Stopped);
            let (answer, second_failed) = blanking(how);
            (
                rest(first, second, stopped),
                Ok(Done {
                    answer,
                    first_failed: false,
                    second_failed,
                }),
            )
        }
        Err(e) => (Place::Rest { first, second }, Err(e)),
    }
}

/// Overwrites a disk of a node that is closed.
pub fn blank_place<St: Store>(
    alloc: Global,
    place: Place<St>,
    second_one: bool,
) -> (Place<St>, Result<Done, AllocError>)
    ensures { let look = disk_seen St.Device.counts St.Device.told St.Device.due in (n d : ℕ) → is_second d ≡ second_one
        → Acts St.Device.tells St.layout n (command.blanks d) result.1 (standing St.seen look place) (standing St.seen look result.0) }
{
    match place {
        Place::Rest { first, second } => {
            if second_one {
                blank_second(alloc, first, second)
            } else {
                blank_first(alloc, first, second)
            }
        }
        other => (other, Ok(plain(Answer::WrongState))),
    }
}
