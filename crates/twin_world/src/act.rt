//! A command is carried out at the place of its node.
ghost use Rattle.std.specs.Prelude.{◌≡◌};
ghost use Rattle.std.specs.Option.{option_map};
ghost use Rattle.passive_store.specs.Seen.{disk_seen};
ghost use Rattle.twin_world.specs.Commands.{node_of, is_second as is_second_disk, IsInReach};
ghost use Rattle.twin_world.specs.Places.{standing, disks_at, IsSound, Acts, IsNoText, given_by};
ghost use Rattle.twin_world.specs.View.{meant};

use crate::answer::{Answer, Done};
use crate::blank::blank_place;
use crate::commands::TwinCommand;
use crate::place::{
    Place, arm_place, close_place, delete_place, get_place, open_place, plain, put_place,
};
use eden_disk::Arm;
use passive_store::Store;
use std::alloc::{AllocError, Global};
use std::mem;

/// Whether a disk is the second one of its node.
fn is_second(disk: u8) -> bool
    ensures { result ≡ is_second_disk disk }
{
    disk % 2 == 0
}

/// The node of a command.
pub fn node(command: &TwinCommand) -> u8
    ensures { result ≡ node_of (meant command.now) }
{
    match command {
        TwinCommand::Open { n } => *n,
        TwinCommand::Put { n, .. } => *n,
        TwinCommand::Get { n, .. } => *n,
        TwinCommand::Delete { n, .. } => *n,
        TwinCommand::Close { n } => *n,
        TwinCommand::Blank { disk } => disk.div_ceil(2),
        TwinCommand::Fail { disk, .. } => disk.div_ceil(2),
        TwinCommand::Stop { disk, .. } => disk.div_ceil(2),
    }
}

/// Carries out a command that is none of texts.
fn act_other<St: Store>(
    alloc: Global,
    n: u8,
    place: Place<St>,
    command: &TwinCommand,
) -> (Place<St>, Result<Done, AllocError>)
    requires reach { IsInReach (meant command.now) }
    requires node { n ≡ node_of (meant command.now) }
    requires other { IsNoText (meant command.now) }
    ensures { let look = disk_seen St.Device.counts St.Device.told St.Device.due in
        Acts St.Device.tells St.layout n (meant command.now) result.1 (standing St.seen look place) (standing St.seen look result.0) }
{
    match command {
        TwinCommand::Open { .. } => open_place(alloc, n, place),
        TwinCommand::Close { .. } => {
            let (place, done) = close_place(place);
            (place, Ok(done))
        }
        TwinCommand::Blank { disk } => blank_place(alloc, place, is_second(*disk)),
        TwinCommand::Fail { disk, after } => {
            let what = Arm::Fail { after: *after };
            let place = arm_place(place, is_second(*disk), what);
            (place, Ok(plain(Answer::Made)))
        }
        TwinCommand::Stop { disk, after, mode } => {
            let what = Arm::Stop {
                after: *after,
                mode: *mode,
            };
            let place = arm_place(place, is_second(*disk), what);
            (place, Ok(plain(Answer::Made)))
        }
        _ => unreachable!(),
    }
}

/// Carries out a command.
fn act<St: Store>(
    alloc: Global,
    n: u8,
    place: Place<St>,
    command: &TwinCommand,
) -> (Place<St>, Result<Done, AllocError>)
    requires sound { IsSound n (standing St.seen (disk_seen St.Device.counts St.Device.told St.Device.due) place) }
    requires reach { IsInReach (meant command.now) }
    requires node { n ≡ node_of (meant command.now) }
    ensures { let look = disk_seen St.Device.counts St.Device.told St.Device.due in
        Acts St.Device.tells St.layout n (meant command.now) result.1 (standing St.seen look place) (standing St.seen look result.0) }
{
    match command {
        TwinCommand::Put { serial, text, .. } => {
            put_place(alloc, n, place, *serial, text.as_slice())
        }
        TwinCommand::Get { serial, .. } => get_place(alloc, n, place, *serial),
        TwinCommand::Delete { serial, .. } => delete_place(alloc, n, place, *serial),
        other => act_other(alloc, n, place, other),
    }
}

/// The disks of a place.
pub fn disks_in<St: Store>(place: Place<St>) -> Option<(St::Device, St::Device)>
    ensures { let look = disk_seen St.Device.counts St.Device.told St.Device.due in
        given_by (option_map (λ p. (look p.0, look p.1)) result) ≡ disks_at (standing St.seen look place) }
{
    match place {
        Place::Open { twin } => Some(twin.close()),
        Place::Rest { first, second } => Some((first, second)),
        Place::Away => None,
    }
}

/// Carries out a command at the place of its node.
pub fn act_at<St: Store>(
    alloc: Global,
    n: u8,
    place: &mut Place<St>,
    command: &TwinCommand,
) -> Result<Done, AllocError>
where
    St::Device: Drop,
    requires sound { IsSound n (standing St.seen (disk_seen St.Device.counts St.Device.told St.Device.due) place.old) }
    requires reach { IsInReach (meant command.now) }
    requires node { n ≡ node_of (meant command.now) }
    ensures { let look = disk_seen St.Device.counts St.Device.told St.Device.due in
        Acts St.Device.tells St.layout n (meant command.now) result (standing St.seen look place.old) (standing St.seen look place.new) }
{
    let old = mem::replace(place, Place::Away);
    let (new, done) = act(alloc, n, old, command);
    // Nothing stands there meanwhile.
    let _ = disks_in(mem::replace(place, new));
    done
}
