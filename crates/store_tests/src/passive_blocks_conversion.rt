ghost use Rattle.std.specs.Prelude.{◌≡◌, ◌<◌, ◌^◌, IsTrue};

use crate::changes::{EPOCH, FIRST, SECOND, THIRD, look, refusal_of_blocks};
use crate::disks::{Bytes, Harm, are_bytes, arm, cut_power, disk_with, make_bytes};
use capability::Uid;
use eden_disk::{Disk, DiskRefusal, ImageMode, SimDisk};
use passive_blocks::BlockStore;
use passive_store::StoreRefusal;
use std::alloc::Global;
use std::process::Abort;

/// The size of a disk on which a log is converted, and that of its log.
const WIDE: usize = 4_194_304;

const NARROW: usize = 1_048_576;

/// The device calls of the conversion of `CHANGES`: sync and read; seven of the walk; of three values a read each, and
/// five writes of blocks; 128 writes of staged heads and three calls; 128 reads, 128 writes and three calls.
const CONVERSION: u32 = 407;

/// The device calls of reading it once it is converted: all heads, and five blocks.
const READING: u64 = 4101;

/// The device call that makes the byte stable which says that the heads are staged: behind 2 and 7 of the look and the walk, 8
/// of the copies, 128 writes, a sync and the write of the byte.
const STAGING: u32 = 148;

/// A uid, a kind and a body.
type Record = (Uid, u8, Bytes);

/// A log that keeps the epoch, 3,000 bytes and 1,022 bytes, and has removed one byte.
const CHANGES: &[Record] = &[
    (EPOCH, 1, (&[0, 0, 0, 1], 1)),
    (SECOND, 1, (&[7], 1)),
    (FIRST, 1, (&[1, 2, 3], 1)),
    (THIRD, 1, (&[8], 1022)),
    (SECOND, 2, (&[], 0)),
    (FIRST, 1, (&[9], 3000)),
];

/// What it keeps.
const KEPT: &[(Uid, Option<Bytes>)] = &[
    (EPOCH, Some((&[0, 0, 0, 1], 1))),
    (FIRST, Some((&[9], 3000))),
    (SECOND, None),
    (THIRD, Some((&[8], 1022))),
];

const LONE: &[Record] = &[(EPOCH, 1, (&[0, 0, 0, 1], 1))];

/// A log whose second record has no kind.
const DAMAGED: &[Record] = &[(EPOCH, 1, (&[0, 0, 0, 1], 1)), (FIRST, 3, (&[5], 1))];

/// A log of four values of 262,000 bytes, which ends 516 bytes before its end, and one more, up to the last byte but one.
const LONG: &[Record] = &[
    (EPOCH, 1, (&[0, 0, 0, 1], 1)),
    (FIRST, 1, (&[6], 262_000)),
    (SECOND, 1, (&[6], 262_000)),
    (FIRST, 1, (&[6], 262_000)),
    (SECOND, 1, (&[6], 262_000)),
    (THIRD, 1, (&[7], 465)),
];

/// The same up to the last byte.
const FULL: &[Record] = &[
    (EPOCH, 1, (&[0, 0, 0, 1], 1)),
    (FIRST, 1, (&[6], 262_000)),
    (SECOND, 1, (&[6], 262_000)),
    (FIRST, 1, (&[6], 262_000)),
    (SECOND, 1, (&[6], 262_000)),
    (THIRD, 1, (&[7], 466)),
];

/// Records, and how many values of one byte stand behind them, each of which takes a block; the length of the log, and the
/// size of its disk; how the conversion is refused, and its device calls.
type Log = (
    &'static [Record],
    u32,
    usize,
    usize,
    Option<StoreRefusal>,
    u64,
);

const LOGS: &[Log] = &[
    (CHANGES, 0, 4136, WIDE, None, 407 + READING),
    // as many blocks as find room: 2,945 reads of the walk; 2,944 values of a read and a write; 4,096 heads and 2,944 blocks
    (
        LONE,
        2943,
        47_123,
        WIDE,
        None,
        2 + 2945 + 2 * 2944 + 131 + 259 + 4096 + 2944,
    ),
    // one block too many
    (LONE, 2944, 47_139, WIDE, Some(StoreRefusal::Full), 2 + 2946),
    (
        DAMAGED,
        0,
        51,
        WIDE,
        Some(StoreRefusal::Damaged { place: 35 }),
        4,
    ),
    // a disk of another size
    (
        CHANGES,
        0,
        4136,
        NARROW,
        Some(StoreRefusal::Damaged { place: 0 }),
        2,
    ),
    // one byte is left: 257 blocks for each of two values, and one for two more
    (
        LONG,
        0,
        NARROW - 1,
        WIDE,
        None,
        2 + 7 + 4 + 516 + 131 + 259 + 4096 + 516,
    ),
    // the last record ends with the log
    (
        FULL,
        0,
        NARROW,
        WIDE,
        Some(StoreRefusal::Damaged { place: 1_048_095 }),
        2 + 6,
    ),
];

/// Adds a record to a log.
fn add_record(rt: &impl Abort, alloc: Global, log: &mut Vec<u8>, uid: Uid, kind: u8, body: Bytes) {
    let body = make_bytes(rt, alloc, body);
    let n = (body.len() as u64).to_be_bytes();
    let e = uid.epoch.to_be_bytes();
    let s = uid.serial.to_be_bytes();
    let head = [
        0xE1, n[4], n[5], n[6], n[7], uid.node, e[0], e[1], e[2], e[3], s[0], s[1], s[2], s[3],
        kind,
    ];
    log.extend_from_slice(&head).expect(rt, "memory");
    log.extend_from_slice(&body).expect(rt, "memory");
}

/// A log of these records, and of so many values of one byte behind them.
fn make_log(rt: &impl Abort, alloc: Global, records: &[Record], values: u32) -> Vec<u8> {
    let mut log = make_bytes(
        rt,
        alloc,
        (&[0xED, 0, 0, 0, 0, 0, 0, 0, 0, 0, 0, 0, 0, 0, 0, 0], 1),
    );
    for &(uid, kind, body) in records {
        add_record(rt, alloc, &mut log, uid, kind, body);
    }
    for number in 0..values {
        let uid = Uid {
            node: 1,
            epoch: 1,
            serial: number + 1,
        };
        add_record(rt, alloc, &mut log, uid, 1, (&[5], 1));
    }
    log
}

/// A disk of this size that begins with these bytes, and has zeros behind them.
fn disk_of(rt: &impl Abort, alloc: Global, bytes: &[u8], size: usize) -> Box<SimDisk>
    requires { size < 2 ^ 32 }
    ensures { IsTrue result.value.counts.power }
{
    let mut image = vec![in alloc; 0u8; size].expect(rt, "memory");
    let count = bytes.len().min(size);
    image[..count].copy_from_slice(&bytes[..count]);
    disk_with(rt, alloc, image)
}

/// Whether a disk is opened or refused so, with so many device calls, and changes where it is not refused.
fn is_opened_so(
    rt: &impl Abort,
    alloc: Global,
    disk: Box<SimDisk>,
    wanted: Option<StoreRefusal>,
    calls: u64,
) -> bool
    requires { IsTrue disk.value.counts.power }
{
    let before = disk.image(alloc).expect(rt, "memory");
    let (disk, refusal) = refusal_of_blocks(rt, alloc, disk);
    let after = disk.image(alloc).expect(rt, "memory");
    let is_changed = after != before;
    refusal == wanted && disk.clock() == calls && is_changed == refusal.is_none()
}

/// Whether a log becomes blocks or is refused, as its row says.
fn is_converted(
    rt: &impl Abort,
    alloc: Global,
    &(records, values, length, size, wanted, calls): &Log,
) -> bool {
    let log = make_log(rt, alloc, records, values);
    let disk = disk_of(rt, alloc, &log, size.min(WIDE));
    let is_opened = is_opened_so(rt, alloc, disk, wanted, calls);
    log.len() == length && is_opened
}

#[test]
fn logs_become_blocks_or_are_refused(rt: HostRuntime) {
    for (row, log) in LOGS.iter().enumerate() {
        assert!(rt; is_converted(&rt, rt.alloc(), log), "log {row}");
    }
}

/// Bytes from a place on.
type Stood = (usize, Bytes);

/// The heads of what `CHANGES` keeps.
const HEADS: &[Stood] = &[
    (
        0,
        (
            &[
                0xE1, 1, 1, 0, 0, 0, 0, 0, 0, 0, 0, 0, 0, 0, 0, 0, 0, 0, 1, 0, 0, 0, 4, 4, 0, 0, 0,
                0, 0, 0, 0, 0,
            ],
            1,
        ),
    ),
    (
        32,
        (
            &[
                0xE1, 1, 1, 0, 0, 0, 1, 0, 0, 0, 1, 0, 0, 0, 0, 0, 0, 0, 2, 0, 0, 0x0B, 0xB8, 4, 1,
                0, 0, 0, 0, 0, 0, 0,
            ],
            1,
        ),
    ),
    (
        64,
        (
            &[
                0xE1, 1, 1, 0, 0, 0, 1, 0, 0, 0, 3, 0, 0, 0, 0, 0, 0, 0, 3, 0, 0, 3, 0xFE, 4, 4, 0,
                0, 0, 0, 0, 0, 0,
            ],
            1,
        ),
    ),
    (96, (&[0], 1024)),
];

/// The gates of the disk, and the bodies of what `CHANGES` keeps on the blocks from 1,024 on, each with the number of the
/// next one.
const BODIES: &[Stood] = &[
    (0, (&[0xED, 0xEB, 0xEA, 0], 1)),
    (1_048_576, (&[0, 0, 0, 0, 0, 1], 1)),
    (1_049_600, (&[4, 2], 1)),
    (1_049_602, (&[9], 1022)),
    (1_050_624, (&[4, 3], 1)),
    (1_050_626, (&[9], 1022)),
    (1_051_648, (&[0, 0], 1)),
    (1_051_650, (&[9], 956)),
    (1_052_672, (&[0, 0], 1)),
    (1_052_674, (&[8], 1022)),
    (1_053_696, (&[0], 1024)),
];

/// Whether all these bytes stand on an image, counted from a place on.
fn all_stand(image: &[u8], from: usize, all: &[Stood]) -> bool {
    for &(place, bytes) in all {
        let place = place.saturating_add(from);
        let count = bytes.0.len().saturating_mul(bytes.1);
        match image.get(place..place.saturating_add(count)) {
            Some(found) if are_bytes(found, bytes) => {}
            _ => return false,
        }
    }
    true
}

/// Whether an image is that of the blocks that `CHANGES` become.
fn is_image(image: &[u8]) -> bool {
    let has_heads = all_stand(image, 1024, HEADS) && all_stand(image, 4_063_232, HEADS);
    has_heads && image.len() == WIDE && all_stand(image, 0, BODIES)
}

/// Restarts a disk, and answers it, and whether it keeps what `CHANGES` does.
fn restart_and_look(
    rt: &impl Abort,
    alloc: Global,
    mut disk: Box<SimDisk>,
) -> (Box<SimDisk>, bool) {
    disk.restart();
    look::<BlockStore<SimDisk>>(rt, alloc, disk, KEPT)
}

/// Whether a disk that is restarted keeps what `CHANGES` does.
fn keeps_changes(rt: &impl Abort, alloc: Global, disk: Box<SimDisk>) -> bool {
    let (_, is_kept) = restart_and_look(rt, alloc, disk);
    is_kept
}

#[test]
fn the_bytes_of_a_log_that_became_blocks(rt: HostRuntime) {
    let alloc = rt.alloc();
    let log = make_log(&rt, alloc, CHANGES, 0);
    let disk = disk_of(&rt, alloc, &log, WIDE);
    let (disk, _) = refusal_of_blocks(&rt, alloc, disk);
    let image = disk.image(alloc).expect(&rt, "memory");
    assert!(rt; is_image(&image));
    assert!(rt; keeps_changes(&rt, alloc, disk));
}

/// What befalls a first opening, and how it is refused; and the device calls of a second one. Behind a whole conversion that
/// converts nothing, and behind a stop once the heads are staged they are moved without the log.
type Opening = (Harm, u32, Option<StoreRefusal>, u64);

const OPENINGS: &[Opening] = &[
    (Harm::Cut, 1, None, 2 + READING),
    (
        Harm::Stop,
        STAGING + 1,
        Some(StoreRefusal::Stopped),
        2 + 259 + READING,
    ),
];

/// Whether a disk that is restarted is opened with so many device calls, and keeps what `CHANGES` does.
fn is_opened_again(rt: &impl Abort, alloc: Global, mut disk: Box<SimDisk>, calls: u64) -> bool {
    disk.restart();
    let wanted = disk.clock().saturating_add(calls);
    let (disk, refusal) = refusal_of_blocks(rt, alloc, disk);
    let is_opened = refusal.is_none() && disk.clock() == wanted;
    keeps_changes(rt, alloc, disk) && is_opened
}

/// Whether the openings of a disk with this log go as their row says.
fn are_openings(
    rt: &impl Abort,
    alloc: Global,
    log: &[u8],
    &(harm, after, wanted, calls): &Opening,
) -> bool {
    let mut disk = disk_of(rt, alloc, log, WIDE);
    arm(&mut disk, harm, after, ImageMode::Lose);
    let (disk, refusal) = refusal_of_blocks(rt, alloc, disk);
    is_opened_again(rt, alloc, disk, calls) && refusal == wanted
}

#[test]
fn second_openings(rt: HostRuntime) {
    let log = make_log(&rt, rt.alloc(), CHANGES, 0);
    for (row, opening) in OPENINGS.iter().enumerate() {
        assert!(rt;
            are_openings(&rt, rt.alloc(), &log, opening),
            "opening {row}"
        );
    }
}

/// Gives a disk power, and writes bytes that find room on it.
fn write_at<D: Disk>(disk: &mut D, place: u32, bytes: &[u8]) -> Result<(), DiskRefusal> {
    disk.restart();
    if bytes.len().saturating_add(place as usize) > disk.size() as usize {
        return Err(DiskRefusal::Failed);
    }
    disk.write(place, bytes)
}

/// Writes a log over all that its conversion has changed on a disk.
fn write_log<D: Disk>(rt: &impl Abort, disk: &mut D, log: &[u8]) {
    let zeros = [0; 131_072];
    for &place in &[1024, 1_048_576, 4_063_232] {
        write_at(disk, place, &zeros).expect(rt, "the zeros are written");
    }
    write_at(disk, 0, log).expect(rt, "the log is written");
    disk.restart();
    disk.sync().expect(rt, "the log is synced");
}

/// Opens a disk with a log on it that a harm befalls in a device call, and again once it is restarted. It answers whether the
/// first opening is refused so and the second keeps what `CHANGES` does.
fn harm_and_look(
    rt: &impl Abort,
    alloc: Global,
    mut disk: Box<SimDisk>,
    harm: Harm,
    after: u32,
    mode: ImageMode,
) -> (Box<SimDisk>, bool) {
    disk.restart();
    arm(&mut disk, harm, after, mode);
    let (mut disk, refusal) = refusal_of_blocks(rt, alloc, disk);
    cut_power(&mut disk, harm, mode);
    let (disk, is_kept) = restart_and_look(rt, alloc, disk);
    let wanted = match harm {
        Harm::Stop => Some(StoreRefusal::Stopped),
        Harm::Fail => Some(StoreRefusal::Failed),
        Harm::Cut => None,
    };
    (disk, is_kept && refusal == wanted)
}

/// Asserts that what `CHANGES` keeps outlives a harm in each device call of its conversion.
fn outlives_all(rt: &impl Abort, alloc: Global, harm: Harm, mode: ImageMode) {
    let log = make_log(rt, alloc, CHANGES, 0);
    let mut disk = disk_of(rt, alloc, &log, WIDE);
    for after in 1..=CONVERSION {
        let (back, is_kept) = harm_and_look(rt, alloc, disk, harm, after, mode);
        assert!(rt; is_kept, "call {after}");
        disk = back;
        write_log(rt, &mut *disk, &log);
    }
}

const GARBLE: ImageMode = ImageMode::Garble { byte: 235 };

#[test]
fn a_stop_in_each_device_call_loses_nothing(rt: HostRuntime) {
    outlives_all(&rt, rt.alloc(), Harm::Stop, ImageMode::Lose);
}

#[test]
fn a_stop_in_each_device_call_that_garbles_loses_nothing(rt: HostRuntime) {
    outlives_all(&rt, rt.alloc(), Harm::Stop, GARBLE);
}

#[test]
fn a_failure_in_each_device_call_loses_nothing(rt: HostRuntime) {
    outlives_all(&rt, rt.alloc(), Harm::Fail, ImageMode::Lose);
}

#[test]
fn a_failure_in_each_device_call_that_garbles_loses_nothing(rt: HostRuntime) {
    outlives_all(&rt, rt.alloc(), Harm::Fail, GARBLE);
}
