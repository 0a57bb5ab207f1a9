ghost use Rattle.std.specs.Prelude.{◌≡◌, ◌≤◌, IsTrue, length};

use crate::disks::{Harm, arm, blank_disk, counts, counts_behind, cut_power, disk_with};
use eden_disk::{
    Arm, Disk, DiskRefusal, ImageMode, SimDisk, calls_are_timed, earlier_moments_stay,
    left_after_a_call, left_in_a_call,
};
use std::alloc::Global;
use std::process::Abort;

const GARBLE: ImageMode = ImageMode::Garble { byte: 35 };

/// Modes, and the byte that each leaves of 255.
const CUTS: &[(ImageMode, u8)] = &[
    (ImageMode::Lose, 0),
    (ImageMode::Keep, 255),
    (ImageMode::Garble { byte: 7 }, 7),
];

/// Whether a cut leaves this byte of 255, which was written and not synced.
fn leaves(rt: &impl Abort, alloc: Global, mode: ImageMode, left: u8) -> bool {
    let mut disk = blank_disk(rt, alloc, 1024);
    disk.write(10, &[255]).expect(rt, "the byte is written");
    disk.cut_power(mode);
    let mut wanted = [0; 1024];
    wanted[10] = left;
    shows(rt, alloc, &disk, &wanted)
}

#[test]
fn a_cut_leaves_what_its_mode_says(rt: HostRuntime) {
    for &(mode, left) in CUTS {
        assert!(rt; leaves(&rt, rt.alloc(), mode, left), "{mode:?}");
    }
}

/// A disk of eight dots.
fn dots(rt: &impl Abort, alloc: Global) -> Box<SimDisk>
    ensures { IsTrue result.value.counts.power × (result.value.counts.size ≡ 8) }
{
    let image = Vec::from_slice(alloc, b"........").expect(rt, "memory");
    disk_with(rt, alloc, image)
}

/// Whether these are its bytes.
fn shows(rt: &impl Abort, alloc: Global, disk: &SimDisk, bytes: &[u8]) -> bool {
    let image = disk.image(alloc).expect(rt, "memory");
    image.as_slice() == bytes
}

/// Asserts that these are its bytes.
fn expect_image(rt: &impl Abort, alloc: Global, disk: &SimDisk, bytes: &[u8]) {
    assert!(rt; shows(rt, alloc, disk, bytes), "{bytes:?}");
}

/// A write of four bytes, a sync, a write of three and a read of two, up to the first refusal.
fn run<D: Disk>(disk: &mut D, out: &mut [u8]) -> Result<(), DiskRefusal>
    requires power { IsTrue (D.counts disk.old).power }
    requires size { 8 ≤ (D.counts disk.old).size }
    requires two { length out.old ≡ 2 }
{
    disk.write(2, b"abcd")?;
    disk.sync()?;
    disk.write(3, b"xyz")?;
    disk.read(3, out)
}

#[test]
fn a_run_without_faults(rt: HostRuntime) {
    let alloc = rt.alloc();
    let mut disk = dots(&rt, alloc);
    expect_image(&rt, alloc, &disk, b"........");
    assert!(rt; disk.size() == 8);
    let mut out = [0; 2];
    run(&mut *disk, &mut out).expect(&rt, "the run");
    expect_image(&rt, alloc, &disk, b"..axyz..");
    assert!(rt; out == *b"xy" && counts(&*disk) == [4, 0, 0, 0]);
}

/// Whether the run is refused as the harm says, and reads nothing.
fn is_harmed<D: Disk>(disk: &mut D, harm: Harm) -> bool
    requires power { IsTrue (D.counts disk.old).power }
    requires size { 8 ≤ (D.counts disk.old).size }
{
    let mut out = [0; 2];
    let wanted = match harm {
        Harm::Stop => Err(DiskRefusal::Stopped),
        Harm::Fail => Err(DiskRefusal::Failed),
        Harm::Cut => Ok(()),
    };
    run(disk, &mut out) == wanted && out == [0; 2]
}

/// Whether a stop or a failure behind so many calls of the run leaves this image, once the power is cut.
fn leaves_image(
    rt: &impl Abort,
    alloc: Global,
    harm: Harm,
    calls: u32,
    mode: ImageMode,
    image: &str,
) -> bool {
    let after = calls.saturating_add(1);
    let mut disk = dots(rt, alloc);
    arm(&mut disk, harm, after, mode);
    let is_run = is_harmed(&mut *disk, harm) && counts(&*disk) == counts_behind(harm, after);
    cut_power(&mut disk, harm, mode);
    let is_left = shows(rt, alloc, &disk, image.as_bytes());
    disk.restart();
    is_run && is_left && disk.sync().is_ok()
}

/// A stop or a failure behind so many calls of the run, and the image that it leaves.
const IMAGES: &[(Harm, u32, ImageMode, &str)] = &[
    (Harm::Stop, 0, ImageMode::Keep, "..abcd.."),
    (Harm::Stop, 0, ImageMode::Lose, "........"),
    (Harm::Stop, 0, GARBLE, "..####.."),
    (Harm::Fail, 0, ImageMode::Keep, "..ab...."),
    (Harm::Fail, 0, ImageMode::Lose, "........"),
    (Harm::Fail, 0, GARBLE, "..####.."),
    (Harm::Stop, 1, ImageMode::Keep, "..abcd.."),
    (Harm::Stop, 1, ImageMode::Lose, "........"),
    (Harm::Stop, 1, GARBLE, "..####.."),
    (Harm::Fail, 1, ImageMode::Keep, "..abcd.."),
    (Harm::Fail, 1, ImageMode::Lose, "........"),
    (Harm::Fail, 1, GARBLE, "..####.."),
    (Harm::Stop, 2, ImageMode::Keep, "..axyz.."),
    (Harm::Stop, 2, ImageMode::Lose, "..abcd.."),
    (Harm::Stop, 2, GARBLE, "..a###.."),
    (Harm::Fail, 2, ImageMode::Keep, "..axcd.."),
    (Harm::Fail, 2, ImageMode::Lose, "..abcd.."),
    (Harm::Fail, 2, GARBLE, "..a###.."),
    (Harm::Stop, 3, ImageMode::Keep, "..axyz.."),
    (Harm::Stop, 3, ImageMode::Lose, "..abcd.."),
    (Harm::Stop, 3, GARBLE, "..a###.."),
    (Harm::Fail, 3, ImageMode::Keep, "..axyz.."),
    (Harm::Fail, 3, ImageMode::Lose, "..abcd.."),
    (Harm::Fail, 3, GARBLE, "..a###.."),
];

/// Behind so many calls of the run the next one is stopped, or fails and the power is cut then.
#[test]
fn a_fault_in_each_call_leaves_its_image(rt: HostRuntime) {
    for (i, &(harm, calls, mode, image)) in IMAGES.iter().enumerate() {
        assert!(rt;
            leaves_image(&rt, rt.alloc(), harm, calls, mode, image),
            "image {i}"
        );
    }
}

/// Asserts that two requests, of which the first is for the next call, have the syncs behind them refused so.
fn have_refused(
    rt: &impl Abort,
    alloc: Global,
    first: Harm,
    second: Harm,
    after: u32,
    refusals: &[Option<DiskRefusal>],
) {
    let mut disk = dots(rt, alloc);
    arm(&mut disk, first, 1, ImageMode::Keep);
    arm(&mut disk, second, after, ImageMode::Keep);
    for refusal in refusals {
        disk.restart();
        assert!(rt; disk.sync().err() == *refusal, "{refusals:?}");
    }
}

/// A request replaces one of its sort, and a stop goes before a failure: two requests, and how three syncs are refused.
#[test]
fn two_requests(rt: HostRuntime) {
    let later = &[None, Some(DiskRefusal::Failed), None];
    have_refused(&rt, rt.alloc(), Harm::Fail, Harm::Fail, 2, later);
    let stopped = &[Some(DiskRefusal::Stopped), None, None];
    have_refused(&rt, rt.alloc(), Harm::Stop, Harm::Fail, 1, stopped);
}

#[test]
fn a_failed_write_of_one_byte_leaves_its_place_unsynced(rt: HostRuntime) {
    let alloc = rt.alloc();
    let mut disk = dots(&rt, alloc);
    disk.arm(Arm::Fail { after: 1 });
    assert!(rt; disk.write(0, b"a") == Err(DiskRefusal::Failed));
    expect_image(&rt, alloc, &disk, b"........");
    disk.cut_power(GARBLE);
    expect_image(&rt, alloc, &disk, b"#.......");
}

/// Writes bytes at the end of a disk with power, and syncs them.
fn write_last<D: Disk>(disk: &mut D) -> Result<(), DiskRefusal>
    requires power { IsTrue (D.counts disk.old).power }
    requires size { (D.counts disk.old).size ≡ 4194304 }
    ensures size { (D.counts disk.new).size ≡ 4194304 }
{
    disk.write(4_194_000, b"abcd")?;
    disk.sync()
}

#[test]
fn a_large_disk_takes_time_in_what_is_written(rt: HostRuntime) {
    let mut disk = blank_disk(&rt, rt.alloc(), 4_194_304);
    for _ in 0..4096 {
        disk.restart();
        write_last(&mut *disk).expect(&rt, "the last bytes are written");
        disk.cut_power(ImageMode::Keep);
    }
    assert!(rt; disk.clock() == 8192);
}

/// Reads the end of a disk of zeros, and writes and reads its begin.
fn read_and_write<D: Disk>(disk: &mut D) -> Result<([u8; 4], [u8; 4]), DiskRefusal>
    requires power { IsTrue (D.counts disk.old).power }
    requires size { (D.counts disk.old).size ≡ 67108864 }
{
    let mut last = [7; 4];
    disk.read(67_108_860, &mut last)?;
    disk.write(0, b"abc")?;
    let mut first = [7; 4];
    disk.read(1, &mut first)?;
    Ok((last, first))
}

/// A thousand disks of 64 MiB. To write them with zeros would take 128 GiB of writes, more than a test has time for.
#[test]
fn a_blank_disk_takes_time_and_memory_in_what_is_written(rt: HostRuntime) {
    for _ in 0..1024 {
        let mut disk = blank_disk(&rt, rt.alloc(), 67_108_864);
        assert!(rt; read_and_write(&mut *disk) == Ok(([0; 4], *b"bc\0\0")));
    }
}

#[test]
fn laws_are_there_to_be_called(_rt: HostRuntime) {
    left_in_a_call();
    left_after_a_call();
    calls_are_timed();
    earlier_moments_stay();
}

#[test]
fn a_disk_in_memory_holds_bytes(rt: HostRuntime) {
    let disk = blank_disk(&rt, rt.alloc(), 8);
    disk.holds_bytes();
    assert!(rt; shows(&rt, rt.alloc(), &disk, &[0; 8]));
}
