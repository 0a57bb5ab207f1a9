use crate::disks::{Harm, counts, counts_behind};
use eden_disk::{Arm, Disk, ImageMode};
use file_disk::{Cause, FileDisk, OpenRefusal, open_disks};
use std::alloc::Global;
use std::os::unix::fs::symlink;
use std::{fs, io};

const SIZE: u32 = 70_000;

const OLD_SIZE: u32 = 300;

// A folder of no files.
fn make_folder(rt: &HostRuntime, folder: &str) -> io::Result<()> {
    let _ = fs::remove_dir_all(rt, folder);
    fs::create_dir(rt, folder)
}

// Whether a disk has this size and this last byte.
fn ends_with(disk: &mut FileDisk, size: u32, byte: u8) -> bool {
    disk.restart();
    if disk.size() != size || size == 0 {
        return false;
    }
    let mut last = [9u8; 1];
    disk.read(size - 1, &mut last).is_ok() && last == [byte]
}

// Writes three bytes at a disk's end, loses the power, and reads four bytes there. It has a failure armed, which it does not
// obey.
fn write_and_read(disk: &mut FileDisk) -> Option<[u8; 4]> {
    disk.restart();
    if disk.size() != SIZE {
        return None;
    }
    disk.write(SIZE - 3, b"abc").ok()?;
    disk.sync().ok()?;
    disk.cut_power(ImageMode::Lose);
    disk.restart();
    disk.arm(Arm::Fail { after: 1 });
    let mut bytes = [9u8; 4];
    disk.read(SIZE - 4, &mut bytes).ok()?;
    Some(bytes)
}

// Whether of eight disks the third takes in what is written.
fn take_in(disks: &mut [FileDisk]) -> bool {
    let count = disks.len();
    match disks.get_mut(2) {
        Some(disk) => {
            let is_read = write_and_read(disk) == Some(*b"\0abc");
            is_read && counts(disk) == counts_behind(Harm::Cut, 3) && count == 8
        }
        None => false,
    }
}

// Whether a folder has eight disks, and the third takes in what is written.
fn is_written(rt: &HostRuntime, alloc: Global, folder: &str) -> bool {
    match open_disks(alloc, rt, folder, &[SIZE], SIZE) {
        Ok(mut disks) => take_in(&mut disks),
        Err(_) => false,
    }
}

// Whether of some disks the third ends with what was written, and the next one with nothing.
fn end_so(disks: &mut [FileDisk]) -> bool {
    for &(index, byte) in &[(2, b'c'), (3, 0)] {
        let is_so = match disks.get_mut(index) {
            Some(disk) => ends_with(disk, SIZE, byte),
            None => false,
        };
        if !is_so {
            return false;
        }
    }
    true
}

// Whether of the disks of a folder the third ends with what was written, and the next one with nothing.
fn is_kept(rt: &HostRuntime, alloc: Global, folder: &str) -> bool {
    match open_disks(alloc, rt, folder, &[SIZE], SIZE) {
        Ok(mut disks) => end_so(&mut disks),
        Err(_) => false,
    }
}

// What was written and synced is read again by the disks that are opened next, and by them alone.
#[test]
fn files_keep_what_was_written(rt: HostRuntime) {
    make_folder(&rt, "file_disk_test").expect(&rt, "the folder is made");
    assert!(rt; is_written(&rt, rt.alloc(), "file_disk_test"), "new disks");
    assert!(rt; is_kept(&rt, rt.alloc(), "file_disk_test"), "old disks");
    fs::remove_dir_all(&rt, "file_disk_test").expect(&rt, "the folder is removed");
}

// Whether the files of a folder are refused as disks of one size.
fn is_refused(rt: &HostRuntime, alloc: Global, folder: &str) -> bool {
    match open_disks(alloc, rt, folder, &[SIZE], SIZE) {
        Ok(_) | Err(OpenRefusal::OutOfMemory) => false,
        Err(OpenRefusal::Folder(_) | OpenRefusal::Disk(..)) => true,
    }
}

// Whether it is known that a path has no file.
fn is_absent(rt: &HostRuntime, path: &str) -> bool {
    match fs::exists(rt, path) {
        Ok(is_there) => !is_there,
        Err(_) => false,
    }
}

// The size of a file, where it is found.
fn size_of(rt: &HostRuntime, path: &str) -> Option<u64> {
    match fs::metadata(rt, path) {
        Ok(found) => Some(found.len()),
        Err(_) => None,
    }
}

// A file of another size is refused, and no file is made beside it; nor in a folder that is none.
#[test]
fn another_size_is_refused(rt: HostRuntime) {
    make_folder(&rt, "file_disk_sizes").expect(&rt, "the folder is made");
    let written = fs::write(&rt, "file_disk_sizes/disk5", b"short".as_slice());
    written.expect(&rt, "the file is written");
    assert!(rt; is_refused(&rt, rt.alloc(), "file_disk_sizes"));
    assert!(rt; is_absent(&rt, "file_disk_sizes/disk1"));
    assert!(rt; size_of(&rt, "file_disk_sizes/disk5") == Some(5));
    fs::remove_dir_all(&rt, "file_disk_sizes").expect(&rt, "the folder is removed");
    assert!(rt; is_refused(&rt, rt.alloc(), "file_disk_sizes"));
}

// Where a file cannot be made, those that were made before it are removed again.
#[test]
fn files_that_were_made_are_removed_again(rt: HostRuntime) {
    make_folder(&rt, "file_disk_made").expect(&rt, "the folder is made");
    // a folder stands where the fifth file is to be made
    let hindered = fs::create_dir(&rt, "file_disk_made/disk5.new");
    hindered.expect(&rt, "it is made");
    assert!(rt; is_refused(&rt, rt.alloc(), "file_disk_made"));
    for path in &["file_disk_made/disk1", "file_disk_made/disk4"] {
        assert!(rt; is_absent(&rt, path), "{path}");
    }
    fs::remove_dir_all(&rt, "file_disk_made").expect(&rt, "the folder is removed");
}

// A link to what is not there is refused, and no file takes its place.
#[test]
fn a_link_to_nothing_is_refused(rt: HostRuntime) {
    make_folder(&rt, "file_disk_link").expect(&rt, "the folder is made");
    let linked = symlink(&rt, "nowhere/disk", "file_disk_link/disk5");
    linked.expect(&rt, "the link is made");
    assert!(rt; is_refused(&rt, rt.alloc(), "file_disk_link"));
    assert!(rt; is_absent(&rt, "file_disk_link/disk1"));
    assert!(rt; is_absent(&rt, "file_disk_link/disk5"));
    fs::remove_dir_all(&rt, "file_disk_link").expect(&rt, "the folder is removed");
}

// Whether the first file of a folder is found locked.
fn is_locked(rt: &HostRuntime, alloc: Global, folder: &str) -> bool {
    match open_disks(alloc, rt, folder, &[SIZE], SIZE) {
        Err(OpenRefusal::Disk(disk, Cause::IsLocked)) => disk == 1,
        _ => false,
    }
}

// Whether the files of a folder are locked as long as its disks are open.
fn are_locked(rt: &HostRuntime, alloc: Global, folder: &str) -> bool {
    match open_disks(alloc, rt, folder, &[SIZE], SIZE) {
        Ok(mut disks) => is_locked(rt, alloc, folder) && take_in(&mut disks),
        Err(_) => false,
    }
}

// A folder serves one run at a time, and what an ended run left in it is cleared.
#[test]
fn one_run_has_the_disks(rt: HostRuntime) {
    make_folder(&rt, "file_disk_locked").expect(&rt, "the folder is made");
    let left = fs::write(&rt, "file_disk_locked/disk2.new", b"short".as_slice());
    left.expect(&rt, "the file is written");
    assert!(rt; are_locked(&rt, rt.alloc(), "file_disk_locked"));
    assert!(rt; is_absent(&rt, "file_disk_locked/disk2.new"));
    assert!(rt; is_kept(&rt, rt.alloc(), "file_disk_locked"));
    fs::remove_dir_all(&rt, "file_disk_locked").expect(&rt, "the folder is removed");
}

// Whether of eight disks in two sizes the third is the old one of sevens, and the others are of zeros.
fn are_of_two_sizes(disks: &mut [FileDisk]) -> bool {
    for (index, disk) in disks.iter_mut().enumerate() {
        let (size, byte) = if index == 2 { (OLD_SIZE, 7) } else { (SIZE, 0) };
        if !ends_with(disk, size, byte) {
            return false;
        }
    }
    disks.len() == 8
}

// Whether the disks of a folder are opened so.
fn are_opened(rt: &HostRuntime, alloc: Global) -> bool {
    match open_disks(alloc, rt, "file_disk_both", &[OLD_SIZE, SIZE], SIZE) {
        Ok(mut disks) => are_of_two_sizes(&mut disks),
        Err(_) => false,
    }
}

// Whether files have these sizes.
fn have_sizes(rt: &HostRuntime, files: &[(&str, u32)]) -> bool {
    for &(path, size) in files {
        if size_of(rt, path) != Some(u64::from(size)) {
            return false;
        }
    }
    true
}

// Each file is opened at its own size, and those that are not there are made in the size for new ones.
#[test]
fn each_disk_has_its_own_size(rt: HostRuntime) {
    make_folder(&rt, "file_disk_both").expect(&rt, "the folder is made");
    let written = fs::write(&rt, "file_disk_both/disk3", [7u8; 300].as_slice());
    written.expect(&rt, "the file is written");
    for _ in 0..2 {
        assert!(rt; are_opened(&rt, rt.alloc()));
    }
    let sizes = &[
        ("file_disk_both/disk3", OLD_SIZE),
        ("file_disk_both/disk8", SIZE),
    ];
    assert!(rt; have_sizes(&rt, sizes));
    assert!(rt; is_refused(&rt, rt.alloc(), "file_disk_both"));
    fs::remove_dir_all(&rt, "file_disk_both").expect(&rt, "the folder is removed");
}
