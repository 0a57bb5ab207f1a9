//! The eight files of a folder.
ghost use Rattle.std.specs.Prelude.{◌≡◌, IfNone, IfOk, IfSome, length};
ghost use Rattle.std.specs.Fd.{file_raw_fd};
ghost use Rattle.std.specs.Fs.{IsFile, file_type, metadata_len};
ghost use Rattle.std.specs.List.{All, Contains};
ghost use Rattle.file_disk.specs.Counted.{counts_of, first_counts};
ghost use Rattle.file_disk.specs.Numbers.{IsApart, number_of};

use crate::claim::{claim, open_apart};
use crate::{Cause, FileDisk, OpenRefusal};
use std::alloc::{AllocError, Global};
use std::fmt::Write as _;
use std::fs::{self, File, Metadata};
use std::io;
use std::os::unix::fs::FileExt;
use std::rt::HostRuntime;

/// How many disks a folder has.
const DISKS: u8 = 8;

// The path of a disk.
fn path_of(alloc: Global, folder: &str, disk: u8) -> Result<String, AllocError> {
    format!(in alloc; "{folder}/disk{disk}")
}

// The one of these sizes that an ordinary file has. None where it is no ordinary file, or has none of them.
fn size_among(seen: &Metadata, sizes: &[u32]) -> Option<u32>
    ensures found { IfSome result (λ n. IsFile (file_type seen.now) × (metadata_len seen.now ≡ n) × Contains sizes.now n) }
    ensures none { IfNone result (IsFile (file_type seen.now) → Contains sizes.now (metadata_len seen.now) → ⊥) }
{
    if !seen.is_file() {
        return None;
    }
    let length = seen.len();
    for size in sizes {
        if length == u64::from(*size) {
            return Some(*size);
        }
    }
    None
}

// Whether nothing stands under a path, not even a link to what is not there.
fn is_free(rt: &HostRuntime, path: &str) -> bool {
    match fs::symlink_metadata(rt, path) {
        Ok(_) => false,
        Err(error) => error.kind() == io::ErrorKind::NotFound,
    }
}

// The file of a disk, taken for this run alone, with its size, or None where there is none. One of another size is refused.
fn find(rt: &HostRuntime, path: &str, sizes: &[u32]) -> Result<Option<(File, u32)>, Cause>
    ensures size { IfOk result (λ found. IfSome found (λ f. Contains sizes.now f.1)) }
    ensures apart { IfOk result (λ found. IfSome found (λ f. IsApart (file_raw_fd f.0))) }
{
    let opened = File::options().read(true).write(true).open(rt, path);
    let file = match opened {
        Ok(file) => file,
        Err(error) if error.kind() == io::ErrorKind::NotFound && is_free(rt, path) => {
            return Ok(None);
        }
        Err(error) => return Err(Cause::System(error)),
    };
    claim(&file)?;
    let seen = file.metadata()?;
    match size_among(&seen, sizes) {
        Some(size) => Ok(Some((file, size))),
        None if seen.is_file() => Err(Cause::HasAnotherSize { bytes: seen.len() }),
        None => Err(Cause::IsNoFile),
    }
}

// Of the files that are there each can be opened, and has one of the sizes.
fn check_all(
    alloc: Global,
    rt: &HostRuntime,
    folder: &str,
    sizes: &[u32],
) -> Result<(), OpenRefusal> {
    for disk in 1..=DISKS {
        let path = path_of(alloc, folder, disk)?;
        match find(rt, path.as_str(), sizes) {
            Ok(_) => {}
            Err(cause) => return Err(OpenRefusal::Disk(disk, cause)),
        }
    }
    Ok(())
}

// A new file with these bytes, which have reached the medium before it has its name.
fn write_new(rt: &HostRuntime, making: &str, path: &str, bytes: &[u8]) -> Result<File, Cause>
    ensures apart { IfOk result (λ f. IsApart (file_raw_fd f)) }
{
    let file = File::create_new(rt, making)?;
    claim(&file)?;
    file.write_all_at(bytes, 0)?;
    file.sync_all()?;
    fs::rename(rt, making, path)?;
    Ok(file)
}

// A new file of zeros. Until it is whole it stands under another name, where what an ended run left is removed first. Its path joins
// those of the files that were made.
fn make(
    alloc: Global,
    rt: &HostRuntime,
    disk: u8,
    path: String,
    size: u32,
    made: &mut Vec<String>,
) -> Result<File, OpenRefusal>
    ensures apart { IfOk result (λ f. IsApart (file_raw_fd f)) }
{
    made.reserve(1)?;
    let making = format!(in alloc; "{path}.new")?;
    let zeros = vec![in alloc; 0u8; size as usize]?;
    let _ = fs::remove_file(rt, making.as_str());
    match write_new(rt, making.as_str(), path.as_str(), &zeros) {
        Ok(file) => {
            made.push_reserved(path);
            Ok(file)
        }
        Err(cause) => {
            let _ = fs::remove_file(rt, making.as_str());
            Err(OpenRefusal::Disk(disk, cause))
        }
    }
}

// One disk, with power and untouched. Its file is made where it is not there.
fn open_one(
    alloc: Global,
    rt: &HostRuntime,
    folder: &str,
    disk: u8,
    sizes: &[u32],
    new_size: u32,
    made: &mut Vec<String>,
) -> Result<FileDisk, OpenRefusal>
    requires new_size { Contains sizes.now new_size }
    ensures size { IfOk result (λ d. Contains sizes.now (counts_of d).size) }
    ensures fresh { IfOk result (λ d. counts_of d ≡ first_counts (counts_of d).size) }
    ensures apart { IfOk result (λ d. IsApart (number_of d)) }
{
    let path = path_of(alloc, folder, disk)?;
    match find(rt, path.as_str(), sizes) {
        Ok(Some((file, size))) => Ok(FileDisk::new(file, size)),
        Ok(None) => {
            let file = make(alloc, rt, disk, path, new_size, made)?;
            Ok(FileDisk::new(file, new_size))
        }
        Err(cause) => Err(OpenRefusal::Disk(disk, cause)),
    }
}

// All disks, in their order.
fn open_all(
    alloc: Global,
    rt: &HostRuntime,
    folder: &str,
    sizes: &[u32],
    new_size: u32,
    made: &mut Vec<String>,
) -> Result<Vec<FileDisk>, OpenRefusal>
    requires new_size { Contains sizes.now new_size }
    ensures eight { IfOk result (λ disks. length disks.items ≡ 8) }
    ensures sizes { IfOk result (λ disks. All (λ d. Contains sizes.now (counts_of d).size) disks.items) }
    ensures fresh { IfOk result (λ disks. All (λ d. counts_of d ≡ first_counts (counts_of d).size) disks.items) }
    ensures apart { IfOk result (λ disks. All (λ d. IsApart (number_of d)) disks.items) }
{
    let mut disks = Vec::new(alloc);
    for disk in 0..DISKS {
        disks.push(open_one(alloc, rt, folder, disk + 1, sizes, new_size, made)?)?;
    }
    Ok(disks)
}

// What was opened, where the names of all files have reached the medium.
fn with_names(
    opened: Result<Vec<FileDisk>, OpenRefusal>,
    folder: &File,
) -> Result<Vec<FileDisk>, OpenRefusal>
    ensures same { IfOk result (λ disks. opened ≡ Ok disks) }
{
    let disks = opened?;
    match folder.sync_all() {
        Ok(()) => Ok(disks),
        Err(error) => Err(OpenRefusal::Folder(Cause::System(error))),
    }
}

// The folder, locked until it is closed, so that no other run opens or makes its files meanwhile.
fn take_folder(alloc: Global, rt: &HostRuntime, folder: &str) -> Result<File, OpenRefusal> {
    let path = format!(in alloc; "{folder}/.")?;
    let taken = open_apart(rt, path.as_str()).map_err(OpenRefusal::Folder)?;
    claim(&taken).map_err(OpenRefusal::Folder)?;
    Ok(taken)
}

/// Opens the files `disk1` to `disk8` of a folder as disks, in their order, each at its own size, which is one of these, and locks each
/// for as long as it is open. Those that are not there are made of zeros, in the size for new ones.
///
/// Where one cannot be opened or made, is locked, or has another size, the files that were made are removed again.
pub fn open_disks(
    alloc: Global,
    rt: &HostRuntime,
    folder: &str,
    sizes: &[u32],
    new_size: u32,
) -> Result<Vec<FileDisk>, OpenRefusal>
    requires new_size { Contains sizes.now new_size }
    ensures eight { IfOk result (λ disks. length disks.items ≡ 8) }
    ensures sizes { IfOk result (λ disks. All (λ d. Contains sizes.now (counts_of d).size) disks.items) }
    ensures fresh { IfOk result (λ disks. All (λ d. counts_of d ≡ first_counts (counts_of d).size) disks.items) }
    // None of the files is a standard stream.
    ensures apart { IfOk result (λ disks. All (λ d. IsApart (number_of d)) disks.items) }
{
    let taken = take_folder(alloc, rt, folder)?;
    check_all(alloc, rt, folder, sizes)?;
    let mut made = Vec::new(alloc);
    let opened = open_all(alloc, rt, folder, sizes, new_size, &mut made);
    let opened = with_names(opened, &taken);
    if opened.is_err() {
        for path in &made {
            let _ = fs::remove_file(rt, path.as_str());
        }
    }
    opened
}
