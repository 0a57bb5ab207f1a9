//! Runs a script over a modelled Eden, and writes its transcript to standard output.
#![tactic(auto)]

mod blank;
mod messages;

ghost use Rattle.std.specs.Prelude.{◌≡◌, ◌⊎◌, length, map, string_bytes};
ghost use Rattle.std.specs.List.{All};
ghost use Rattle.passive_blocks.specs.BlockLayout.{block_layout};
ghost use Rattle.passive_store.specs.Seen.{disk_seen};
ghost use Rattle.eden_world.specs.Legal.{disk_runs};
ghost use Rattle.shell_answers.specs.Outcomes.{status_of};
ghost use Rattle.eden.specs.Status.{IsStatus, IsLegalStatus};

use blank::{DISK_SIZE, blank_disks};
use eden_disk::Disk;
use eden_io::write_all;
use eden_shell::{Outcome, Report, eden, eden_over_blank, host_dir, status};
use file_disk::{OpenRefusal, open_disks};
use messages::{tell_no_memory, tell_outcome, tell_refusal};
use standard_streams::{StdSink, StdSource};
use std::alloc::AllocError;
use std::io::{self, Stdin, Stdout};
use std::process::ExitCode;
use std::{env, mem};

// The size of disks as they were made before, which a folder may have too.
const OLD_SIZE: u32 = 1_048_576;

// The status where the disks of a folder cannot be opened.
const CANNOT_OPEN: u8 = 8;

// The words of the command line, without the program's own name. Where one of them is no text there are none.
fn words(rt: &HostRuntime) -> Result<Vec<String>, AllocError> {
    let mut words = Vec::new(rt.alloc());
    match env::args(rt) {
        Ok(args) => {
            for word in args.skip(1) {
                words.push(word)?;
            }
        }
        Err(error) if error.kind() == io::ErrorKind::OutOfMemory => return Err(AllocError),
        Err(_) => {}
    }
    Ok(words)
}

// Tells on standard error what ended the run early, and gives the exit status.
fn finish(rt: &HostRuntime, report: Report, source: &StdSource<Stdin>, sink: &StdSink<Stdout>) -> u8
    ensures { result ≡ status_of report.outcome }
{
    tell_outcome(rt, &report.outcome, source.failure(), sink.failure());
    let status = status(&report.outcome);
    // (the program ends: the system takes its memory back as a whole)
    mem::forget(report);
    status
}

// Does what the words ask for over these disks, and gives the exit status.
fn run<D: Disk + Drop>(rt: &HostRuntime, words: &Vec<String>, disks: &mut Vec<D>) -> u8
    requires eight { length disks.old.items ≡ 8 }
    requires sizes { All (λ d. ((D.counts d).size ≡ 1048576) ⊎ ((D.counts d).size ≡ 4194304)) disks.old.items }
    // It is the status of what `eden` answers over these disks.
    ensures { IsStatus (map string_bytes words.now.items)
        (record {
          layout = block_layout;
          tells = D.tells;
          runs = disk_runs D.obeys (disk_seen D.counts D.told D.due) disks.old.items disks.new.items;
        })
        result }
{
    let mut source = StdSource::new(rt.stdin());
    let mut sink = StdSink::new(rt.stdout());
    let report = eden(rt.alloc(), words, &mut source, &mut sink, disks);
    finish(rt, report, &source, &sink)
}

// Over the files of a folder; where they cannot be opened, with a line and a status of its own.
fn run_in(rt: &HostRuntime, words: &Vec<String>, folder: &str) -> u8 {
    let refusal = match open_disks(rt.alloc(), rt, folder, &[OLD_SIZE, DISK_SIZE], DISK_SIZE) {
        Ok(mut disks) => return run(rt, words, &mut disks),
        Err(refusal) => refusal,
    };
    tell_refusal(rt, folder, &refusal);
    match refusal {
        OpenRefusal::OutOfMemory => status(&Outcome::OutOfMemory),
        OpenRefusal::Folder(_) | OpenRefusal::Disk(..) => say_cannot_open(rt),
    }
}

// The line that disks cannot be opened, and its status.
fn say_cannot_open(rt: &HostRuntime) -> u8 {
    let mut sink = StdSink::new(rt.stdout());
    match write_all(&mut sink, b"cannot open disks\n") {
        Ok(()) => CANNOT_OPEN,
        Err(_) => {
            tell_outcome(rt, &Outcome::WriteFault, None, sink.failure());
            status(&Outcome::WriteFault)
        }
    }
}

// Over eight blank disks in memory, where there is memory for them.
fn run_blank(rt: &HostRuntime, words: &Vec<String>) -> u8
    // Of a run that began it says what it says of a legal one, with no premise.
    ensures { IsLegalStatus (map string_bytes words.now.items) result ⊎ (result ≡ status_of Outcome.OutOfMemory) }
{
    let Ok(mut disks) = blank_disks(rt.alloc()) else {
        tell_no_memory(rt, "eight disks");
        return status(&Outcome::OutOfMemory);
    };
    let mut source = StdSource::new(rt.stdin());
    let mut sink = StdSink::new(rt.stdout());
    let report = eden_over_blank(rt.alloc(), words, &mut source, &mut sink, &mut disks);
    mem::forget(disks);
    finish(rt, report, &source, &sink)
}

fn main(rt: HostRuntime) -> ExitCode {
    let Ok(words) = words(&rt) else {
        tell_no_memory(&rt, "the words of the command line");
        return ExitCode::from(status(&Outcome::OutOfMemory));
    };
    let status = match host_dir(&words) {
        Some(folder) => run_in(&rt, &words, folder.as_str()),
        None => run_blank(&rt, &words),
    };
    ExitCode::from(status)
}
