//! A small object store: texts under numbers, kept over crashes. It reads commands from standard input, and says what came of each.
//!
//! `put K TEXT`, `get K` and `delete K` change and show what is kept under the number K, which is at least 1; TEXT is one word.
//! `stop N MODE` asks that the power fail in the N-th device call from now, and `crash MODE` cuts it at once; MODE is `keep` or `lose`.
//! Behind a refusal, and behind a cut, the disk is started and opened again.
#![tactic(auto)]

ghost use Rattle.std.specs.Prelude.{◌≡◌, ◌≤◌, IsTrue, IfOk, OnOk, Option, length};
ghost use Rattle.passive_store.specs.Kept.{body_at};
ghost use Rattle.small_store.specs.Ready.{IsReady};

use capability::{BODY_LIMIT, Body, Uid};
use eden_disk::{Arm, Disk, ImageMode, SimDisk};
use passive_blocks::BlockStore;
use passive_store::{Store, StoreRefusal};
use std::alloc::Global;
use std::io;

const SIZE: u32 = 4_194_304;

// What a line asks for.
#[derive(Clone, Copy)]
enum Command<'a> {
    Put { number: u32, text: &'a str },
    Get { number: u32 },
    Delete { number: u32 },
    Stop { after: u32, mode: ImageMode },
    Crash { mode: ImageMode },
}

// What came of it.
#[derive(Drop)]
enum Answer {
    Done,
    Found(Option<Body>),
    BadCommand,
}

// The command that a line spells.
fn command_in(line: &str) -> Option<Command<'_>> {
    let mut words = line.split_whitespace();
    let word = words.next()?;
    let next = words.next()?;
    if word == "crash" {
        return Some(Command::Crash {
            mode: mode_of(next)?,
        });
    }
    let number = next.parse::<u32>().ok()?;
    if number == 0 {
        return None;
    }
    match word {
        "put" => Some(Command::Put {
            number,
            text: words.next()?,
        }),
        "get" => Some(Command::Get { number }),
        "delete" => Some(Command::Delete { number }),
        "stop" => Some(Command::Stop {
            after: number,
            mode: mode_of(words.next()?)?,
        }),
        _ => None,
    }
}

// What a power cut is to leave of unsynced bytes.
fn mode_of(word: &str) -> Option<ImageMode> {
    match word {
        "keep" => Some(ImageMode::Keep),
        "lose" => Some(ImageMode::Lose),
        _ => None,
    }
}

// The uid under which the text of a number is kept.
fn uid_of(serial: u32) -> Uid
    ensures { result ≡ record { node = 1; epoch = 1; serial = serial } }
{
    Uid {
        node: 1,
        epoch: 1,
        serial,
    }
}

// Keeps a text under a number. Where that is done, it is what is kept there.
fn put_text<St: Store>(
    alloc: Global,
    store: &mut St,
    number: u32,
    text: &str,
) -> Result<(), StoreRefusal>
    requires ready { IsReady (St.seen store.old) }
    requires number { 1 ≤ number }
    requires limit { length text.now ≤ 262144 }
    ensures ready { OnOk result (IsReady (St.seen store.new)) }
    ensures kept { IsTrue St.Device.tells
        → OnOk result (body_at (St.seen store.new).kept (record { node = 1; epoch = 1; serial = number }) ≡ Option.Some text.now) }
{
    store.put(alloc, uid_of(number), text.as_bytes())
}

// The text that is kept under a number, if one is.
fn text_at<St: Store>(
    alloc: Global,
    store: &mut St,
    number: u32,
) -> Result<Option<Body>, StoreRefusal>
    requires { IsReady (St.seen store.old) }
    ensures ready { OnOk result (IsReady (St.seen store.new)) }
    ensures kept { IsTrue St.Device.tells
        → IfOk result (λ found. found ≡ body_at (St.seen store.new).kept (record { node = 1; epoch = 1; serial = number })) }
{
    store.get(alloc, uid_of(number))
}

// Does what a command asks for. A refusal may leave a change in doubt, or the disk without power.
fn carry_out<St: Store>(
    alloc: Global,
    store: &mut St,
    command: Command<'_>,
) -> Result<Answer, StoreRefusal>
    requires { IsReady (St.seen store.old) }
    ensures { OnOk result (IsReady (St.seen store.new)) }
{
    match command {
        Command::Put { number, text } if number > 0 && text.len() <= BODY_LIMIT as usize => {
            put_text(alloc, store, number, text)?;
            Ok(Answer::Done)
        }
        Command::Get { number } => Ok(Answer::Found(text_at(alloc, store, number)?)),
        Command::Delete { number } if number > 0 => {
            store.delete(alloc, uid_of(number))?;
            Ok(Answer::Done)
        }
        Command::Stop { after, mode } if after > 0 => {
            store.disk_mut_arm(Arm::Stop { after, mode });
            Ok(Answer::Done)
        }
        _ => Ok(Answer::BadCommand),
    }
}

// The store, opened anew over its disk once that was started again; before, its power is cut, where a mode is given.
fn opened_again<St: Store>(alloc: Global, store: St, cut: Option<ImageMode>) -> io::Result<St>
where
    St::Device: Drop,
    ensures { IfOk result (λ s. IsReady (St.seen s)) }
{
    let mut disk = store.close();
    if let Some(mode) = cut {
        disk.cut_power(mode);
    }
    disk.restart();
    opened::<St>(alloc, disk)
}

// A store over a disk that has power.
fn opened<St: Store>(alloc: Global, disk: St::Device) -> io::Result<St>
where
    St::Device: Drop,
    requires { IsTrue (St.Device.counts disk).power }
    ensures { IfOk result (λ s. IsReady (St.seen s)) }
{
    match St::open_disk(alloc, disk, 1) {
        Ok(store) => Ok(store),
        Err(_) => Err(io::Error::from(io::ErrorKind::Other)),
    }
}

// Says what came of a command.
fn tell(rt: &impl Print, answer: &Answer) -> io::Result<()> {
    match answer {
        Answer::Done => println!(rt; "done"),
        Answer::Found(None) => println!(rt; "nothing is kept"),
        Answer::Found(Some(body)) => match str::from_utf8(body.as_slice()) {
            Ok(text) => println!(rt; "{text}"),
            Err(_) => println!(rt; "no text"),
        },
        Answer::BadCommand => println!(rt; "bad command"),
    }
}

// One command after the other.
fn serve<St: Store + Drop>(
    rt: &(impl Print + Input),
    alloc: Global,
    disk: St::Device,
) -> io::Result<()>
where
    St::Device: Drop,
    requires { IsTrue (St.Device.counts disk).power }
{
    let mut store = opened::<St>(alloc, disk)?;
    for line in rt.lines(alloc) {
        let line = line?;
        let command = command_in(line.as_str());
        match command {
            Some(Command::Crash { mode }) => {
                store = opened_again(alloc, store, Some(mode))?;
                println!(rt; "opened again")?;
            }
            Some(command) => match carry_out(alloc, &mut store, command) {
                Ok(answer) => tell(rt, &answer)?,
                Err(refusal) => {
                    println!(rt; "{refusal:?}")?;
                    store = opened_again(alloc, store, None)?;
                }
            },
            None => tell(rt, &Answer::BadCommand)?,
        }
    }
    Ok(())
}

fn main(rt: HostRuntime) -> io::Result<()> {
    let alloc = rt.alloc();
    serve::<BlockStore<SimDisk>>(&rt, alloc, SimDisk::new(alloc, SIZE)?)
}
