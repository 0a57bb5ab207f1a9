//! The one line of a whole history.
ghost use Rattle.std.specs.Prelude.{◌≡◌, ◌++◌, ◌+◌, ◌^◌, ◌≤◌, ◌<◌, OnOk, OnErr};
ghost use Rattle.journal.specs.Lines as text;

use crate::words::add_count;
use crate::{Entry, Event, History};
use eden_value::Status;
use std::alloc::{AllocError, Global};

// The shell's calls, those that were answered `ok`, those that were refused, and all turns. A history may have fewer
// than 2^63 entries, and each may break fewer than 2^63 calls.
#[derive(Clone, Copy)]
struct Counts {
    calls: u128,
    ok: u128,
    refused: u128,
    turns: u128,
}

fn calls_in(event: &Event) -> u128
    ensures number { result ≡ text.calls_in event.now }
    ensures small { result ≤ 1 }
{
    match event {
        Event::Asked { .. } => 1,
        _ => 0,
    }
}

fn ok_in(event: &Event) -> u128
    ensures number { result ≡ text.ok_in event.now }
    ensures small { result ≤ 1 }
{
    match event {
        Event::Reply {
            name: Some(_),
            status: Status::Ok,
            ..
        } => 1,
        _ => 0,
    }
}

fn refused_in(event: &Event) -> u128
    ensures number { result ≡ text.refused_in event.now }
    ensures small { result ≤ 1 }
{
    match event {
        Event::Reply {
            name: Some(_),
            status: Status::Ok,
            ..
        } => 0,
        Event::Reply { name: Some(_), .. } => 1,
        Event::Asked {
            at_once: Some(_),
            ..
        } => 1,
        _ => 0,
    }
}

fn turns_in(event: &Event) -> u128
    ensures number { result ≡ text.turns_in event.now }
    ensures small { result ≤ 1 }
{
    match event {
        Event::Request { .. }
        | Event::Reply { .. }
        | Event::Activate { .. }
        | Event::Start { .. }
        | Event::Process { .. }
        | Event::Store { .. } => 1,
        _ => 0,
    }
}

fn count(entries: &[Entry]) -> Counts
    ensures calls { result.calls ≡ text.calls_of entries.now }
    ensures ok { result.ok ≡ text.ok_of entries.now }
    ensures refused { result.refused ≡ text.refused_of entries.now }
    ensures turns { result.turns ≡ text.turns_of entries.now }
    ensures small { result.ok + result.refused < 2 ^ 128 }
{
    let mut calls = 0;
    let mut ok = 0;
    let mut refused = 0;
    let mut turns = 0;
    for entry in entries {
        calls += calls_in(&entry.event);
        ok += ok_in(&entry.event);
        refused += refused_in(&entry.event) + entry.broken.items.len() as u128;
        turns += turns_in(&entry.event);
    }
    Counts {
        calls,
        ok,
        refused,
        turns,
    }
}

// `calls 5 ok 4 refused 1 open 0 turns 28`
fn add_counts(counts: Counts, out: &mut Vec<u8>) -> Result<(), AllocError>
    requires { counts.ok + counts.refused < 2 ^ 128 }
    ensures { OnOk result (out.new.items ≡ out.old.items ++ text.counts_text counts.calls counts.ok counts.refused counts.turns) }
{
    out.extend_from_slice(b"calls")?;
    add_count(counts.calls, out)?;
    out.extend_from_slice(b" ok")?;
    add_count(counts.ok, out)?;
    out.extend_from_slice(b" refused")?;
    add_count(counts.refused, out)?;
    out.extend_from_slice(b" open")?;
    let answered = counts.ok + counts.refused;
    add_count(counts.calls.saturating_sub(answered), out)?;
    out.extend_from_slice(b" turns")?;
    add_count(counts.turns, out)?;
    out.push(b'\n')?;
    Ok(())
}

/// Appends the one line of the mode Summary: how many calls the shell made, how many of them were answered `ok`, were
/// refused and are open, and how many turns were taken. Where memory runs out, `out` is as before.
pub fn summary(alloc: Global, history: &History, out: &mut Vec<u8>) -> Result<(), AllocError>
    ensures ok { OnOk result (out.new.items ≡ out.old.items ++ text.summary_text history.now) }
    ensures err { OnErr result (out.new.items ≡ out.old.items) }
{
    let mut text = Vec::new(alloc);
    add_counts(count(&history.entries), &mut text)?;
    out.extend_from_slice(&text)
}
