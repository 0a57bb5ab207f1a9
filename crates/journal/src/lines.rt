//! The lines of an entry.
ghost use Rattle.std.specs.Prelude.{◌≡◌, ◌++◌, codes, OnOk, OnErr};
ghost use Rattle.eden_value.specs.View.{datums};
ghost use Rattle.eden_value.specs.Printed.{printed_row, row_behind};
ghost use Rattle.journal.specs.Lines as text;

use crate::words::{
    add_boot_word, add_image_word, add_num, add_numbered, add_shown_word, add_uid, fault_word,
    pick_word, request_word, start_word,
};
use crate::{BootEnd, Entry, Event, Mode, RequestEnd, Shown, StartEnd};
use capability::Uid;
use eden_disk::Arm;
use eden_value::{Status, Txt, Value, print};
use passive_store::Pick;
use std::alloc::{AllocError, Global};

// `a refused 4 gone`
fn add_refused(name: &Txt, status: Status, out: &mut Vec<u8>) -> Result<(), AllocError>
    ensures { OnOk result (out.new.items ≡ out.old.items ++ text.refused_text name.now status) }
{
    out.extend_from_slice(&name.bytes)?;
    add_numbered(b" refused", u64::from(status.number()), out)?;
    out.push(b' ')?;
    out.extend_from_slice(status.word().as_bytes())?;
    out.extend_from_slice(b"\n")
}

// `+ cut 1 2`
fn add_link(a: u8, b: u8, joined: bool, out: &mut Vec<u8>) -> Result<(), AllocError>
    ensures { OnOk result (out.new.items ≡ out.old.items ++ text.link_text a b joined) }
{
    add_numbered(if joined { b"+ join" } else { b"+ cut" }, u64::from(a), out)?;
    add_num(u64::from(b), out)?;
    out.extend_from_slice(b"\n")
}

// `+ fail 1 4`, `+ stop 1 4 lose`
fn add_armed(node: u8, what: Arm, out: &mut Vec<u8>) -> Result<(), AllocError>
    ensures { OnOk result (out.new.items ≡ out.old.items ++ text.armed_text node what) }
{
    match what {
        Arm::Fail { after } => {
            add_numbered(b"+ fail", u64::from(node), out)?;
            add_num(u64::from(after), out)?;
        }
        Arm::Stop { after, mode } => {
            add_numbered(b"+ stop", u64::from(node), out)?;
            add_num(u64::from(after), out)?;
            out.push(b' ')?;
            add_image_word(mode, out)?;
        }
    }
    out.extend_from_slice(b"\n")
}

// `+ hold c`
fn add_bound(name: &Txt, held: bool, out: &mut Vec<u8>) -> Result<(), AllocError>
    ensures { OnOk result (out.new.items ≡ out.old.items ++ text.bound_text name.now held) }
{
    out.extend_from_slice(if held { b"+ hold " } else { b"+ restrict " })?;
    out.extend_from_slice(&name.bytes)?;
    out.extend_from_slice(b"\n")
}

// `+ request 1 0 1 refused 4`
fn add_request(
    call: u32,
    from: u8,
    to: u8,
    refused: Option<Status>,
    out: &mut Vec<u8>,
) -> Result<(), AllocError>
    ensures { OnOk result (out.new.items ≡ out.old.items ++ text.request_text call from to refused) }
{
    out.extend_from_slice(b"+ request")?;
    add_three(call, from, to, out)?;
    if let Some(status) = refused {
        add_numbered(b" refused", u64::from(status.number()), out)?;
    }
    out.extend_from_slice(b"\n")
}

// `+ activate 1.1.1 ok`
fn add_activate(uid: Uid, end: StartEnd, out: &mut Vec<u8>) -> Result<(), AllocError>
    ensures { OnOk result (out.new.items ≡ out.old.items ++ text.activate_text uid end) }
{
    out.extend_from_slice(b"+ activate ")?;
    add_uid(uid, out)?;
    out.push(b' ')?;
    out.extend_from_slice(start_word(end).as_bytes())?;
    out.extend_from_slice(b"\n")
}

// `+ store 1.1.1 15 done`
fn add_store(uid: Uid, clock: u64, end: RequestEnd, out: &mut Vec<u8>) -> Result<(), AllocError>
    ensures { OnOk result (out.new.items ≡ out.old.items ++ text.store_text uid clock end) }
{
    out.extend_from_slice(b"+ store ")?;
    add_uid(uid, out)?;
    add_num(clock, out)?;
    out.push(b' ')?;
    out.extend_from_slice(request_word(end).as_bytes())?;
    out.extend_from_slice(b"\n")
}

// The call's number and two stations.
fn add_three(call: u32, from: u8, to: u8, out: &mut Vec<u8>) -> Result<(), AllocError>
    ensures { OnOk result (out.new.items ≡ out.old.items ++ (text.num call ++ text.num from ++ text.num to)) }
{
    add_num(u64::from(call), out)?;
    add_num(u64::from(from), out)?;
    add_num(u64::from(to), out)
}

// `+ process 1.1.1 1 return 1`
fn add_process(uid: Uid, process: u8, shown: Shown, out: &mut Vec<u8>) -> Result<(), AllocError>
    ensures { OnOk result (out.new.items ≡ out.old.items ++ text.process_text uid process shown) }
{
    out.extend_from_slice(b"+ process ")?;
    add_uid(uid, out)?;
    add_num(u64::from(process), out)?;
    out.push(b' ')?;
    add_shown_word(shown, out)?;
    out.extend_from_slice(b"\n")
}

// `+ start 1 1.1.1 1`
fn add_start(call: u32, uid: Uid, process: u8, out: &mut Vec<u8>) -> Result<(), AllocError>
    ensures { OnOk result (out.new.items ≡ out.old.items ++ text.start_text call uid process) }
{
    add_numbered(b"+ start", u64::from(call), out)?;
    out.push(b' ')?;
    add_uid(uid, out)?;
    add_num(u64::from(process), out)?;
    out.extend_from_slice(b"\n")
}

// `+ call 1 a`
fn add_call(call: u32, name: &Txt, out: &mut Vec<u8>) -> Result<(), AllocError>
    ensures { OnOk result (out.new.items ≡ out.old.items ++ text.call_text call name.now) }
{
    add_numbered(b"+ call", u64::from(call), out)?;
    out.push(b' ')?;
    out.extend_from_slice(&name.bytes)?;
    out.extend_from_slice(b"\n")
}

// `+ reply 1 1 0`
fn add_reply(call: u32, from: u8, to: u8, out: &mut Vec<u8>) -> Result<(), AllocError>
    ensures { OnOk result (out.new.items ≡ out.old.items ++ text.delivered_text call from to) }
{
    out.extend_from_slice(b"+ reply")?;
    add_three(call, from, to, out)?;
    out.extend_from_slice(b"\n")
}

// The line that only a trace has.
#[tactic(auto, unfolding(crate::specs::Lines::trace_text))]
fn add_trace(event: &Event, out: &mut Vec<u8>) -> Result<(), AllocError>
    ensures { OnOk result (out.new.items ≡ out.old.items ++ text.trace_text event.now) }
{
    match event {
        Event::Link { a, b, joined } => add_link(*a, *b, *joined, out),
        Event::Armed { node, what } => add_armed(*node, *what, out),
        Event::Bound { name, held } => add_bound(name, *held, out),
        Event::Asked { call, name, .. } => add_call(*call, name, out),
        Event::Request {
            call,
            from,
            to,
            refused,
        } => add_request(*call, *from, *to, *refused, out),
        Event::Reply { call, from, to, .. } => add_reply(*call, *from, *to, out),
        Event::Activate {
            end: StartEnd::Stop,
            ..
        } => Ok(()),
        Event::Activate { uid, end, .. } => add_activate(*uid, *end, out),
        Event::Start { call, uid, process } => add_start(*call, *uid, *process, out),
        Event::Process {
            uid,
            process,
            shown,
        } => add_process(*uid, *process, *shown, out),
        Event::Store {
            end: RequestEnd::Stop,
            ..
        } => Ok(()),
        Event::Store {
            uid,
            clock,
            end,
            ..
        } => add_store(*uid, *clock, *end, out),
        _ => Ok(()),
    }
}

// `node 1`
fn add_node(node: u8, out: &mut Vec<u8>) -> Result<(), AllocError>
    ensures { OnOk result (out.new.items ≡ out.old.items ++ (codes "node" ++ text.num node)) }
{
    add_numbered(b"node", u64::from(node), out)
}

// `node 1 down stop`
fn add_down(node: u8, why: &str, out: &mut Vec<u8>) -> Result<(), AllocError>
    ensures { OnOk result (out.new.items ≡ out.old.items ++ text.down_text node why.now) }
{
    add_node(node, out)?;
    out.extend_from_slice(b" down ")?;
    out.extend_from_slice(why.as_bytes())?;
    out.extend_from_slice(b"\n")
}

// `node 1 up epoch 1`, `node 1 down damaged 0`
fn add_boot(node: u8, epoch: u32, end: BootEnd, out: &mut Vec<u8>) -> Result<(), AllocError>
    ensures { OnOk result (out.new.items ≡ out.old.items ++ text.boot_text node epoch end) }
{
    add_node(node, out)?;
    if let BootEnd::Up = end {
        add_numbered(b" up epoch", u64::from(epoch), out)?;
    } else {
        out.extend_from_slice(b" down ")?;
        add_boot_word(end, out)?;
    }
    out.extend_from_slice(b"\n")
}

// `node 1 is up`
fn add_still(node: u8, up: bool, out: &mut Vec<u8>) -> Result<(), AllocError>
    ensures { OnOk result (out.new.items ≡ out.old.items ++ text.still_text node up) }
{
    add_node(node, out)?;
    out.extend_from_slice(if up { b" is up\n" } else { b" is down\n" })
}

// `c is 1.1.1`
fn add_made(
    name: &Txt,
    status: Status,
    uid: Option<Uid>,
    out: &mut Vec<u8>,
) -> Result<(), AllocError>
    ensures { OnOk result (out.new.items ≡ out.old.items ++ text.made_text name.now status uid) }
{
    let Some(uid) = uid else {
        return add_refused(name, status, out);
    };
    out.extend_from_slice(&name.bytes)?;
    out.extend_from_slice(b" is ")?;
    add_uid(uid, out)?;
    out.extend_from_slice(b"\n")
}

// `, 5, "a"`
fn add_behind(alloc: Global, values: &[Value], out: &mut Vec<u8>) -> Result<(), AllocError>
    ensures { OnOk result (out.new.items ≡ out.old.items ++ row_behind (datums values.now)) }
{
    for value in values {
        out.extend_from_slice(b", ")?;
        print(alloc, value, out)?;
    }
    Ok(())
}

// `5, "a"`
fn add_row(alloc: Global, values: &[Value], out: &mut Vec<u8>) -> Result<(), AllocError>
    ensures { OnOk result (out.new.items ≡ out.old.items ++ printed_row (datums values.now)) }
{
    let [first, more @ ..] = values else {
        return Ok(());
    };
    print(alloc, first, out)?;
    add_behind(alloc, more, out)
}

// `a ok (5)`, `a refused 4 gone`
fn add_answer(
    alloc: Global,
    name: &Txt,
    status: Status,
    results: &[Value],
    out: &mut Vec<u8>,
) -> Result<(), AllocError>
    ensures { OnOk result (out.new.items ≡ out.old.items ++ text.answer_text name.now status (datums results.now)) }
{
    if let Status::Ok = status {
        out.extend_from_slice(&name.bytes)?;
        out.extend_from_slice(b" ok (")?;
        add_row(alloc, results, out)?;
        out.extend_from_slice(b")\n")
    } else {
        add_refused(name, status, out)
    }
}

// `eject 1.1.1 fault budget`
fn add_fault(uid: Uid, shown: Shown, out: &mut Vec<u8>) -> Result<(), AllocError>
    ensures { OnOk result (out.new.items ≡ out.old.items ++ text.fault_text uid shown) }
{
    let Shown::Fault { cause } = shown else {
        return Ok(());
    };
    out.extend_from_slice(b"eject ")?;
    add_uid(uid, out)?;
    out.extend_from_slice(b" fault ")?;
    out.extend_from_slice(fault_word(cause).as_bytes())?;
    out.extend_from_slice(b"\n")
}

// `open a`
fn add_open(names: &[Txt], out: &mut Vec<u8>) -> Result<(), AllocError>
    ensures { OnOk result (out.new.items ≡ out.old.items ++ text.open_text names.now) }
{
    for name in names {
        out.extend_from_slice(b"open ")?;
        out.extend_from_slice(&name.bytes)?;
        out.push(b'\n')?;
    }
    Ok(())
}

// `a refused 6 broken`
fn add_broken_line(name: &Txt, out: &mut Vec<u8>) -> Result<(), AllocError>
    ensures { OnOk result (out.new.items ≡ out.old.items ++ text.broken_line name.now) }
{
    out.extend_from_slice(&name.bytes)?;
    out.extend_from_slice(b" refused 6 broken\n")
}

// A line for each of these calls.
fn add_broken(names: &[Txt], out: &mut Vec<u8>) -> Result<(), AllocError>
    ensures { OnOk result (out.new.items ≡ out.old.items ++ text.broken_text names.now) }
{
    for name in names {
        add_broken_line(name, out)?;
    }
    Ok(())
}

// `a void`
fn add_void(name: &Txt, out: &mut Vec<u8>) -> Result<(), AllocError>
    ensures { OnOk result (out.new.items ≡ out.old.items ++ (name.now ++ codes " void\n")) }
{
    out.extend_from_slice(&name.bytes)?;
    out.extend_from_slice(b" void\n")
}

// The lines that every mode but the summary has.
#[tactic(auto, unfolding(crate::specs::Lines::shown_text))]
fn add_shown(alloc: Global, event: &Event, out: &mut Vec<u8>) -> Result<(), AllocError>
    ensures { OnOk result (out.new.items ≡ out.old.items ++ text.shown_text event.now) }
{
    match event {
        Event::Boot {
            node,
            epoch,
            end,
            ..
        } => add_boot(*node, *epoch, *end, out),
        Event::Crash { node } => add_down(*node, "crash", out),
        Event::Still { node, up } => add_still(*node, *up, out),
        Event::Made { name, status, uid } => add_made(name, *status, *uid, out),
        Event::Void { name } => add_void(name, out),
        Event::Asked {
            name,
            at_once: Some(status),
            ..
        } => add_refused(name, *status, out),
        Event::Reply {
            name: Some(name),
            status,
            results,
            ..
        } => add_answer(alloc, name, *status, &results.values, out),
        Event::Activate {
            uid,
            end: StartEnd::Stop,
            ..
        } => add_down(uid.node, "stop", out),
        Event::Process { uid, shown, .. } => add_fault(*uid, *shown, out),
        Event::Store {
            uid,
            end: RequestEnd::Stop,
            ..
        } => add_down(uid.node, "stop", out),
        Event::Quiet => out.extend_from_slice(b"quiet\n"),
        Event::Spent => out.extend_from_slice(b"spent\n"),
        Event::Left { names } => add_open(&names.items, out),
        _ => Ok(()),
    }
}

// What a settling of the event picked.
fn pick_of(event: &Event) -> Option<Pick>
    ensures { result ≡ text.pick_of event.now }
{
    match event {
        Event::Boot { pick, .. } | Event::Activate { pick, .. } | Event::Store { pick, .. } => {
            *pick
        }
        _ => None,
    }
}

fn began_word(event: &Event) -> &'static str
    ensures { result.now ≡ text.began_word event.now }
{
    match event {
        Event::Boot { began: true, .. } => "yes",
        Event::Boot { began: false, .. } => "no",
        _ => "-",
    }
}

// `+ disk 1 15 - -`
fn add_disk(entry: &Entry, out: &mut Vec<u8>) -> Result<(), AllocError>
    ensures { OnOk result (out.new.items ≡ out.old.items ++ text.disk_text entry.now) }
{
    if entry.node == 0 {
        return Ok(());
    }
    add_numbered(b"+ disk", u64::from(entry.node), out)?;
    add_num(entry.clock, out)?;
    out.push(b' ')?;
    out.extend_from_slice(pick_word(pick_of(&entry.event)).as_bytes())?;
    out.push(b' ')?;
    out.extend_from_slice(began_word(&entry.event).as_bytes())?;
    out.extend_from_slice(b"\n")
}

#[tactic(auto, unfolding(crate::specs::Lines::entry_text))]
fn add_entry(alloc: Global, mode: Mode, entry: &Entry, out: &mut Vec<u8>) -> Result<(), AllocError>
    ensures { OnOk result (out.new.items ≡ out.old.items ++ text.entry_text mode entry.now) }
{
    match mode {
        Mode::Summary => Ok(()),
        Mode::Plain => {
            add_shown(alloc, &entry.event, out)?;
            add_broken(&entry.broken.items, out)
        }
        Mode::Trace => {
            add_trace(&entry.event, out)?;
            add_shown(alloc, &entry.event, out)?;
            add_broken(&entry.broken.items, out)
        }
        Mode::Full => {
            add_trace(&entry.event, out)?;
            add_shown(alloc, &entry.event, out)?;
            add_broken(&entry.broken.items, out)?;
            add_disk(entry, out)
        }
    }
}

/// Appends the lines of an entry in this mode, none in the mode Summary. Where memory runs out, `out` is as before.
pub fn line(alloc: Global, mode: Mode, entry: &Entry, out: &mut Vec<u8>) -> Result<(), AllocError>
    ensures ok { OnOk result (out.new.items ≡ out.old.items ++ text.entry_text mode entry.now) }
    ensures err { OnErr result (out.new.items ≡ out.old.items) }
{
    let mut text = Vec::new(alloc);
    add_entry(alloc, mode, entry, &mut text)?;
    out.extend_from_slice(&text)
}
