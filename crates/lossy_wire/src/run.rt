//! A run of a script of a wire.

ghost use Rattle.std.specs.Prelude.{◌≡◌, ◌≤◌, ◌<◌, ◌-◌, ◌++◌, ◌^◌, length, IfOk, IfErr, OnOk};
ghost use Rattle.eden_value.specs.Datum.{Datum};
ghost use Rattle.line_forms.specs.Scripts.{IsRefusal};
ghost use Rattle.lossy_wire.specs.Commands as spec;
ghost use Rattle.lossy_wire.specs.Commands.{IsInReach};
ghost use Rattle.lossy_wire.specs.Held.{held_at};
ghost use Rattle.lossy_wire.specs.Spots.{IsCommandAt};
ghost use Rattle.lossy_wire.specs.Sums.{held_sum, held_sums, held_in};
ghost use Rattle.lossy_wire.specs.Texts.{IsText, lines, next};
ghost use Rattle.lossy_wire.specs.View.{meant};
ghost use Rattle.lossy_wire.specs.Wire.{IsStation, quiet};
ghost use Rattle.lossy_wire.specs.World.{HasRoom, HasValue, IsHeld, IsOf, OfAny, Shows, again_text, no_packet, number_by};
ghost use Rattle.lossy_wire.specs.declared.commands.Script.{Script};

use crate::commands::{Script, WireCommand, command, read_script, row, value_at};
use crate::ends::{Ends, Taken};
use crate::lists::Lists;
use crate::packet::Header;
use crate::text::{add_delivery, add_sum};
use line_forms::Rows;
use script_words::ScriptRefusal;
use std::alloc::{AllocError, Global};

/// The ends of all pairs of stations, and the wire between them. Of the values that were sent there is where in the script they begin.
#[derive(Drop)]
pub struct World {
    pub ends: Ends,
    pub sent: Lists<u32>,
    pub packets: Lists<Header>,
}

fn new_world(alloc: Global, stations: u8) -> Result<World, AllocError>
    requires { (2 ≤ stations) × (stations ≤ 8) }
    ensures { IfOk result (λ world. (s : Script) → IsOf s world quiet) }
{
    Ok(World {
        ends: Ends::new(alloc, stations)?,
        sent: Lists::new(alloc)?,
        packets: Lists::new(alloc)?,
    })
}

/// Sends the value of the row that begins at a spot.
fn send(world: &mut World, a: u8, b: u8, spot: u32) -> Result<(), AllocError>
    requires first { IsStation a }
    requires second { IsStation b }
    requires room { (held_at world.old.ends a b).sent < 2 ^ 32 - 1 }
    ensures { OnOk result ((s : Script) (d : Datum) → IsCommandAt s spot (spec.sends a b d)
        → OfAny s world.old (λ w. IsOf s world.new (next w (spec.sends a b d)))) }
{
    let packet = world.ends.send(a, b);
    world.sent.push(a, b, spot)?;
    world.packets.push(a, b, packet)
}

/// The line of what is sent again, if nothing is.
fn add_again(packet: Option<Header>, out: &mut Vec<u8>) -> Result<(), AllocError>
    ensures { OnOk result (out.new.items ≡ out.old.items ++ again_text packet) }
{
    if packet.is_none() {
        out.extend_from_slice(b"nothing\n")?;
    }
    Ok(())
}

fn again(world: &mut World, a: u8, b: u8, out: &mut Vec<u8>) -> Result<(), AllocError>
    requires first { IsStation a }
    requires second { IsStation b }
    ensures world { OnOk result ((s : Script) → OfAny s world.old (λ w. IsOf s world.new (next w (spec.repeats a b)))) }
    ensures text { OnOk result ((s : Script) → OfAny s world.old (λ w. out.new.items ≡ out.old.items ++ lines w (spec.repeats a b))) }
{
    let packet = world.ends.again(a, b);
    add_again(packet, out)?;
    world.packets.push_by(a, b, packet)
}

/// The number of the value behind a header, if it is delivered.
fn delivered(packet: Header, delivers: bool) -> Option<u32>
    ensures { result ≡ number_by packet delivers }
{
    match packet {
        Header::Carried { number } if delivers => Some(number),
        _ => None,
    }
}

/// The line of the value with a number, which is delivered, if one is.
fn add_value(
    alloc: Global,
    script: Script,
    sent: &Lists<u32>,
    a: u8,
    b: u8,
    number: Option<u32>,
    out: &mut Vec<u8>,
) -> Result<(), AllocError>
    requires first { IsStation a }
    requires second { IsStation b }
    requires value { HasValue script sent.now a b number }
    ensures { OnOk result (Shows script.entry sent.now a b number out.old.items out.new.items) }
{
    let Some(number) = number else {
        return Ok(());
    };
    let Some(spot) = sent.at(a, b, number) else {
        unreachable!();
    };
    let value = value_at(alloc, script, spot)?;
    add_delivery(alloc, a, b, &value, out)
}

/// The line of a packet that is not there.
fn add_missing(out: &mut Vec<u8>) -> Result<(), AllocError>
    ensures { OnOk result (out.new.items ≡ out.old.items ++ no_packet) }
{
    out.extend_from_slice(b"no packet\n")
}

fn carry(
    alloc: Global,
    script: Script,
    world: &mut World,
    a: u8,
    b: u8,
    i: u32,
    out: &mut Vec<u8>,
) -> Result<(), AllocError>
    requires first { IsStation a }
    requires second { IsStation b }
    requires number { 1 ≤ i }
    requires held { IsHeld script world.old }
    ensures world { OnOk result (OfAny script.entry world.old (λ w. IsOf script.entry world.new (next w (spec.carries a b i)))) }
    ensures text { OnOk result (OfAny script.entry world.old (λ w. out.new.items ≡ out.old.items ++ lines w (spec.carries a b i))) }
{
    let Some(packet) = world.packets.at(a, b, i) else {
        return add_missing(out);
    };
    let Taken { delivers, reply } = world.ends.take(a, b, packet);
    let number = delivered(packet, delivers);
    add_value(alloc, script, &world.sent, a, b, number, out)?;
    world.packets.push_by(b, a, reply)
}

fn act(
    alloc: Global,
    script: Script,
    world: &mut World,
    spot: u32,
    command: &WireCommand,
    out: &mut Vec<u8>,
) -> Result<(), AllocError>
    requires reach { IsInReach (meant command.now) }
    requires there { IsCommandAt script spot (meant command.now) }
    requires held { IsHeld script world.old }
    requires room { HasRoom world.old }
    ensures world { OnOk result (OfAny script.entry world.old (λ w. IsOf script.entry world.new (next w (meant command.now)))) }
    ensures text { OnOk result (OfAny script.entry world.old (λ w. out.new.items ≡ out.old.items ++ lines w (meant command.now))) }
{
    match command {
        WireCommand::Send { a, b, .. } => send(world, *a, *b, spot),
        WireCommand::Again { a, b } => again(world, *a, *b, out),
        WireCommand::Carry { a, b, i } => carry(alloc, script, world, *a, *b, *i, out),
    }
}

/// Carries a command out, whose row begins at a spot, and lets it go.
fn step(
    alloc: Global,
    script: Script,
    world: &mut World,
    spot: u32,
    command: WireCommand,
    out: &mut Vec<u8>,
) -> Result<(), AllocError>
    requires reach { IsInReach (meant command) }
    requires there { IsCommandAt script spot (meant command) }
    requires held { IsHeld script world.old }
    requires room { HasRoom world.old }
    ensures world { OnOk result (OfAny script.entry world.old (λ w. IsOf script.entry world.new (next w (meant command)))) }
    ensures text { OnOk result (OfAny script.entry world.old (λ w. out.new.items ≡ out.old.items ++ lines w (meant command))) }
{
    let done = act(alloc, script, world, spot, &command, out);
    drop(command);
    done
}

fn add_sum_of(ends: &Ends, k: usize, out: &mut Vec<u8>) -> Result<(), AllocError>
    requires { k < 64 }
    ensures { OnOk result (out.new.items ≡ out.old.items ++ held_sum k (held_in ends.now k)) }
{
    let a = (k / 8 + 1) as u8;
    let b = (k % 8 + 1) as u8;
    add_sum(
        k,
        ends.sent(a, b),
        ends.known(a, b),
        ends.delivered(a, b),
        out,
    )
}

/// The last lines, of all pairs.
fn add_sums(ends: &Ends, out: &mut Vec<u8>) -> Result<(), AllocError>
    ensures { OnOk result (out.new.items ≡ out.old.items ++ held_sums 0 ends.now) }
{
    let count = ends.count();
    for k in 0..count {
        add_sum_of(ends, k, out)?;
    }
    Ok(())
}

/// What a script of a wire writes; or its first bad line with the first cause.
pub fn run_wire(alloc: Global, bytes: &[u8]) -> Result<Vec<u8>, ScriptRefusal>
    requires { length bytes.now < 2 ^ 31 }
    ensures text { IfOk result (λ text. IsText bytes.now text.items) }
    ensures bad { IfErr result (IsRefusal spec.wire_kind bytes.now) }
{
    let Rows { most, spots } = read_script(alloc, bytes)?;
    let script = Script {
        bytes,
        stations: most,
    };
    let mut world = new_world(alloc, most as u8)?;
    let mut text = Vec::new(alloc);
    for spot in spots {
        let row = row(alloc, script, spot)?;
        step(alloc, script, &mut world, spot, command(row), &mut text)?;
    }
    add_sums(&world.ends, &mut text)?;
    Ok(text)
}
