//! The ends of all pairs of stations.

ghost use Rattle.std.specs.Prelude.{◌≡◌, ◌≤◌, ◌<◌, ◌+◌, ◌-◌, ◌^◌, is_some, length, IfOk};
ghost use Rattle.std.specs.Option.{option_map};
ghost use Rattle.eden_value.specs.Datum.{Datum};
ghost use Rattle.lossy_wire.specs.Wire as wire;
ghost use Rattle.lossy_wire.specs.Wire.{IsStation, carried, heard, pair_at};
ghost use Rattle.lossy_wire.specs.Held as held;
ghost use Rattle.lossy_wire.specs.Held.{Keeps, OfWire, held_at};
ghost use Rattle.lossy_wire.specs.View.{header, with_value};

use crate::end;
use crate::end::End;
use crate::packet::Header;
use std::alloc::{AllocError, Global};
use std::marker::Model;

/// What a packet brings.
#[derive(Clone, Copy, Debug, PartialEq, Eq)]
pub struct Taken {
    /// Whether its value is delivered.
    pub delivers: bool,
    /// The header of the packet that answers it, which goes back.
    pub reply: Option<Header>,
}

/// What the stations keep, for each ordered pair of them: three numbers. The values stay with whoever sends them, who knows each by its
/// number among those of its pair.
///
/// Contracts see it as the list of what is kept of each pair of eight stations, and say what becomes of whichever wire these are the ends
/// of, whatever the values in its packets.
#[derive(Drop)]
pub struct Ends {
    ends: Vec<End>,
}

impl Model for Ends {
    ghost use Rattle.std.specs.Prelude.{◌≡◌, List, map, length};
    ghost use Rattle.lossy_wire.specs.Held.{Held, coded_ends};
    ghost use Rattle.lossy_wire.specs.View.{held_of};

    ghost Value = { List Held };

    ghost coded = { coded_ends };

    ghost view = { λ e. map held_of e.ends.items };

    ghost invariant = { λ e. length e.ends.items ≡ 64 };
}

/// The place of a pair of stations.
pub fn slot(a: u8, b: u8) -> usize
    requires first { IsStation a }
    requires second { IsStation b }
    ensures place { result ≡ wire.slot a b }
    ensures within { result < 64 }
{
    (a as usize - 1) * 8 + (b as usize - 1)
}

impl Ends {
    /// The ends of 2 to 8 stations, at rest. There is room for eight, however many there are.
    pub fn new(alloc: Global, stations: u8) -> Result<Ends, AllocError>
        requires { (2 ≤ stations) × (stations ≤ 8) }
        ensures { IfOk result (λ e. Keeps e wire.quiet) }
    {
        let mut ends = Vec::with_capacity(alloc, 64)?;
        for i in 0..64 {
            let _i: usize = i;
            ends.push(end::fresh())?;
        }
        Ok(Ends { ends })
    }

    /// How many pairs there are.
    pub fn count(&self) -> usize
        ensures pairs { result ≡ length self.now }
        ensures all { result ≡ 64 }
    {
        self.ends.len()
    }

    /// How many values were sent from station a to station b.
    pub fn sent(&self, a: u8, b: u8) -> u32
        requires first { IsStation a }
        requires second { IsStation b }
        ensures { result ≡ (held_at self.now a b).sent }
    {
        self.ends[slot(a, b)].sent
    }

    /// How many of them station a knows to be delivered.
    pub fn known(&self, a: u8, b: u8) -> u32
        requires first { IsStation a }
        requires second { IsStation b }
        ensures { result ≡ (held_at self.now a b).known }
    {
        self.ends[slot(a, b)].known
    }

    /// How many of them were delivered.
    pub fn delivered(&self, a: u8, b: u8) -> u32
        requires first { IsStation a }
        requires second { IsStation b }
        ensures { result ≡ (held_at self.now a b).delivered }
    {
        self.ends[slot(a, b)].delivered
    }

    /// Sends a value from station a to station b, and gives the header of its packet.
    pub fn send(&mut self, a: u8, b: u8) -> Header
        requires first { IsStation a }
        requires second { IsStation b }
        requires room { (held_at self.old a b).sent < 2 ^ 32 - 1 }
        ensures sent { OfWire self.old (λ w. (d : Datum) → Keeps self.new (wire.send w a b d)) }
        ensures packet { OfWire self.old (λ w. (d : Datum) → result ≡ header (carried (length (pair_at w a b).sent + 1) d)) }
    {
        end::send(&mut self.ends[slot(a, b)])
    }

    /// The header of the packet with the first value that station a does not know to be delivered at station b, if there is one.
    pub fn again(&self, a: u8, b: u8) -> Option<Header>
        requires first { IsStation a }
        requires second { IsStation b }
        ensures { OfWire self.now (λ w. result ≡ option_map header (wire.due (pair_at w a b))) }
    {
        end::due(&self.ends[slot(a, b)])
    }

    /// Takes a packet with this header from station a at station b, whatever the value in it: whether the value is delivered, and the
    /// header of its answer.
    pub fn take(&mut self, a: u8, b: u8, packet: Header) -> Taken
        requires first { IsStation a }
        requires second { IsStation b }
        ensures taken { OfWire self.old (λ w. (d : Datum) → Keeps self.new (wire.taken w a b (with_value d packet))) }
        ensures delivers { OfWire self.old (λ w. (d : Datum) →
            result.delivers ≡ is_some (wire.arriving (pair_at w a b) (with_value d packet))) }
        ensures reply { OfWire self.old (λ w. (d : Datum) →
            result.reply ≡ option_map header (wire.reply_to (pair_at w a b) (with_value d packet))) }
    {
        match packet {
            Header::Carried { number } => self.take_value(a, b, number),
            Header::Known { upto } => {
                self.take_number(a, b, upto);
                Taken {
                    delivers: false,
                    reply: None,
                }
            }
        }
    }

    /// Takes a value with its number.
    fn take_value(&mut self, a: u8, b: u8, number: u32) -> Taken
        requires first { IsStation a }
        requires second { IsStation b }
        ensures taken { OfWire self.old (λ w. (d : Datum) → Keeps self.new (wire.taken w a b (carried number d))) }
        ensures delivers { OfWire self.old (λ w. (d : Datum) →
            result.delivers ≡ is_some (wire.arriving (pair_at w a b) (carried number d))) }
        ensures reply { OfWire self.old (λ w. (d : Datum) →
            result.reply ≡ option_map header (wire.reply_to (pair_at w a b) (carried number d))) }
    {
        let end = &mut self.ends[slot(a, b)];
        let delivers = end::deliver(end, number);
        let upto = end.delivered;
        Taken {
            delivers,
            reply: Some(Header::Known { upto }),
        }
    }

    /// Takes a number of delivered values.
    fn take_number(&mut self, a: u8, b: u8, upto: u32)
        requires first { IsStation a }
        requires second { IsStation b }
        ensures { OfWire self.old (λ w. Keeps self.new (wire.taken w a b (heard upto))) }
    {
        end::hear(&mut self.ends[slot(b, a)], upto);
    }
}
