//! The two ends of an ordered pair of stations.

ghost use Rattle.std.specs.Prelude.{◌≡◌, ◌<◌, ◌+◌, ◌-◌, ◌^◌};
ghost use Rattle.eden_value.specs.Datum.{Datum};
ghost use Rattle.lossy_wire.specs.Wire.{carried};
ghost use Rattle.lossy_wire.specs.Held as held;
ghost use Rattle.lossy_wire.specs.View.{header, held_of};

use crate::packet::Header;

/// What the ends of an ordered pair keep: at the first station, how many values it sent, and how many of them it knows to be delivered; at
/// the second, how many were delivered.
#[derive(Clone, Copy, Debug, PartialEq, Eq)]
pub struct End {
    pub sent: u32,
    pub known: u32,
    pub delivered: u32,
}

/// Nothing was sent.
pub fn fresh() -> End
    ensures { held_of result ≡ held.fresh }
{
    End {
        sent: 0,
        known: 0,
        delivered: 0,
    }
}

/// Sends a value, and gives the header of its packet.
pub fn send(end: &mut End) -> Header
    requires room { (held_of end.old).sent < 2 ^ 32 - 1 }
    ensures end { held_of end.new ≡ held.held_sent (held_of end.old) }
    ensures packet { (d : Datum) → result ≡ header (carried ((held_of end.old).sent + 1) d) }
{
    end.sent += 1;
    Header::Carried { number: end.sent }
}

/// The header of the first value that is not known to be delivered, if there is one.
pub fn due(end: &End) -> Option<Header>
    ensures { result ≡ held.held_due (held_of end.now) }
{
    if end.known < end.sent {
        Some(Header::Carried {
            number: end.known + 1,
        })
    } else {
        None
    }
}

/// A value with this number came: whether it is the next one, which is delivered.
pub fn deliver(end: &mut End, number: u32) -> bool
    ensures end { held_of end.new ≡ held.held_delivered (held_of end.old) number }
    ensures delivers { result ≡ held.held_next (held_of end.old) number }
{
    let next = number > 0 && number - 1 == end.delivered;
    if next {
        end.delivered = number;
    }
    next
}

/// So many values are said to be delivered.
pub fn hear(end: &mut End, upto: u32)
    ensures { held_of end.new ≡ held.held_told (held_of end.old) upto }
{
    if end.known < upto && upto <= end.sent {
        end.known = upto;
    }
}
