//! The commands of a script of a wire.

ghost use Rattle.std.specs.Prelude.{◌≡◌, ◌≤◌, ◌<◌, ◌^◌, length, map, Some, IfOk, IfErr};
ghost use Rattle.eden_value.specs.Datum.{Datum};
ghost use Rattle.eden_value.specs.View.{datum};
ghost use Rattle.line_forms.specs.Forms as forms;
ghost use Rattle.line_forms.specs.Scripts.{IsRefusal};
ghost use Rattle.line_forms.specs.Spots.{IsRowAt};
ghost use Rattle.line_forms.specs.View.{kind_of, row_of};
ghost use Rattle.lossy_wire.specs.Commands as spec;
ghost use Rattle.lossy_wire.specs.Commands.{IsInReach, IsMeant, HasMeaning};
ghost use Rattle.lossy_wire.specs.Spots.{IsReadAs, IsValueAt};
ghost use Rattle.lossy_wire.specs.View.{meant};

use eden_value::Value;
use line_forms::{
    Bound, Ending, Form, Kind, Last, Mark, Place, Row, Rows, read_rows, row_at, rows_are_fit,
};
use script_words::ScriptRefusal;
use std::alloc::{AllocError, Global};

/// The bytes of a script, and the number of its stations.
#[derive(Clone, Copy)]
pub struct Script<'a> {
    pub bytes: &'a [u8],
    pub stations: u32,
}

/// What a line asks for.
#[derive(Drop)]
pub enum WireCommand {
    /// Station a sends a value to station b.
    Send { a: u8, b: u8, value: Value },
    /// Station a sends again what it does not know to be delivered at station b.
    Again { a: u8, b: u8 },
    /// The packet with this number, from 1, of those from station a to station b, comes.
    Carry { a: u8, b: u8, i: u32 },
}

const STATION: Place = Place {
    mark: Mark::Blank,
    low: 1,
    high: Bound::Station,
};

const NUMBER: Place = Place {
    mark: Mark::Blank,
    low: 1,
    high: Bound::UpTo { most: 4294967295 },
};

const COUNT: Place = Place {
    mark: Mark::Blank,
    low: 2,
    high: Bound::UpTo { most: 8 },
};

const STATIONS: Form<'static> = Form {
    word: b"stations",
    places: &[COUNT],
    ending: Ending::Nothing,
};

const SEND: Form<'static> = Form {
    word: b"send",
    places: &[STATION, STATION],
    ending: Ending::Value,
};

const AGAIN: Form<'static> = Form {
    word: b"again",
    places: &[STATION, STATION],
    ending: Ending::Nothing,
};

const CARRY: Form<'static> = Form {
    word: b"carry",
    places: &[STATION, STATION, NUMBER],
    ending: Ending::Nothing,
};

/// The lines of a script of a wire.
const WIRE: Kind<'static> = Kind {
    first: STATIONS,
    others: &[SEND, AGAIN, CARRY],
};

fn wire_kind() -> Kind<'static>
    ensures { kind_of result ≡ spec.wire_kind }
{
    WIRE
}

/// The script of a wire: the number of stations, and where its rows begin, each of which has a command.
pub fn read_script(alloc: Global, bytes: &[u8]) -> Result<Rows, ScriptRefusal>
    requires { length bytes.now < 2 ^ 31 }
    ensures script { IfOk result (λ s. IsReadAs bytes.now s.most s.spots.items) }
    ensures stations { IfOk result (λ s. (2 ≤ s.most) × (s.most ≤ 8)) }
    ensures bad { IfErr result (IsRefusal spec.wire_kind bytes.now) }
{
    rows_are_fit();
    read_rows(alloc, &wire_kind(), bytes)
}

/// The row that begins at a spot, read again.
pub fn row(alloc: Global, script: Script, spot: u32) -> Result<Row, AllocError>
    requires { (r : forms.Row) × IsRowAt spec.wire_kind script.bytes.now script.stations spot r }
    ensures { IfOk result (λ row. (r : forms.Row)
        → IsRowAt spec.wire_kind script.entry.bytes.now script.entry.stations spot r → r ≡ row_of row) }
{
    row_at(alloc, &wire_kind(), script.stations, script.bytes, spot)
}

/// The value of the row that begins at a spot, read again.
pub fn value_at(alloc: Global, script: Script, spot: u32) -> Result<Value, AllocError>
    requires { (d : Datum) × IsValueAt script spot d }
    ensures { IfOk result (λ value. (d : Datum) → IsValueAt script.entry spot d → datum value ≡ d) }
{
    let Row { last, .. } = row(alloc, script, spot)?;
    match last {
        Last::Datum { value } => Ok(value),
        _ => unreachable!(),
    }
}

/// The command of a form that ends with a value.
fn valued(form: usize, numbers: &[u32], value: Value) -> WireCommand
    requires { IsMeant (spec.command_by form numbers.now (forms.datum (datum value))) }
    ensures command { spec.command_by form numbers.now (forms.datum (datum value)) ≡ Some (meant result) }
    ensures reach { IsInReach (meant result) }
{
    match numbers {
        [a, b] if form == 0 => WireCommand::Send {
            a: *a as u8,
            b: *b as u8,
            value,
        },
        _ => unreachable!(),
    }
}

/// The command of a form that ends with its numbers.
fn bare(form: usize, numbers: &[u32]) -> WireCommand
    requires { IsMeant (spec.command_by form numbers.now forms.nothing) }
    ensures command { spec.command_by form numbers.now forms.nothing ≡ Some (meant result) }
    ensures reach { IsInReach (meant result) }
{
    match numbers {
        [a, b] if form == 1 => WireCommand::Again {
            a: *a as u8,
            b: *b as u8,
        },
        [a, b, i] if form == 2 => WireCommand::Carry {
            a: *a as u8,
            b: *b as u8,
            i: *i,
        },
        _ => unreachable!(),
    }
}

/// The command of a row that has one.
pub fn command(row: Row) -> WireCommand
    requires { HasMeaning (row_of row) }
    ensures command { spec.command_of (row_of row) ≡ Some (meant result) }
    ensures reach { IsInReach (meant result) }
{
    let Row {
        form,
        numbers,
        last,
    } = row;
    match last {
        Last::Datum { value } => valued(form, &numbers, value),
        Last::Nothing => bare(form, &numbers),
        _ => unreachable!(),
    }
}
