//! A script of pairs of disks is read.
ghost use Rattle.std.specs.Prelude.{◌≡◌, ◌<◌, ◌^◌, length, map, Some, IfOk, IfErr};
ghost use Rattle.line_forms.specs.Forms as forms;
ghost use Rattle.line_forms.specs.Scripts.{IsRefusal};
ghost use Rattle.line_forms.specs.Spots.{IsRowAt};
ghost use Rattle.line_forms.specs.View.{kind_of, last_of, row_of};
ghost use Rattle.twin_world.specs.Commands as spec;
ghost use Rattle.twin_world.specs.Scripts.{IsTwinScript, IsMeant, HasMeaning, IsReadAs};
ghost use Rattle.twin_world.specs.View.{meant};

use crate::commands::{TwinCommand, TwinScript};
use line_forms::{
    Bound, Ending, Form, Kind, Last, Mark, Place, Row, Rows, read_rows, row_at, rows_are_fit,
};
use script_words::ScriptRefusal;
use std::alloc::{AllocError, Global};

const NODE: Place = Place {
    mark: Mark::Blank,
    low: 1,
    high: Bound::UpTo { most: 4 },
};

const DISK: Place = Place {
    mark: Mark::Blank,
    low: 1,
    high: Bound::UpTo { most: 8 },
};

const SERIAL: Place = Place {
    mark: Mark::Blank,
    low: 1,
    high: Bound::UpTo { most: 4294967295 },
};

const DELAY: Place = Place {
    mark: Mark::Blank,
    low: 1,
    high: Bound::UpTo { most: 1000000 },
};

const TWINS: Form<'static> = Form {
    word: b"twins",
    places: &[],
    ending: Ending::Nothing,
};

const OPEN: Form<'static> = Form {
    word: b"open",
    places: &[NODE],
    ending: Ending::Nothing,
};

const PUT: Form<'static> = Form {
    word: b"put",
    places: &[NODE, SERIAL],
    ending: Ending::Text,
};

const GET: Form<'static> = Form {
    word: b"get",
    places: &[NODE, SERIAL],
    ending: Ending::Nothing,
};

const DELETE: Form<'static> = Form {
    word: b"delete",
    places: &[NODE, SERIAL],
    ending: Ending::Nothing,
};

const CLOSE: Form<'static> = Form {
    word: b"close",
    places: &[NODE],
    ending: Ending::Nothing,
};

const BLANK: Form<'static> = Form {
    word: b"blank",
    places: &[DISK],
    ending: Ending::Nothing,
};

const FAIL: Form<'static> = Form {
    word: b"fail",
    places: &[DISK, DELAY],
    ending: Ending::Nothing,
};

const STOP: Form<'static> = Form {
    word: b"stop",
    places: &[DISK, DELAY],
    ending: Ending::Mode,
};

/// The lines of a script of pairs of disks.
const PAIRS: Kind<'static> = Kind {
    first: TWINS,
    others: &[OPEN, PUT, GET, DELETE, CLOSE, BLANK, FAIL, STOP],
};

fn twin_kind() -> Kind<'static>
    ensures { kind_of result ≡ spec.twin_kind }
{
    PAIRS
}

/// Where the rows of a script begin, each of which has a command.
fn read_spots(alloc: Global, bytes: &[u8]) -> Result<Rows, ScriptRefusal>
    requires { length bytes.now < 2 ^ 31 }
    ensures script { IfOk result (λ s. IsReadAs bytes.now s.most s.spots.items) }
    ensures bad { IfErr result (IsRefusal spec.twin_kind bytes.now) }
{
    rows_are_fit();
    read_rows(alloc, &twin_kind(), bytes)
}

/// The row that begins at a spot.
fn row(alloc: Global, bytes: &[u8], most: u32, spot: u32) -> Result<Row, AllocError>
    requires { (r : forms.Row) × IsRowAt spec.twin_kind bytes.now most spot r }
    ensures { IfOk result (λ row. (r : forms.Row) → IsRowAt spec.twin_kind bytes.now most spot r → r ≡ row_of row) }
{
    row_at(alloc, &twin_kind(), most, bytes, spot)
}

fn open_command(numbers: &[u32], last: Last) -> TwinCommand
    requires { IsMeant (spec.open_row numbers.now (last_of last)) }
    ensures { spec.open_row numbers.now (last_of last) ≡ Some (meant result) }
{
    match numbers {
        [n] => match last {
            Last::Nothing => TwinCommand::Open { n: *n as u8 },
            _ => unreachable!(),
        },
        _ => unreachable!(),
    }
}

fn put_command(numbers: &[u32], last: Last) -> TwinCommand
    requires { IsMeant (spec.put_row numbers.now (last_of last)) }
    ensures { spec.put_row numbers.now (last_of last) ≡ Some (meant result) }
{
    match numbers {
        [n, serial] => match last {
            Last::Text { text } => TwinCommand::Put {
                n: *n as u8,
                serial: *serial,
                text,
            },
            _ => unreachable!(),
        },
        _ => unreachable!(),
    }
}

fn get_command(numbers: &[u32], last: Last) -> TwinCommand
    requires { IsMeant (spec.get_row numbers.now (last_of last)) }
    ensures { spec.get_row numbers.now (last_of last) ≡ Some (meant result) }
{
    match numbers {
        [n, serial] => match last {
            Last::Nothing => TwinCommand::Get {
                n: *n as u8,
                serial: *serial,
            },
            _ => unreachable!(),
        },
        _ => unreachable!(),
    }
}

fn delete_command(numbers: &[u32], last: Last) -> TwinCommand
    requires { IsMeant (spec.delete_row numbers.now (last_of last)) }
    ensures { spec.delete_row numbers.now (last_of last) ≡ Some (meant result) }
{
    match numbers {
        [n, serial] => match last {
            Last::Nothing => TwinCommand::Delete {
                n: *n as u8,
                serial: *serial,
            },
            _ => unreachable!(),
        },
        _ => unreachable!(),
    }
}

fn close_command(numbers: &[u32], last: Last) -> TwinCommand
    requires { IsMeant (spec.close_row numbers.now (last_of last)) }
    ensures { spec.close_row numbers.now (last_of last) ≡ Some (meant result) }
{
    match numbers {
        [n] => match last {
            Last::Nothing => TwinCommand::Close { n: *n as u8 },
            _ => unreachable!(),
        },
        _ => unreachable!(),
    }
}

fn blank_command(numbers: &[u32], last: Last) -> TwinCommand
    requires { IsMeant (spec.blank_row numbers.now (last_of last)) }
    ensures { spec.blank_row numbers.now (last_of last) ≡ Some (meant result) }
{
    match numbers {
        [disk] => match last {
            Last::Nothing => TwinCommand::Blank { disk: *disk as u8 },
            _ => unreachable!(),
        },
        _ => unreachable!(),
    }
}

fn fail_command(numbers: &[u32], last: Last) -> TwinCommand
    requires { IsMeant (spec.fail_row numbers.now (last_of last)) }
    ensures { spec.fail_row numbers.now (last_of last) ≡ Some (meant result) }
{
    match numbers {
        [disk, after] => match last {
            Last::Nothing => TwinCommand::Fail {
                disk: *disk as u8,
                after: *after,
            },
            _ => unreachable!(),
        },
        _ => unreachable!(),
    }
}

fn stop_command(numbers: &[u32], last: Last) -> TwinCommand
    requires { IsMeant (spec.stop_row numbers.now (last_of last)) }
    ensures { spec.stop_row numbers.now (last_of last) ≡ Some (meant result) }
{
    match numbers {
        [disk, after] => match last {
            Last::Mode { mode } => TwinCommand::Stop {
                disk: *disk as u8,
                after: *after,
                mode,
            },
            _ => unreachable!(),
        },
        _ => unreachable!(),
    }
}

/// The command of a row, by the number of its form.
fn by_form(form: usize, numbers: &[u32], last: Last) -> TwinCommand
    requires { IsMeant (spec.command_by form numbers.now (last_of last)) }
    ensures { spec.command_by form numbers.now (last_of last) ≡ Some (meant result) }
{
    match form {
        0 => open_command(numbers, last),
        1 => put_command(numbers, last),
        2 => get_command(numbers, last),
        3 => delete_command(numbers, last),
        4 => close_command(numbers, last),
        5 => blank_command(numbers, last),
        6 => fail_command(numbers, last),
        7 => stop_command(numbers, last),
        _ => unreachable!(),
    }
}

/// The command of a row that has one.
fn command(row: Row) -> TwinCommand
    requires { HasMeaning (row_of row) }
    ensures { spec.command_of (row_of row) ≡ Some (meant result) }
{
    let Row {
        form,
        numbers,
        last,
    } = row;
    by_form(form, &numbers, last)
}

/// The commands of the rows that begin at these spots.
fn commands_at(
    alloc: Global,
    bytes: &[u8],
    most: u32,
    spots: Vec<u32>,
) -> Result<Vec<TwinCommand>, AllocError>
    requires { IsReadAs bytes.now most spots.items }
    ensures { IfOk result (λ commands. IsTwinScript bytes.now (map meant commands.items)) }
{
    let mut commands = Vec::new(alloc);
    for spot in spots {
        let row = row(alloc, bytes, most, spot)?;
        commands.push(command(row))?;
    }
    Ok(commands)
}

/// The script of pairs of disks that the bytes spell: its commands, each of which can be carried out; else the first bad line, counted
/// from 1, and its first cause.
pub fn read_script(alloc: Global, bytes: &[u8]) -> Result<TwinScript, ScriptRefusal>
    requires { length bytes.now < 2 ^ 31 }
    ensures script { IfOk result (λ s. IsTwinScript bytes.now (map meant s.commands.items)) }
    ensures bad { IfErr result (IsRefusal spec.twin_kind bytes.now) }
{
    let Rows { most, spots } = read_spots(alloc, bytes)?;
    let commands = commands_at(alloc, bytes, most, spots)?;
    Ok(TwinScript { commands })
}
