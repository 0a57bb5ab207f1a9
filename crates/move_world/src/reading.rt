//! A script of Ejects that wander is read.
ghost use Rattle.std.specs.Prelude.{◌≡◌, ◌<◌, ◌^◌, length, map, Some, IfOk, IfErr};
ghost use Rattle.line_forms.specs.Forms as forms;
ghost use Rattle.line_forms.specs.Scripts.{IsRefusal};
ghost use Rattle.line_forms.specs.Spots.{IsRowAt};
ghost use Rattle.line_forms.specs.View.{kind_of, last_of, row_of};
ghost use Rattle.move_world.specs.Commands as spec;
ghost use Rattle.move_world.specs.Commands.{IsInReach};
ghost use Rattle.move_world.specs.Scripts.{IsMoveScript, IsMeant, HasMeaning, IsReadAs};
ghost use Rattle.move_world.specs.View.{meant};

use crate::commands::MoveCommand;
use capability::Uid;
use line_forms::{
    Bound, Ending, Form, Kind, Last, Mark, Place, Row, Rows, read_rows, row_at, rows_are_fit,
};
use script_words::ScriptRefusal;
use std::alloc::{AllocError, Global};

/// How many nodes there are, and the commands of a script.
#[derive(Drop)]
pub struct MoveScript {
    pub nodes: u8,
    pub commands: Vec<MoveCommand>,
}

const COUNT: Place = Place {
    mark: Mark::Blank,
    low: 1,
    high: Bound::UpTo { most: 8 },
};

const NODE: Place = Place {
    mark: Mark::Blank,
    low: 1,
    high: Bound::Node,
};

const STATION: Place = Place {
    mark: Mark::Blank,
    low: 1,
    high: Bound::Station,
};

const NUMBER: Place = Place {
    mark: Mark::Blank,
    low: 1,
    high: Bound::UpTo { most: 4294967295 },
};

const EPOCH: Place = Place {
    mark: Mark::Point,
    low: 1,
    high: Bound::UpTo { most: 1 },
};

const SERIAL: Place = Place {
    mark: Mark::Point,
    low: 1,
    high: Bound::UpTo { most: 4294967295 },
};

const DELAY: Place = Place {
    mark: Mark::Blank,
    low: 1,
    high: Bound::UpTo { most: 1000000 },
};

const NODES: Form<'static> = Form {
    word: b"nodes",
    places: &[COUNT],
    ending: Ending::Nothing,
};

const MAKE: Form<'static> = Form {
    word: b"make",
    places: &[NODE, NUMBER],
    ending: Ending::Value,
};

const WAKE: Form<'static> = Form {
    word: b"wake",
    places: &[NODE, NODE, EPOCH, SERIAL],
    ending: Ending::Nothing,
};

const SAVE: Form<'static> = Form {
    word: b"save",
    places: &[NODE, NODE, EPOCH, SERIAL],
    ending: Ending::Value,
};

const MOVE: Form<'static> = Form {
    word: b"move",
    places: &[STATION, NODE, EPOCH, SERIAL, STATION],
    ending: Ending::Nothing,
};

const AGAIN: Form<'static> = Form {
    word: b"again",
    places: &[NODE, NODE, EPOCH, SERIAL],
    ending: Ending::Nothing,
};

const CARRY: Form<'static> = Form {
    word: b"carry",
    places: &[STATION, STATION, NUMBER],
    ending: Ending::Nothing,
};

const CRASH: Form<'static> = Form {
    word: b"crash",
    places: &[NODE],
    ending: Ending::MaybeMode,
};

const RESTART: Form<'static> = Form {
    word: b"restart",
    places: &[NODE],
    ending: Ending::Nothing,
};

const FAIL: Form<'static> = Form {
    word: b"fail",
    places: &[NODE, DELAY],
    ending: Ending::Nothing,
};

const STOP: Form<'static> = Form {
    word: b"stop",
    places: &[NODE, DELAY],
    ending: Ending::Mode,
};

/// The lines of a script.
const SCRIPT: Kind<'static> = Kind {
    first: NODES,
    others: &[
        MAKE, WAKE, SAVE, MOVE, AGAIN, CARRY, CRASH, RESTART, FAIL, STOP,
    ],
};

fn move_kind() -> Kind<'static>
    ensures { kind_of result ≡ spec.move_kind }
{
    SCRIPT
}

/// The number of nodes, and where the rows of a script begin, each of which has a command.
fn read_spots(alloc: Global, bytes: &[u8]) -> Result<Rows, ScriptRefusal>
    requires { length bytes.now < 2 ^ 31 }
    ensures script { IfOk result (λ s. IsReadAs bytes.now s.most s.spots.items) }
    ensures bad { IfErr result (IsRefusal spec.move_kind bytes.now) }
{
    rows_are_fit();
    read_rows(alloc, &move_kind(), bytes)
}

/// The row that begins at a spot.
fn row(alloc: Global, bytes: &[u8], nodes: u32, spot: u32) -> Result<Row, AllocError>
    requires { (r : forms.Row) × IsRowAt spec.move_kind bytes.now nodes spot r }
    ensures { IfOk result (λ row. (r : forms.Row) → IsRowAt spec.move_kind bytes.now nodes spot r → r ≡ row_of row) }
{
    row_at(alloc, &move_kind(), nodes, bytes, spot)
}

fn make_command(numbers: &[u32], last: Last) -> MoveCommand
    requires { IsMeant (spec.make_row numbers.now (last_of last)) }
    ensures { spec.make_row numbers.now (last_of last) ≡ Some (meant result) }
{
    match numbers {
        [n, serial] => match last {
            Last::Datum { value } => MoveCommand::Make {
                n: *n as u8,
                serial: *serial,
                value,
            },
            _ => unreachable!(),
        },
        _ => unreachable!(),
    }
}

fn wake_command(numbers: &[u32], last: Last) -> MoveCommand
    requires { IsMeant (spec.wake_row numbers.now (last_of last)) }
    ensures { spec.wake_row numbers.now (last_of last) ≡ Some (meant result) }
{
    match numbers {
        [n, node, epoch, serial] => match last {
            Last::Nothing => MoveCommand::Wake {
                n: *n as u8,
                uid: Uid {
                    node: *node as u8,
                    epoch: *epoch,
                    serial: *serial,
                },
            },
            _ => unreachable!(),
        },
        _ => unreachable!(),
    }
}

fn save_command(numbers: &[u32], last: Last) -> MoveCommand
    requires { IsMeant (spec.save_row numbers.now (last_of last)) }
    ensures { spec.save_row numbers.now (last_of last) ≡ Some (meant result) }
{
    match numbers {
        [n, node, epoch, serial] => match last {
            Last::Datum { value } => MoveCommand::Save {
                n: *n as u8,
                uid: Uid {
                    node: *node as u8,
                    epoch: *epoch,
                    serial: *serial,
                },
                value,
            },
            _ => unreachable!(),
        },
        _ => unreachable!(),
    }
}

fn move_command(numbers: &[u32], last: Last) -> MoveCommand
    requires { IsMeant (spec.move_row numbers.now (last_of last)) }
    ensures { spec.move_row numbers.now (last_of last) ≡ Some (meant result) }
{
    match numbers {
        [n, node, epoch, serial, to] => match last {
            Last::Nothing => MoveCommand::Move {
                n: *n as u8,
                uid: Uid {
                    node: *node as u8,
                    epoch: *epoch,
                    serial: *serial,
                },
                to: *to as u8,
            },
            _ => unreachable!(),
        },
        _ => unreachable!(),
    }
}

fn again_command(numbers: &[u32], last: Last) -> MoveCommand
    requires { IsMeant (spec.again_row numbers.now (last_of last)) }
    ensures { spec.again_row numbers.now (last_of last) ≡ Some (meant result) }
{
    match numbers {
        [n, node, epoch, serial] => match last {
            Last::Nothing => MoveCommand::Again {
                n: *n as u8,
                uid: Uid {
                    node: *node as u8,
                    epoch: *epoch,
                    serial: *serial,
                },
            },
            _ => unreachable!(),
        },
        _ => unreachable!(),
    }
}

fn carry_command(numbers: &[u32], last: Last) -> MoveCommand
    requires { IsMeant (spec.carry_row numbers.now (last_of last)) }
    ensures { spec.carry_row numbers.now (last_of last) ≡ Some (meant result) }
{
    match numbers {
        [a, b, i] => match last {
            Last::Nothing => MoveCommand::Carry {
                a: *a as u8,
                b: *b as u8,
                i: *i,
            },
            _ => unreachable!(),
        },
        _ => unreachable!(),
    }
}

fn crash_command(numbers: &[u32], last: Last) -> MoveCommand
    requires { IsMeant (spec.crash_row numbers.now (last_of last)) }
    ensures { spec.crash_row numbers.now (last_of last) ≡ Some (meant result) }
{
    match numbers {
        [n] => match last {
            Last::Mode { mode } => MoveCommand::Crash { n: *n as u8, mode },
            _ => unreachable!(),
        },
        _ => unreachable!(),
    }
}

fn restart_command(numbers: &[u32], last: Last) -> MoveCommand
    requires { IsMeant (spec.restart_row numbers.now (last_of last)) }
    ensures { spec.restart_row numbers.now (last_of last) ≡ Some (meant result) }
{
    match numbers {
        [n] => match last {
            Last::Nothing => MoveCommand::Restart { n: *n as u8 },
            _ => unreachable!(),
        },
        _ => unreachable!(),
    }
}

fn fail_command(numbers: &[u32], last: Last) -> MoveCommand
    requires { IsMeant (spec.fail_row numbers.now (last_of last)) }
    ensures { spec.fail_row numbers.now (last_of last) ≡ Some (meant result) }
{
    match numbers {
        [n, after] => match last {
            Last::Nothing => MoveCommand::Fail {
                n: *n as u8,
                after: *after,
            },
            _ => unreachable!(),
        },
        _ => unreachable!(),
    }
}

fn stop_command(numbers: &[u32], last: Last) -> MoveCommand
    requires { IsMeant (spec.stop_row numbers.now (last_of last)) }
    ensures { spec.stop_row numbers.now (last_of last) ≡ Some (meant result) }
{
    match numbers {
        [n, after] => match last {
            Last::Mode { mode } => MoveCommand::Stop {
                n: *n as u8,
                after: *after,
                mode,
            },
            _ => unreachable!(),
        },
        _ => unreachable!(),
    }
}

/// The command of a row, by the number of its form.
fn by_form(form: usize, numbers: &[u32], last: Last) -> MoveCommand
    requires { IsMeant (spec.command_by form numbers.now (last_of last)) }
    ensures { spec.command_by form numbers.now (last_of last) ≡ Some (meant result) }
{
    match form {
        0 => make_command(numbers, last),
        1 => wake_command(numbers, last),
        2 => save_command(numbers, last),
        3 => move_command(numbers, last),
        4 => again_command(numbers, last),
        5 => carry_command(numbers, last),
        6 => crash_command(numbers, last),
        7 => restart_command(numbers, last),
        8 => fail_command(numbers, last),
        9 => stop_command(numbers, last),
        _ => unreachable!(),
    }
}

/// The command of a row that has one.
fn command(row: Row) -> MoveCommand
    requires { HasMeaning (row_of row) }
    ensures { spec.command_of (row_of row) ≡ Some (meant result) }
{
    let Row {
        form,
        numbers,
        last,
    } = row;
    by_form(form, &numbers, last)
}

/// The commands of the rows that begin at these spots.
fn commands_at(
    alloc: Global,
    bytes: &[u8],
    nodes: u32,
    spots: Vec<u32>,
) -> Result<Vec<MoveCommand>, AllocError>
    requires { IsReadAs bytes.now nodes spots.items }
    ensures { IfOk result (λ commands. IsMoveScript bytes.now nodes (map meant commands.items)) }
{
    let mut commands = Vec::new(alloc);
    for spot in spots {
        let row = row(alloc, bytes, nodes, spot)?;
        commands.push(command(row))?;
    }
    Ok(commands)
}

/// The script that the bytes spell: how many nodes there are, and its commands, each of which can be carried out; else its first bad
/// line with the first cause.
pub fn read_script(alloc: Global, bytes: &[u8]) -> Result<MoveScript, ScriptRefusal>
    requires { length bytes.now < 2 ^ 31 }
    ensures script { IfOk result (λ s. IsMoveScript bytes.now s.nodes (map meant s.commands.items)) }
    ensures bad { IfErr result (IsRefusal spec.move_kind bytes.now) }
{
    let Rows { most, spots } = read_spots(alloc, bytes)?;
    let commands = commands_at(alloc, bytes, most, spots)?;
    Ok(MoveScript {
        nodes: most as u8,
        commands,
    })
}
