ghost use Rattle.std.specs.Prelude.{◌≡◌, true};
ghost use Rattle.epl_syntax.specs.Bindings.{is_resolved};

use crate::sample::{ME, TURNED, list_of_one, only, text};
use crate::texts::resolved;
use eden_codec::Rep;
use eden_value::{Items, Status, Value};
use epl_run::*;
use epl_syntax::{Answer, Effect, FaultCause, Program};
use std::alloc::Global;
use std::process::Abort;

/// The word for what a turn came to, and its number: a result, a monitor, a condition or a cause.
type Seen = (&'static str, i64);

fn integer_at(values: &[Value], place: usize) -> Option<i64> {
    match values.get(place) {
        Some(Value::Int { n }) => Some(*n),
        _ => None,
    }
}

fn seen_in(effect: &Effect) -> Seen {
    match effect {
        Effect::Return { results } => match integer_at(&results.values, 0) {
            Some(n) => ("returns", n),
            None => ("another", 0),
        },
        Effect::Lock { monitor } => ("locks", i64::from(*monitor)),
        Effect::Leave { monitor } => ("leaves", i64::from(*monitor)),
        Effect::Wait { condition } => ("waits", i64::from(*condition)),
        Effect::Invoke { .. } => ("invokes", 0),
        Effect::Yield => ("yields", 0),
        Effect::End => ("ends", 0),
        Effect::Fault { cause } => ("faults", *cause as i64),
        _ => ("another", 0),
    }
}

/// Whether a turn came to this.
fn is_seen(effect: &Effect, wanted: Seen) -> bool {
    seen_in(effect) == wanted
}

/// The numbers 7 and 0, and the list of the number 4.
fn start(rt: &impl Abort, alloc: Global) -> Items {
    let mut vars = only(rt, alloc, 7);
    vars.values.push(Value::Int { n: 0 }).expect(rt, "memory");
    vars.values
        .push(list_of_one(rt, alloc, 4))
        .expect(rt, "memory");
    vars
}

/// The beginning of the one declared process.
fn declared_process(rt: &impl Abort, alloc: Global, program: &Program) -> Box<Rest> {
    let mut begun = processes(alloc, program).expect(rt, "memory");
    assert!(rt; begun.len() == 1);
    let rest = begun.pop().expect(rt, "a process");
    Box::new(alloc, rest).expect(rt, "memory")
}

/// The beginning of an operation with the argument 5, or without a name, of the declared process.
fn beginning(rt: &impl Abort, alloc: Global, program: &Program, operation: &[u8]) -> Box<Rest> {
    if operation.is_empty() {
        return declared_process(rt, alloc, program);
    }
    let operation = text(rt, alloc, operation);
    let rest = begin(alloc, program, &operation, &only(rt, alloc, 5)).expect(rt, "memory");
    Box::new(alloc, rest).expect(rt, "memory")
}

/// One turn of a type whose parts can be counted.
fn next(
    rt: &impl Abort,
    alloc: Global,
    program: &Program,
    vars: &mut Items,
    rest: &mut Rest,
    answer: Answer,
) -> Box<Effect>
    requires { is_resolved program.now ≡ true }
{
    assert!(rt; is_counted(program));
    let effect = turn(alloc, program, vars, rest, answer, ME).expect(rt, "memory");
    Box::new(alloc, effect).expect(rt, "memory")
}

/// The answer to an effect: an invocation has this status and the result 9.
fn answer_to(rt: &impl Abort, alloc: Global, effect: &Effect, status: Status) -> Answer {
    match effect {
        Effect::Invoke { .. } => Answer::Reply {
            status,
            results: only(rt, alloc, 9),
        },
        _ => Answer::Go,
    }
}

/// An operation with the argument 5, the status of each reply, the effects of its turns, and the numbers `n` and `m` after it.
type Row = (&'static [u8], Status, &'static [Seen], i64, i64);

const TURNS: &[Row] = &[
    // the new list has the argument behind its item
    (b"Adds", Status::Ok, &[("returns", 5)], 5, 0),
    (b"Counts", Status::Ok, &[("returns", 13)], 13, 0),
    (
        b"Guards",
        Status::Ok,
        &[("locks", 1), ("waits", 0), ("leaves", 1), ("returns", 8)],
        8,
        0,
    ),
    // what was assigned before a fault stays
    (
        b"Fails",
        Status::Ok,
        &[("faults", FaultCause::ZeroDivisor as i64)],
        8,
        0,
    ),
    // 10,000 steps are 5,000 tests and as many assignments
    (
        b"Spins",
        Status::Ok,
        &[("faults", FaultCause::Budget as i64)],
        5007,
        0,
    ),
    (b"Asks", Status::Ok, &[("invokes", 0), ("returns", 9)], 0, 9),
    // a refusal gives no results
    (
        b"Asks",
        Status::NoRight,
        &[("invokes", 0), ("returns", 0)],
        1,
        0,
    ),
    // there is no operation of this name
    (b"Other", Status::Ok, &[("ends", 0)], 7, 0),
    // the declared process
    (b"", Status::Ok, &[("yields", 0), ("ends", 0)], 7, 0),
];

/// An operation or a process takes its turns, which come to their effects.
fn take_turns(rt: &impl Abort, alloc: Global, program: &Program, vars: &mut Items, row: &Row)
    requires { is_resolved program.now ≡ true }
{
    let &(operation, status, effects, _, _) = row;
    let mut rest = beginning(rt, alloc, program, operation);
    let mut answer = Answer::Go;
    for &wanted in effects {
        let effect = next(rt, alloc, program, vars, &mut rest, answer);
        assert!(rt; is_seen(&effect, wanted), "{}", wanted.0);
        answer = answer_to(rt, alloc, &effect, status);
    }
}

/// Whether there are three values, the first of them these numbers.
fn begin_with(values: &[Value], n: i64, m: i64) -> bool {
    integer_at(values, 0) == Some(n) && integer_at(values, 1) == Some(m) && values.len() == 3
}

#[test]
fn processes_take_their_turns(rt: HostRuntime) {
    let program = resolved(&rt, rt.alloc(), TURNED);
    for row in TURNS {
        let mut vars = start(&rt, rt.alloc());
        take_turns(&rt, rt.alloc(), &program, &mut vars, row);
        assert!(rt; begin_with(&vars.values, row.3, row.4), "{}", row.3);
    }
}

/// How many values an upgrade makes, and the number that is the first.
type Made = Option<(usize, Option<i64>)>;

/// The version and the one number that were kept, and what the upgrade makes of it.
type Upgrade = (u16, i64, Made);

const KEPT: &[Upgrade] = &[
    (1, 8, Some((3, Some(4)))),
    // it divides by 0
    (2, 8, None),
    // the current version needs no upgrade
    (3, 8, None),
    (4, 8, None),
];

/// What an upgrade makes of what was kept.
fn made_of(rt: &impl Abort, alloc: Global, program: &Program, version: u16, n: i64) -> Made
    requires { is_resolved program.now ≡ true }
{
    let kept = Rep {
        type_name: text(rt, alloc, b"A"),
        version,
        values: only(rt, alloc, n),
    };
    match &upgraded(alloc, program, &kept, ME).expect(rt, "memory") {
        Some(vars) => Some((vars.values.len(), integer_at(&vars.values, 0))),
        None => None,
    }
}

/// Whether the upgrade makes this of what was kept.
fn is_made(rt: &impl Abort, alloc: Global, program: &Program, row: &Upgrade) -> bool
    requires { is_resolved program.now ≡ true }
{
    let &(version, n, wanted) = row;
    made_of(rt, alloc, program, version, n) == wanted
}

#[test]
fn an_upgrade_makes_values_of_what_was_kept(rt: HostRuntime) {
    let program = resolved(&rt, rt.alloc(), TURNED);
    for row in KEPT {
        assert!(rt; is_made(&rt, rt.alloc(), &program, row), "{}", row.0);
    }
}
