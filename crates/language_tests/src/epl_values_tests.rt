ghost use Rattle.std.specs.Prelude.{◌≡◌, length};

use crate::sample::{ME, VALUED, list_of_one, named, only, text};
use crate::texts::type_of;
use eden_value::{Items, Value, equal};
use epl_syntax::{Const, Expr, FaultCause, Name, Operator, Program, Stmt};
use epl_values::*;
use std::alloc::Global;
use std::process::Abort;

/// The type of the sample. Its names are looked up, since none of them is resolved.
fn valued(rt: &impl Abort, alloc: Global) -> Box<Program>
    ensures { length result.value.bindings.items ≡ 0 }
{
    let program = type_of(rt, alloc, VALUED);
    assert!(rt; program.bindings.is_empty());
    program
}

fn integer(n: i64) -> Expr {
    Expr::Const {
        value: Const::Int { n },
        place: 0,
    }
}

fn both(rt: &impl Abort, alloc: Global, operator: Operator, left: i64, right: i64) -> Box<Expr> {
    let left = Box::new(alloc, integer(left)).expect(rt, "memory");
    let right = Box::new(alloc, integer(right)).expect(rt, "memory");
    let whole = Expr::Binary {
        operator,
        left,
        right,
        place: 0,
    };
    Box::new(alloc, whole).expect(rt, "memory")
}

/// The number 7, and the list of the number 1.
fn held(rt: &impl Abort, alloc: Global) -> Items {
    let mut held = only(rt, alloc, 7);
    held.values
        .push(list_of_one(rt, alloc, 1))
        .expect(rt, "memory");
    held
}

/// The parameter `p` is 5, the operation's `n` is 6, the Eject's `n` is 7, and its `l` has the number 1.
fn variables(rt: &impl Abort, alloc: Global) -> Box<Variables> {
    let variables = Variables {
        owner: Owner::Operation { at: 0 },
        params: only(rt, alloc, 5),
        locals: only(rt, alloc, 6),
        vars: held(rt, alloc),
        me: ME,
    };
    Box::new(alloc, variables).expect(rt, "memory")
}

/// The number that an expression comes to, or why it faults, or nothing of both.
type Outcome = Result<i64, Option<FaultCause>>;

fn outcome_of(found: &Result<Value, Stop>) -> Outcome {
    match found {
        Ok(Value::Int { n }) => Ok(*n),
        Err(Stop::Fault { cause }) => Err(Some(*cause)),
        _ => Err(None),
    }
}

const OVERFLOW: Outcome = Err(Some(FaultCause::Overflow));

const ZERO_DIVISOR: Outcome = Err(Some(FaultCause::ZeroDivisor));

/// An operator, its two numbers, and what comes of it.
type Sum = (Operator, i64, i64, Outcome);

const SUMS: &[Sum] = &[
    (Operator::Add, 2, 3, Ok(5)),
    (Operator::Add, i64::MAX, 1, OVERFLOW),
    (Operator::Subtract, i64::MIN, 1, OVERFLOW),
    (
        Operator::Multiply,
        -0x8000_0000,
        0x1_0000_0000,
        Ok(i64::MIN),
    ),
    (Operator::Multiply, 0x8000_0000, 0x1_0000_0000, OVERFLOW),
    // division rounds toward 0, and what is left over has the sign of the first number
    (Operator::Divide, -7, 2, Ok(-3)),
    (Operator::Modulo, -7, 2, Ok(-1)),
    (Operator::Divide, 1, 0, ZERO_DIVISOR),
    (Operator::Divide, i64::MIN, -1, OVERFLOW),
    (Operator::Modulo, i64::MIN, -1, Ok(0)),
];

/// What an expression comes to, in a type whose names are looked up.
#[tactic(auto, using(epl_values::proofs::Bindings::expression_looked_up))]
fn outcome(alloc: Global, program: &Program, vars: &Variables, e: &Expr) -> Outcome
    requires { length program.now.bindings.items ≡ 0 }
{
    outcome_of(&value_of(alloc, program, vars, e))
}

/// Whether this comes of an operator and its two numbers.
fn comes_to(rt: &impl Abort, alloc: Global, program: &Program, vars: &Variables, row: &Sum) -> bool
    requires { length program.now.bindings.items ≡ 0 }
{
    let &(operator, a, b, wanted) = row;
    let e = both(rt, alloc, operator, a, b);
    outcome(alloc, program, vars, &e) == wanted
}

#[test]
fn numbers_have_64_bits(rt: HostRuntime) {
    let program = valued(&rt, rt.alloc());
    let vars = variables(&rt, rt.alloc());
    for (i, row) in SUMS.iter().enumerate() {
        assert!(rt; comes_to(&rt, rt.alloc(), &program, &vars, row), "at {i}");
    }
}

/// What the operation returns.
fn results(program: &Program) -> Option<&[Expr]> {
    match program.operations.first()?.body.get(1)? {
        Stmt::Return { results, .. } => Some(results),
        _ => None,
    }
}

/// How many values the results of the operation have.
#[tactic(auto, using(epl_values::proofs::Bindings::row_looked_up))]
fn result_count(rt: &impl Abort, alloc: Global, program: &Program, vars: &Variables) -> usize
    requires { length program.now.bindings.items ≡ 0 }
{
    let results = results(program).expect(rt, "results");
    let values = values_of(alloc, program, vars, results)
        .ok()
        .expect(rt, "values");
    values.len()
}

/// Whether the constant 3 has the value 3.
fn constant_has_its_value(rt: &impl Abort, alloc: Global) -> bool {
    let value = value_of_constant(alloc, &Const::Int { n: 3 }).expect(rt, "memory");
    equal(&value, &Value::Int { n: 3 })
}

#[test]
fn constants_and_rows_have_values(rt: HostRuntime) {
    let program = valued(&rt, rt.alloc());
    let vars = variables(&rt, rt.alloc());
    assert!(rt; result_count(&rt, rt.alloc(), &program, &vars) == 2);
    assert!(rt; constant_has_its_value(&rt, rt.alloc()));
}

/// A name, whether it stands for a variable, the number that it holds, and what it holds after it was set to 9.
type Row = (&'static [u8], bool, Option<i64>, Option<i64>);

const NAMES: &[Row] = &[
    (b"p", true, Some(5), Some(9)),
    // of the operation before the Eject
    (b"n", true, Some(6), Some(9)),
    // a list
    (b"l", true, None, Some(9)),
    (b"x", false, None, None),
];

/// The number that a variable holds.
#[tactic(auto, using(epl_values::proofs::Bindings::name_looked_up))]
fn number_named(program: &Program, vars: &Variables, name: &Name) -> Option<i64>
    requires { length program.now.bindings.items ≡ 0 }
{
    match value_named(program, vars, name) {
        Some(Value::Int { n }) => Some(*n),
        _ => None,
    }
}

/// The number that a copy of a variable holds.
#[tactic(auto, using(epl_values::proofs::Bindings::name_looked_up))]
fn copied_number(alloc: Global, program: &Program, vars: &Variables, name: &Name) -> Option<i64>
    requires { length program.now.bindings.items ≡ 0 }
{
    outcome_of(&copy_named(alloc, program, vars, name)).ok()
}

/// Sets a variable to 9.
#[tactic(auto, using(epl_values::proofs::Bindings::name_looked_up))]
fn set_nine(program: &Program, vars: &mut Variables, name: &Name)
    requires { length program.now.bindings.items ≡ 0 }
{
    set(program, vars, name, Value::Int { n: 9 });
}

/// Whether a variable has this name.
#[tactic(auto, using(epl_values::proofs::Bindings::name_looked_up))]
fn is_variable(program: &Program, vars: &Variables, name: &Name) -> bool
    requires { length program.now.bindings.items ≡ 0 }
{
    kind_named(program, vars, name).is_some()
}

/// Whether a variable holds this number, and its copy too.
fn holds(
    alloc: Global,
    program: &Program,
    vars: &Variables,
    name: &Name,
    wanted: Option<i64>,
) -> bool
    requires { length program.now.bindings.items ≡ 0 }
{
    number_named(program, vars, name) == wanted
        && copied_number(alloc, program, vars, name) == wanted
}

/// Whether a name stands for what its row tells, before and after it was set to 9.
fn stands_for(rt: &impl Abort, alloc: Global, program: &Program, row: &Row) -> bool
    requires { length program.now.bindings.items ≡ 0 }
{
    let &(bytes, has_kind, before, after) = row;
    let mut vars = variables(rt, alloc);
    let name = named(rt, alloc, bytes);
    let is_so = holds(alloc, program, &vars, &name, before);
    let is_kind = is_variable(program, &vars, &name) == has_kind;
    set_nine(program, &mut vars, &name);
    is_so && is_kind && number_named(program, &vars, &name) == after
}

/// The place of the list among the variables of the Eject.
fn list_place(rt: &impl Abort, alloc: Global, program: &Program) -> Option<usize> {
    let name = text(rt, alloc, b"l");
    place_of(&program.vars, &name)
}

#[test]
fn a_name_stands_for_the_nearest_variable(rt: HostRuntime) {
    let program = valued(&rt, rt.alloc());
    for (i, row) in NAMES.iter().enumerate() {
        assert!(rt; stands_for(&rt, rt.alloc(), &program, row), "at {i}");
    }
    assert!(rt; list_place(&rt, rt.alloc(), &program) == Some(1));
}

/// The operation's assignment.
fn assignment(program: &Program) -> Option<(&Name, &Expr)> {
    match program.operations.first()?.body.first()? {
        Stmt::Assign { name, value } => Some((name, value)),
        _ => None,
    }
}

/// Why an assignment faulted.
fn fault_of(rt: &impl Abort, assigned: Result<(), Stop>) -> Option<FaultCause> {
    match assigned {
        Ok(()) => None,
        Err(Stop::Fault { cause }) => Some(cause),
        Err(Stop::Memory) => panic!(rt; "memory"),
    }
}

/// How many items a list has.
#[tactic(auto, using(epl_values::proofs::Bindings::name_looked_up))]
fn length_named(program: &Program, vars: &Variables, name: &Name) -> Option<usize>
    requires { length program.now.bindings.items ≡ 0 }
{
    match value_named(program, vars, name) {
        Some(Value::List { items }) => Some(items.values.len()),
        _ => None,
    }
}

/// Runs the operation's assignment, and answers how many items its list has then, and why it faulted.
#[tactic(auto, using(epl_values::proofs::Bindings::name_looked_up, epl_values::proofs::Bindings::expression_looked_up))]
fn grown(
    rt: &impl Abort,
    alloc: Global,
    program: &Program,
    vars: &mut Variables,
) -> (Option<usize>, Option<FaultCause>)
    requires { length program.now.bindings.items ≡ 0 }
{
    let (name, value) = assignment(program).expect(rt, "an assignment");
    let fault = fault_of(rt, assign(alloc, program, vars, name, value));
    (length_named(program, vars, name), fault)
}

#[test]
fn a_list_grows_to_its_limit(rt: HostRuntime) {
    let program = valued(&rt, rt.alloc());
    let mut vars = variables(&rt, rt.alloc());
    for length in 2..257 {
        assert!(rt;
            grown(&rt, rt.alloc(), &program, &mut vars) == (Some(length), None),
            "{length}"
        );
    }
    // where it faults, the list stays
    let wanted = (Some(256), Some(FaultCause::TooLong));
    assert!(rt; grown(&rt, rt.alloc(), &program, &mut vars) == wanted);
}
