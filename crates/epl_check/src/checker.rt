//! Whether a type keeps its rules.
ghost use Rattle.std.specs.Prelude.{◌≡◌, [], ◌++◌, map, IfOk, IfErr, OnOk, None};
ghost use Rattle.epl_syntax.specs.Tree as tree;
ghost use Rattle.epl_syntax.specs.Rules.OfTypes.{names_of};
ghost use Rattle.epl_syntax.specs.Rules.First.{least};
ghost use Rattle.epl_syntax.specs.Rules.InItems as rules;
ghost use Rattle.epl_check.specs.Refusals.{Refuses, refusal_of};
ghost use Rattle.epl_check.specs.Bodies.{broken_bodies};

use crate::difference::Difference;
use crate::first::{First, broken_first, unbroken};
use crate::index::index;
use crate::item::{
    check_classes, check_operations, check_processes, check_upgrades, check_vars, check_version,
};
use crate::names::{check_count, check_doubled, check_doubled_numbers};
use crate::scope::Surroundings;
use epl_syntax::{Broken, Name, OpDecl, ProcDecl, Program, Rule, Types, VarDecl};
use std::alloc::{AllocError, Global};

/// The first rule that a type breaks, with the place of the token that breaks it.
#[derive(Clone, Copy, Debug, PartialEq, Eq)]
pub enum CheckRefusal {
    /// A name is not declared in its scope, or a type is not known.
    UnknownName { place: u32 },
    /// An expression, a variable or a `return` is of another kind, or a number of values differs.
    KindDiffers { place: u32 },
    /// A variable or a condition of a monitor is used outside a `with` of that monitor.
    Unguarded { place: u32 },
    /// A `with` stands in a `with`.
    Nested { place: u32 },
    /// A name is declared twice in one scope, or two upgrades are from one version.
    Doubled { place: u32 },
    /// A number is outside its limits, a kind is too deep, or there are too many of something.
    BadLimit { place: u32 },
    /// There was no memory for the order of the names or numbers, or for a kind.
    OutOfMemory,
}

fn refusal_of(b: Broken) -> CheckRefusal
    ensures { result ≡ refusal_of b }
{
    let place = b.place;
    match b.rule {
        Rule::UnknownName => CheckRefusal::UnknownName { place },
        Rule::KindDiffers => CheckRefusal::KindDiffers { place },
        Rule::Unguarded => CheckRefusal::Unguarded { place },
        Rule::Nested => CheckRefusal::Nested { place },
        Rule::Doubled => CheckRefusal::Doubled { place },
        Rule::BadLimit => CheckRefusal::BadLimit { place },
    }
}

fn check_var_count(vars: &[VarDecl], first: &mut First)
    ensures { first.new ≡ least first.old
        (rules.too_many 64 (rules.places_of (rules.names_of_vars (map tree.variable vars.now)))) }
{
    check_count(64, vars, first);
}

fn check_operation_count(operations: &[OpDecl], first: &mut First)
    ensures { first.new ≡ least first.old
        (rules.too_many 32 (rules.places_of (rules.names_of_operations (map tree.operation operations.now)))) }
{
    check_count(32, operations, first);
}

fn check_process_count(processes: &[ProcDecl], first: &mut First)
    ensures { first.new ≡ least first.old
        (rules.too_many 8 (rules.places_of (rules.names_of_processes (map tree.process processes.now)))) }
{
    check_count(8, processes, first);
}

#[tactic(auto, using(crate::proofs::Least::least_append))]
fn check_counts(program: &Program, first: &mut First)
    ensures { first.new ≡ least first.old (rules.broken_counts (tree.type_tree program.now)) }
{
    check_var_count(&program.vars, first);
    check_count(16, &program.classes, first);
    check_count(8, &program.monitors, first);
    check_count(32, &program.conditions, first);
    check_operation_count(&program.operations, first);
    check_process_count(&program.processes, first);
}

/// Names that begin with a small letter.
fn check_small_names(program: &Program, first: &mut First)
    ensures { first.new ≡ least first.old (rules.broken_small_names (tree.type_tree program.now)) }
{
    let none: &[Name] = &[];
    let vars = program.vars.as_slice();
    let conditions = program.conditions.as_slice();
    let classes = program.classes.as_slice();
    check_doubled(vars, conditions, classes, first);
    check_doubled(conditions, classes, none, first);
    check_doubled(classes, none, none, first);
}

/// Names that begin with a great letter.
fn check_great_names(program: &Program, first: &mut First)
    ensures { first.new ≡ least first.old (rules.broken_great_names (tree.type_tree program.now)) }
{
    let none: &[Name] = &[];
    let operations = program.operations.as_slice();
    let processes = program.processes.as_slice();
    let monitors = program.monitors.as_slice();
    check_doubled(operations, processes, monitors, first);
    check_doubled(processes, monitors, none, first);
    check_doubled(monitors, none, none, first);
}

fn check_upgrade_numbers(
    alloc: Global,
    program: &Program,
    first: &mut First,
) -> Result<(), AllocError>
    ensures { OnOk result (first.new ≡ least first.old (rules.broken_numbers (tree.type_tree program.now))) }
{
    check_doubled_numbers(alloc, &program.upgrades, first)
}

/// What the operations, the processes and the upgrades of a type break, whose names are numbered.
#[tactic(auto, using(crate::proofs::Least::least_append))]
fn check_each_body(around: &Surroundings<'_>, first: &mut First) -> Result<(), AllocError>
    ensures { OnOk result (first.new ≡ least first.old
        (broken_bodies (names_of around.now.earlier.now) (tree.type_tree around.now.program.now))) }
{
    check_operations(around, first)?;
    check_processes(around, first)?;
    check_upgrades(around, first)
}

/// What the operations, the processes and the upgrades of a type break.
fn check_bodies(
    alloc: Global,
    program: &Program,
    earlier: &Types,
    first: &mut First,
) -> Result<(), AllocError>
    ensures { OnOk result (first.new ≡ least first.old (broken_bodies (names_of earlier.now) (tree.type_tree program.now))) }
{
    let no_names: &[Name] = &[];
    let none = index(alloc, no_names)?;
    let vars = index(alloc, program.vars.as_slice())?;
    let monitors = index(alloc, program.monitors.as_slice())?;
    let conditions = index(alloc, program.conditions.as_slice())?;
    let around = Surroundings {
        alloc,
        program,
        earlier,
        vars: &vars,
        monitors: &monitors,
        conditions: &conditions,
        none: &none,
    };
    check_each_body(&around, first)
}

/// Tells the first rule that a type breaks.
#[tactic(auto, using(crate::proofs::Least::least_append), unfolding(epl_syntax::specs::Rules::InItems::broken_program))]
fn check_program(
    alloc: Global,
    program: &Program,
    earlier: &Types,
    first: &mut First,
) -> Result<(), AllocError>
    ensures { OnOk result (first.new ≡ least first.old
        (rules.broken_program (names_of earlier.now) (tree.type_tree program.now))) }
{
    check_version(&program.version, first);
    check_counts(program, first);
    check_small_names(program, first);
    check_great_names(program, first);
    check_upgrade_numbers(alloc, program, first)?;
    check_vars(alloc, &program.vars, first)?;
    check_classes(&program.classes, first);
    check_bodies(alloc, program, earlier, first)
}

/// Whether a type keeps its rules, where `earlier` has the native types and those that the script
/// declares before it. Of several broken rules the one at the first place is answered, and at one
/// place the one that stands first in `CheckRefusal`.
///
/// Memory is taken for the order of the names and of the upgrades' numbers, by which each is found
/// among very many, and for the kinds of expressions that are lists.
pub fn check(alloc: Global, program: &Program, earlier: &Types) -> Result<(), CheckRefusal>
    ensures ok { IfOk result (λ _. rules.broken_program (names_of earlier.now) (tree.type_tree program.now) ≡ []) }
    ensures refused { IfErr result (Refuses (rules.broken_program (names_of earlier.now) (tree.type_tree program.now))) }
{
    let mut first = unbroken();
    if check_program(alloc, program, earlier, &mut first).is_err() {
        return Err(CheckRefusal::OutOfMemory);
    }
    match broken_first(&first) {
        None => Ok(()),
        Some(b) => Err(refusal_of(b)),
    }
}

/// How kinds, or numbers of values, differ at the place that `check` answers, where it answers `KindDiffers`.
pub fn kind_difference(
    alloc: Global,
    program: &Program,
    earlier: &Types,
) -> Result<Option<Difference>, AllocError> {
    let mut first = unbroken();
    check_program(alloc, program, earlier, &mut first)?;
    Ok(first.difference)
}
