//! Adding what was read to an Edentype.
ghost use Rattle.std.specs.Prelude.{◌≡◌, None, IfOk};
ghost use Rattle.epl_syntax.specs.Tree.{variable, operation, process, upgrade, type_tree};
ghost use Rattle.epl_parser.specs.Items.{with_variable, with_class, with_monitor, with_condition, with_operation};
ghost use Rattle.epl_parser.specs.Items.{with_process, with_upgrades, without_items};
ghost use Rattle.std.specs.Prelude.{map};

use epl_syntax::{
    ClassDecl, CondDecl, Name, Number, OpDecl, ProcDecl, Program, UpgradeDecl, VarDecl,
};
use std::alloc::{AllocError, Global};

/// An Edentype that has no items yet.
pub(crate) fn without_items(alloc: Global, name: Name, version: Option<Number>) -> Program
    ensures { type_tree result ≡ without_items name version }
{
    Program {
        name,
        version,
        vars: Vec::new(alloc),
        classes: Vec::new(alloc),
        monitors: Vec::new(alloc),
        conditions: Vec::new(alloc),
        operations: Vec::new(alloc),
        processes: Vec::new(alloc),
        upgrades: Vec::new(alloc),
        bindings: Vec::new(alloc),
    }
}

pub(crate) fn with_variable(mut program: Program, v: VarDecl) -> Result<Program, AllocError>
    ensures { IfOk result (λ p. type_tree p ≡ with_variable (variable v) (type_tree program)) }
{
    program.vars.push(v)?;
    Ok(program)
}

pub(crate) fn with_class(mut program: Program, c: ClassDecl) -> Result<Program, AllocError>
    ensures { IfOk result (λ p. type_tree p ≡ with_class c (type_tree program)) }
{
    program.classes.push(c)?;
    Ok(program)
}

pub(crate) fn with_monitor(mut program: Program, name: Name) -> Result<Program, AllocError>
    ensures { IfOk result (λ p. type_tree p ≡ with_monitor name (type_tree program)) }
{
    program.monitors.push(name)?;
    Ok(program)
}

pub(crate) fn with_condition(mut program: Program, c: CondDecl) -> Result<Program, AllocError>
    ensures { IfOk result (λ p. type_tree p ≡ with_condition c (type_tree program)) }
{
    program.conditions.push(c)?;
    Ok(program)
}

pub(crate) fn with_operation(mut program: Program, o: OpDecl) -> Result<Program, AllocError>
    ensures { IfOk result (λ p. type_tree p ≡ with_operation (operation o) (type_tree program)) }
{
    program.operations.push(o)?;
    Ok(program)
}

pub(crate) fn with_process(mut program: Program, p: ProcDecl) -> Result<Program, AllocError>
    ensures { IfOk result (λ q. type_tree q ≡ with_process (process p) (type_tree program)) }
{
    program.processes.push(p)?;
    Ok(program)
}

pub(crate) fn with_upgrades(mut program: Program, upgrades: Vec<UpgradeDecl>) -> Program
    ensures { type_tree result ≡ with_upgrades (map upgrade upgrades.items) (type_tree program) }
{
    program.upgrades = upgrades;
    program
}
