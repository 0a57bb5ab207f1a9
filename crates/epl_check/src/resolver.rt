//! What the names in the bodies of a type stand for, found once and kept in a table.
//!
//! The table has a binding for each place of the type's text. One walk through the bodies notes the binding of each name at the
//! name's place, and answers whether each binding stood there already. So it is made twice: the first walk fills the table, and
//! where the second one writes nothing, the table is right for every name. Else two names claim one place, which no text has,
//! and the table is left empty: then each name is looked up where it is used, which is right for every type.
ghost use Rattle.std.specs.Prelude.{◌≡◌, ◌&&◌, map, IfOk, OnOk, true};
ghost use Rattle.std.specs.List.{list_all};
ghost use Rattle.epl_syntax.specs.Tree as tree;
ghost use Rattle.epl_syntax.specs.Bindings.{has_binding, each_of_expression, names_seen, variable};
ghost use Rattle.epl_syntax.specs.Bindings.{operation_resolved, process_resolved, upgrade_resolved, bodies_resolved, is_resolved};
ghost use Rattle.epl_check.specs.Noted.{names_of, Noted};

use crate::noted::BodyNames;
use crate::walk::{note_assignment, note_block};
use epl_syntax::{Assignment, Binding, LocalDecl, OpDecl, ParDecl, ProcDecl, Program, UpgradeDecl};
use std::alloc::{AllocError, Global};

/// The names that a body of a type with these parameters and variables sees.
fn names_in<'a>(
    program: &'a Program,
    params: &'a [ParDecl],
    locals: &'a [LocalDecl],
) -> BodyNames<'a>
    ensures { names_of result ≡ names_seen (tree.type_tree program.now) (map tree.parameter params.now)
        (map tree.local_of locals.now) }
{
    BodyNames {
        params,
        locals,
        vars: &program.vars,
        monitors: &program.monitors,
        conditions: &program.conditions,
    }
}

fn note_operation(program: &Program, bindings: &mut [Binding], o: &OpDecl) -> bool
    ensures { Noted result bindings.old bindings.new
        (operation_resolved bindings.old (tree.type_tree program.now) (tree.operation o.now)) }
{
    let names = names_in(program, &o.params, &o.locals);
    note_block(&names, bindings, &o.body)
}

fn note_process(program: &Program, bindings: &mut [Binding], p: &ProcDecl) -> bool
    ensures { Noted result bindings.old bindings.new
        (process_resolved bindings.old (tree.type_tree program.now) (tree.process p.now)) }
{
    let names = names_in(program, &[], &p.locals);
    note_block(&names, bindings, &p.body)
}

/// Notes the names in the assignments of an upgrade.
fn note_changes(names: &BodyNames<'_>, bindings: &mut [Binding], changes: &[Assignment]) -> bool
    ensures { Noted result bindings.old bindings.new (list_all (λ c. has_binding bindings.old (names_of names.now) variable c.name
        && each_of_expression (has_binding bindings.old (names_of names.now)) c.value) (map tree.change changes.now)) }
{
    let mut stood = true;
    for change in changes {
        stood &= note_assignment(names, bindings, &change.name, &change.value);
    }
    stood
}

fn note_upgrade(program: &Program, bindings: &mut [Binding], u: &UpgradeDecl) -> bool
    ensures { Noted result bindings.old bindings.new
        (upgrade_resolved bindings.old (tree.type_tree program.now) (tree.upgrade u.now)) }
{
    let names = names_in(program, &u.params, &[]);
    note_changes(&names, bindings, &u.assignments)
}

fn note_operations(program: &Program, bindings: &mut [Binding]) -> bool
    ensures { Noted result bindings.old bindings.new (list_all (operation_resolved bindings.old (tree.type_tree program.now))
        (map tree.operation program.now.operations.items)) }
{
    let mut stood = true;
    for o in &program.operations {
        stood &= note_operation(program, bindings, o);
    }
    stood
}

fn note_processes(program: &Program, bindings: &mut [Binding]) -> bool
    ensures { Noted result bindings.old bindings.new (list_all (process_resolved bindings.old (tree.type_tree program.now))
        (map tree.process program.now.processes.items)) }
{
    let mut stood = true;
    for p in &program.processes {
        stood &= note_process(program, bindings, p);
    }
    stood
}

fn note_upgrades(program: &Program, bindings: &mut [Binding]) -> bool
    ensures { Noted result bindings.old bindings.new (list_all (upgrade_resolved bindings.old (tree.type_tree program.now))
        (map tree.upgrade program.now.upgrades.items)) }
{
    let mut stood = true;
    for u in &program.upgrades {
        stood &= note_upgrade(program, bindings, u);
    }
    stood
}

/// Notes the bindings of the names in all bodies of a type, and says whether each stood in the table already.
fn note_bodies(program: &Program, bindings: &mut [Binding]) -> bool
    ensures { Noted result bindings.old bindings.new (bodies_resolved bindings.old (tree.type_tree program.now)) }
{
    note_operations(program, bindings)
        & note_processes(program, bindings)
        & note_upgrades(program, bindings)
}

/// The table of a type whose text has this length.
#[tactic(auto, using(crate::proofs::BindingTurns::empty_table))]
fn table_of(alloc: Global, program: &Program, length: usize) -> Result<Vec<Binding>, AllocError>
    ensures { IfOk result (λ bindings. bodies_resolved bindings.items (tree.type_tree program.now) ≡ true) }
{
    let mut bindings = vec![in alloc; Binding::ByName; length]?;
    note_bodies(program, &mut bindings);
    if note_bodies(program, &mut bindings) {
        return Ok(bindings);
    }
    Ok(Vec::new(alloc))
}

/// Finds what the names in the bodies of a type stand for, whose text has this length.
///
/// Memory is taken for the table, and where there is none, the type stays as it was.
#[tactic(auto, unfolding(epl_syntax::specs::Bindings::is_resolved))]
pub fn resolve(alloc: Global, program: &mut Program, length: usize) -> Result<(), AllocError>
    ensures tree { tree.type_tree program.new ≡ tree.type_tree program.old }
    ensures resolved { OnOk result (is_resolved program.new ≡ true) }
{
    program.bindings = table_of(alloc, program, length)?;
    Ok(())
}
