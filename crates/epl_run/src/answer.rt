//! The answer of the last effect.
ghost use Rattle.std.specs.Prelude.{◌≡◌, ◌∷◌, ℕ, List, drop, map, true, false};
ghost use Rattle.std.specs.List.{list_all};
ghost use Rattle.eden_value.specs.View.{datum};
ghost use Rattle.eden_model.specs.Map.{with_item};
ghost use Rattle.epl_syntax.specs.Kinds.{have_shapes};
ghost use Rattle.epl_syntax.specs.Memory as variables;
ghost use Rattle.epl_syntax.specs.Tree.{type_tree};
ghost use Rattle.epl_syntax.specs.Turns as turns;
ghost use Rattle.epl_values.specs.Variables.{memory, is_found};
ghost use Rattle.epl_syntax.specs.Bindings.{variable};
ghost use Rattle.epl_run.specs.Found.{each_made};
ghost use Rattle.epl_values.specs.Comes.{Moves};
ghost use Rattle.epl_run.specs.Blocks as blocks;

use eden_value::{Items, Status, Value, has_kind};
use epl_syntax::{Answer, FaultCause, Name, Program, Stmt};
use epl_values::{Stop, Variables, kind_named, set};

/// A status, as a number, in a variable.
fn set_code(program: &Program, vars: &mut Variables, name: &Name, status: Status)
    requires { is_found program.now vars.old.owner variable name.now ≡ true }
    ensures memory { memory (type_tree program.now) vars.new
        ≡ variables.set name.now.text (turns.code status) (memory (type_tree program.now) vars.old) }
    ensures owner { vars.new.owner ≡ vars.old.owner }
{
    let n = i64::from(status.number());
    set(program, vars, name, Value::Int { n });
}

/// The place of the result behind that of a variable, if its own is of its kind. A name of nothing takes no result.
#[tactic(auto, using(crate::proofs::Replies::kind_first, crate::proofs::Replies::shapes_at, crate::proofs::Replies::shapes_past))]
fn place_after(
    program: &Program,
    vars: &Variables,
    name: &Name,
    results: &Items,
    next: usize,
) -> Option<usize>
    requires { is_found program.now vars.now.owner variable name.now ≡ true }
    ensures { (names : List (List ℕ)) → have_shapes (drop next results.now)
        (turns.kinds_as (memory (type_tree program.now) vars.now) (name.now.text ∷ names))
        ≡ with_item result (λ k. have_shapes (drop k results.now) (turns.kinds_as (memory (type_tree program.now) vars.now) names)) false }
{
    match kind_named(program, vars, name) {
        None => Some(next),
        Some(kind) => match results.values.get(next) {
            Some(value) => {
                if has_kind(value, kind) {
                    Some(next + 1)
                } else {
                    None
                }
            }
            None => None,
        },
    }
}

/// Whether there are as many results as variables that take them, each of its variable's kind.
#[tactic(auto, using(crate::proofs::Replies::shapes_end))]
fn are_fit(program: &Program, vars: &Variables, gives: &[Name], results: &Items) -> bool
    requires { list_all (is_found program.now vars.now.owner variable) gives.now ≡ true }
    ensures { result ≡ have_shapes results.now (turns.kinds_as (memory (type_tree program.now) vars.now) (map (λ n. n.text) gives.now)) }
{
    let mut next = 0;
    for name in gives {
        match place_after(program, vars, name, results, next) {
            Some(behind) => next = behind,
            None => return false,
        }
    }
    results.values.len() <= next
}

/// Each variable gets its value.
fn set_each(program: &Program, vars: &mut Variables, names: &[Name], values: Items)
    requires { list_all (is_found program.now vars.old.owner variable) names.now ≡ true }
    ensures memory { memory (type_tree program.now) vars.new
        ≡ variables.set_each (map (λ n. n.text) names.now) values (memory (type_tree program.now) vars.old) }
    ensures owner { vars.new.owner ≡ vars.old.owner }
{
    let mut values = values.values;
    for name in names {
        if values.is_empty() {
            return;
        }
        set(program, vars, name, values.remove(0));
    }
}

/// The answer to an invocation.
#[tactic(auto, using(crate::proofs::Replies::set_kinds))]
fn take_reply(
    program: &Program,
    vars: &mut Variables,
    status: &Name,
    gives: &[Name],
    code: Status,
    results: Items,
) -> Result<(), Stop>
    requires status { is_found program.now vars.old.owner variable status.now ≡ true }
    requires gives { list_all (is_found program.now vars.old.owner variable) gives.now ≡ true }
    ensures told { Moves result (memory (type_tree program.now) vars.new) (memory (type_tree program.now) vars.old)
        (turns.taken (map (λ n. n.text) gives.now) code results
        (variables.set status.now.text (turns.code code) (memory (type_tree program.now) vars.old))) }
    ensures owner { vars.new.owner ≡ vars.old.owner }
{
    if code != Status::Ok {
        set_code(program, vars, status, code);
        return Ok(());
    }
    if !are_fit(program, vars, gives, &results) {
        return Err(Stop::Fault {
            cause: FaultCause::BadKind,
        });
    }
    set_code(program, vars, status, code);
    set_each(program, vars, gives, results);
    Ok(())
}

/// The variables that the answer to the effect of a statement sets have its values. An answer that is not awaited sets none.
pub(crate) fn take_answer(
    program: &Program,
    vars: &mut Variables,
    made: Option<&Stmt>,
    answer: Answer,
) -> Result<(), Stop>
    requires { each_made (is_found program.now vars.old.owner) made ≡ true }
    ensures told { Moves result (memory (type_tree program.now) vars.new) (memory (type_tree program.now) vars.old)
        (turns.told (blocks.awaited_at made.entry) answer (memory (type_tree program.now) vars.old)) }
    ensures owner { vars.new.owner ≡ vars.old.owner }
{
    match (made, answer) {
        (Some(Stmt::Checkpoint { status, .. }), Answer::Code { status: code })
        | (Some(Stmt::Destroy { status, .. }), Answer::Code { status: code }) => {
            set_code(program, vars, status, code);
            Ok(())
        }
        (Some(Stmt::Create { status, gives, .. }), Answer::Created { status: code, cap }) => {
            set_code(program, vars, status, code);
            set(program, vars, gives, Value::Cap { cap });
            Ok(())
        }
        (
            Some(Stmt::Invoke { status, gives, .. }),
            Answer::Reply {
                status: code,
                results,
            },
        ) => { take_reply(program, vars, status, gives, code, results) }
        _ => Ok(()),
    }
}
