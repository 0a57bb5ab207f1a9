//! The variables that a process sees.
ghost use Rattle.std.specs.Prelude.{◌≡◌, ◌<◌, map, length, slice_get, slice_set, Some, true};
ghost use Rattle.std.specs.Option.{option_map};
ghost use Rattle.epl_syntax.specs.Tree.{type_tree, parameter, local_of};
ghost use Rattle.eden_value.specs.Shape.{shape};
ghost use Rattle.eden_value.specs.View.{datum};
ghost use Rattle.epl_syntax.specs.Memory as meaning;
ghost use Rattle.epl_syntax.specs.Bindings.{variable};
ghost use Rattle.epl_values.specs.Variables as spec;

use crate::by_name::{kind_by_name, replace_by_name, value_by_name};
use crate::named::Kinded;
use capability::Uid;
use eden_value::{Items, Kind, Value};
use epl_syntax::{Binding, LocalDecl, Name, ParDecl, Program, binding_at};
use std::mem;

/// Whose body runs: nobody's, or that of the operation, process or upgrade at this place in its list.
#[derive(Clone, Copy, Debug, PartialEq, Eq)]
pub enum Owner {
    Nothing,
    Operation { at: usize },
    Process { at: usize },
    Upgrade { at: usize },
}

/// The values of the variables that a body sees: its parameters and its own variables, then those of
/// its Eject, each in order of declaration. `me` is the Eject.
#[derive(Drop)]
pub struct Variables {
    pub owner: Owner,
    pub params: Items,
    pub locals: Items,
    pub vars: Items,
    pub me: Uid,
}

/// The parameters of a body.
pub(crate) fn params_of(program: &Program, owner: Owner) -> &[ParDecl]
    ensures { map parameter result.now ≡ spec.parameters_of (type_tree program.now) owner }
{
    match owner {
        Owner::Operation { at } => match program.operations.get(at) {
            Some(operation) => &operation.params,
            None => &[],
        },
        Owner::Upgrade { at } => match program.upgrades.get(at) {
            Some(upgrade) => &upgrade.params,
            None => &[],
        },
        Owner::Process { .. } | Owner::Nothing => &[],
    }
}

/// The variables that a body has of its own.
pub(crate) fn locals_of(program: &Program, owner: Owner) -> &[LocalDecl]
    ensures { map local_of result.now ≡ spec.locals_of (type_tree program.now) owner }
{
    match owner {
        Owner::Operation { at } => match program.operations.get(at) {
            Some(operation) => &operation.locals,
            None => &[],
        },
        Owner::Process { at } => match program.processes.get(at) {
            Some(process) => &process.locals,
            None => &[],
        },
        Owner::Upgrade { .. } | Owner::Nothing => &[],
    }
}

/// The value for which a binding stands, if there is one.
fn value_at<'a>(vars: &'a Variables, binding: Binding) -> Option<&'a Value>
    ensures { spec.lent result ≡ spec.value_at vars.now binding }
{
    match binding {
        Binding::Parameter { at } => vars.params.values.get(usize::from(at)),
        Binding::Local { at } => vars.locals.values.get(usize::from(at)),
        Binding::Variable { at } => vars.vars.values.get(usize::from(at)),
        _ => None,
    }
}

/// The value of a variable: a parameter, one of the body, or one of the Eject. It is read by the name's binding; where that
/// has no value, the name is looked up.
#[tactic(auto, using(crate::proofs::Bindings::value_found))]
pub fn value_named<'a>(program: &Program, vars: &'a Variables, name: &Name) -> Option<&'a Value>
    requires { spec.is_found program.now vars.now.owner variable name.now ≡ true }
    ensures { spec.lent result ≡ spec.value_as_named (spec.memory (type_tree program.now) vars.now) name.now.text }
{
    match value_at(vars, binding_at(&program.bindings, name.place)) {
        Some(value) => Some(value),
        None => value_by_name(program, vars, &name.text),
    }
}

/// Another value at a place, and the one before.
#[tactic(auto, using(crate::proofs::Operands::set_datums, crate::proofs::Operands::get_datums))]
pub(crate) fn swap_in(values: &mut Items, at: usize, value: Value) -> Value
    requires { at < length values.old }
    ensures new { values.new ≡ slice_set values.old at (datum value) }
    ensures old { Some (datum result) ≡ slice_get values.old at }
{
    mem::replace(&mut values.values[at], value)
}

/// A variable gets a value, by the name's binding, or where the name is found. The value before.
pub(crate) fn replace(
    program: &Program,
    vars: &mut Variables,
    name: &Name,
    value: Value,
) -> Option<Value>
    requires { spec.is_found program.now vars.old.owner variable name.now ≡ true }
    ensures memory { spec.memory (type_tree program.now) vars.new
        ≡ meaning.set name.now.text (datum value) (spec.memory (type_tree program.now) vars.old) }
    ensures before { option_map datum result ≡ spec.value_as_named (spec.memory (type_tree program.now) vars.old) name.now.text }
    ensures owner { vars.new.owner ≡ vars.old.owner }
{
    match binding_at(&program.bindings, name.place) {
        Binding::Parameter { at } if usize::from(at) < vars.params.values.len() => {
            Some(swap_in(&mut vars.params, usize::from(at), value))
        }
        Binding::Local { at } if usize::from(at) < vars.locals.values.len() => {
            Some(swap_in(&mut vars.locals, usize::from(at), value))
        }
        Binding::Variable { at } if usize::from(at) < vars.vars.values.len() => {
            Some(swap_in(&mut vars.vars, usize::from(at), value))
        }
        _ => replace_by_name(program, vars, &name.text, value),
    }
}

/// A variable gets a value.
pub fn set(program: &Program, vars: &mut Variables, name: &Name, value: Value)
    requires { spec.is_found program.now vars.old.owner variable name.now ≡ true }
    ensures memory { spec.memory (type_tree program.now) vars.new
        ≡ meaning.set name.now.text (datum value) (spec.memory (type_tree program.now) vars.old) }
    ensures owner { vars.new.owner ≡ vars.old.owner }
{
    replace(program, vars, name, value);
}

/// The kind of what has a value at a place among these.
pub(crate) fn kind_there<'a, T: Kinded>(
    declared: &'a [T],
    values: &Items,
    at: usize,
) -> Option<&'a Kind>
    ensures { spec.lent_kind result ≡ spec.kind_there (map (λ x. shape (T.kinded x)) declared.now) values.now at }
{
    if at < values.values.len() {
        Some(declared.get(at)?.kind())
    } else {
        None
    }
}

/// The kind of what has a value by a binding.
#[tactic(auto, using(crate::proofs::Places::param_kinds, crate::proofs::Places::local_kinds, crate::proofs::Places::var_kinds))]
fn kind_at<'a>(program: &'a Program, vars: &Variables, binding: Binding) -> Option<&'a Kind>
    ensures { spec.lent_kind result ≡ spec.kind_at (type_tree program.now) vars.now binding }
{
    match binding {
        Binding::Parameter { at } => {
            kind_there(
                params_of(program, vars.owner),
                &vars.params,
                usize::from(at),
            )
        }
        Binding::Local { at } => {
            kind_there(
                locals_of(program, vars.owner),
                &vars.locals,
                usize::from(at),
            )
        }
        Binding::Variable { at } => kind_there(&program.vars, &vars.vars, usize::from(at)),
        _ => None,
    }
}

/// The kind of a variable.
#[tactic(auto, using(crate::proofs::Bindings::kind_found))]
pub fn kind_named<'a>(program: &'a Program, vars: &Variables, name: &Name) -> Option<&'a Kind>
    requires { spec.is_found program.now vars.now.owner variable name.now ≡ true }
    ensures { spec.lent_kind result ≡ spec.kind_as_named (spec.memory (type_tree program.now) vars.now) name.now.text }
{
    match kind_at(program, vars, binding_at(&program.bindings, name.place)) {
        Some(kind) => Some(kind),
        None => kind_by_name(program, vars, &name.text),
    }
}
