//! What a name stands for, looked up by its text.
ghost use Rattle.std.specs.Prelude.{◌≡◌, ◌<◌, map, length, Some, None, IfSome};
ghost use Rattle.std.specs.Option.{option_map};
ghost use Rattle.epl_syntax.specs.Tree.{type_tree};
ghost use Rattle.epl_syntax.specs.Bindings as bindings;
ghost use Rattle.eden_value.specs.Shape.{shape};
ghost use Rattle.eden_value.specs.View.{datum};
ghost use Rattle.epl_syntax.specs.Memory as meaning;
ghost use Rattle.epl_values.specs.Variables as spec;

use crate::named::{Kinded, Named, place_of};
use crate::variables::{Variables, kind_there, locals_of, params_of, swap_in};
use eden_value::{Items, Kind, Txt, Value};
use epl_syntax::Program;
use std::mem;

/// The value of a name among these.
fn value_in<'a, T: Named>(declared: &[T], values: &'a Items, text: &Txt) -> Option<&'a Value>
    ensures { spec.lent result ≡ spec.value_in (map T.named declared.now) values.now text.now }
{
    let place = place_of(declared, text)?;
    values.values.get(place)
}

#[tactic(auto, using(crate::proofs::Places::param_names))]
fn param_named<'a>(program: &Program, vars: &'a Variables, text: &Txt) -> Option<&'a Value>
    ensures { spec.lent result
        ≡ spec.value_in (map (λ p. p.name) (spec.parameters_of (type_tree program.now) vars.now.owner)) vars.now.params text.now }
{
    value_in(params_of(program, vars.owner), &vars.params, text)
}

#[tactic(auto, using(crate::proofs::Places::local_names))]
fn local_named<'a>(program: &Program, vars: &'a Variables, text: &Txt) -> Option<&'a Value>
    ensures { spec.lent result
        ≡ spec.value_in (map (λ v. v.name) (spec.locals_of (type_tree program.now) vars.now.owner)) vars.now.locals text.now }
{
    value_in(locals_of(program, vars.owner), &vars.locals, text)
}

#[tactic(auto, using(crate::proofs::Places::var_names))]
fn var_named<'a>(program: &Program, vars: &'a Variables, text: &Txt) -> Option<&'a Value>
    ensures { spec.lent result ≡ spec.value_in (map (λ v. v.name) (type_tree program.now).vars) vars.now.vars text.now }
{
    value_in(&program.vars, &vars.vars, text)
}

/// The value of a variable: a parameter, one of the body, or one of the Eject.
#[tactic(auto, using(crate::proofs::Places::named_is))]
pub(crate) fn value_by_name<'a>(
    program: &Program,
    vars: &'a Variables,
    text: &Txt,
) -> Option<&'a Value>
    ensures { spec.lent result ≡ spec.value_as_named (spec.memory (type_tree program.now) vars.now) text.now }
{
    if let Some(value) = param_named(program, vars, text) {
        return Some(value);
    }
    if let Some(value) = local_named(program, vars, text) {
        return Some(value);
    }
    var_named(program, vars, text)
}

/// The place of the value of a name among these.
fn held_at<T: Named>(declared: &[T], values: &Items, text: &Txt) -> Option<usize>
    ensures place { IfSome result (λ i. bindings.place_of (map T.named declared.now) text.now ≡ Some i) }
    ensures within { IfSome result (λ i. i < length values.now) }
    ensures none { (result ≡ None) → spec.value_in (map T.named declared.now) values.now text.now ≡ None }
{
    let place = place_of(declared, text)?;
    if place < values.values.len() {
        Some(place)
    } else {
        None
    }
}

/// Another value at the place of a name among these, and the one before.
#[tactic(auto, using(crate::proofs::Operands::set_datums, crate::proofs::Places::put_past))]
fn put<T: Named>(declared: &[T], values: &mut Items, text: &Txt, value: Value) -> Option<Value>
    ensures new { values.new ≡ spec.values_with (map T.named declared.now) text.now (datum value) values.old }
    ensures old { option_map datum result ≡ spec.value_in (map T.named declared.now) values.old text.now }
{
    match place_of(declared, text) {
        Some(place) => {
            if place < values.values.len() {
                Some(mem::replace(&mut values.values[place], value))
            } else {
                None
            }
        }
        None => None,
    }
}

/// A variable gets a value: a parameter before one of the body, and that before one of the Eject. The value before.
pub(crate) fn replace_by_name(
    program: &Program,
    vars: &mut Variables,
    text: &Txt,
    value: Value,
) -> Option<Value>
    ensures memory { spec.memory (type_tree program.now) vars.new
        ≡ meaning.set text.now (datum value) (spec.memory (type_tree program.now) vars.old) }
    ensures before { option_map datum result ≡ spec.value_as_named (spec.memory (type_tree program.now) vars.old) text.now }
    ensures owner { vars.new.owner ≡ vars.old.owner }
{
    let params = params_of(program, vars.owner);
    if let Some(at) = held_at(params, &vars.params, text) {
        return Some(swap_in(&mut vars.params, at, value));
    }
    let locals = locals_of(program, vars.owner);
    if let Some(at) = held_at(locals, &vars.locals, text) {
        return Some(swap_in(&mut vars.locals, at, value));
    }
    put(&program.vars, &mut vars.vars, text, value)
}

/// The kind of what has a value among these.
fn kind_in<'a, T: Kinded>(declared: &'a [T], values: &Items, text: &Txt) -> Option<&'a Kind>
    ensures { spec.lent_kind result
        ≡ spec.kind_in (map T.named declared.now) (map (λ x. shape (T.kinded x)) declared.now) values.now text.now }
{
    let place = place_of(declared, text)?;
    kind_there(declared, values, place)
}

#[tactic(auto, using(crate::proofs::Places::param_names, crate::proofs::Places::param_kinds))]
fn param_kind<'a>(program: &'a Program, vars: &Variables, text: &Txt) -> Option<&'a Kind>
    ensures { spec.lent_kind result ≡ spec.kind_in (map (λ p. p.name) (spec.parameters_of (type_tree program.now) vars.now.owner))
        (map (λ p. p.kind.shape) (spec.parameters_of (type_tree program.now) vars.now.owner)) vars.now.params text.now }
{
    kind_in(params_of(program, vars.owner), &vars.params, text)
}

#[tactic(auto, using(crate::proofs::Places::local_names, crate::proofs::Places::local_kinds))]
fn local_kind<'a>(program: &'a Program, vars: &Variables, text: &Txt) -> Option<&'a Kind>
    ensures { spec.lent_kind result ≡ spec.kind_in (map (λ v. v.name) (spec.locals_of (type_tree program.now) vars.now.owner))
        (map (λ v. v.kind.shape) (spec.locals_of (type_tree program.now) vars.now.owner)) vars.now.locals text.now }
{
    kind_in(locals_of(program, vars.owner), &vars.locals, text)
}

#[tactic(auto, using(crate::proofs::Places::var_names, crate::proofs::Places::var_kinds))]
fn var_kind<'a>(program: &'a Program, vars: &Variables, text: &Txt) -> Option<&'a Kind>
    ensures { spec.lent_kind result ≡ spec.kind_in (map (λ v. v.name) (type_tree program.now).vars)
        (map (λ v. v.kind.shape) (type_tree program.now).vars) vars.now.vars text.now }
{
    kind_in(&program.vars, &vars.vars, text)
}

/// The kind of a variable: a parameter, one of the body, or one of the Eject.
#[tactic(auto, using(crate::proofs::Places::kind_named_is))]
pub(crate) fn kind_by_name<'a>(
    program: &'a Program,
    vars: &Variables,
    text: &Txt,
) -> Option<&'a Kind>
    ensures { spec.lent_kind result ≡ spec.kind_as_named (spec.memory (type_tree program.now) vars.now) text.now }
{
    if let Some(kind) = param_kind(program, vars, text) {
        return Some(kind);
    }
    if let Some(kind) = local_kind(program, vars, text) {
        return Some(kind);
    }
    var_kind(program, vars, text)
}
