//! The binding of each name, noted in the table of a type.
ghost use Rattle.std.specs.Prelude.{◌≡◌, ◌⊎◌, map, IfSome, IsTrue, true};
ghost use Rattle.std.specs.List.{list_all};
ghost use Rattle.epl_syntax.specs.declared.binding.Binding.TheVariants.{ByName};
ghost use Rattle.epl_syntax.specs.Bindings.{place_of, is_right, has_binding, variable, monitor, condition};
ghost use Rattle.epl_syntax.specs.Bindings.{binding_at as binding_in};
ghost use Rattle.epl_check.specs.Noted.{names_of, Noted};

use crate::names::Named;
use eden_value::Txt;
use epl_syntax::{Binding, CondDecl, LocalDecl, Name, ParDecl, VarDecl, binding_at, same_text};

/// The names that a body sees, each list in order of declaration.
#[derive(Clone, Copy)]
pub(crate) struct BodyNames<'a> {
    /// The parameters of an operation or an upgrade; none in a process.
    pub params: &'a [ParDecl],
    /// The variables of the body itself; none in an upgrade.
    pub locals: &'a [LocalDecl],
    /// The variables of the type.
    pub vars: &'a [VarDecl],
    /// The names of its monitors.
    pub monitors: &'a [Name],
    /// The conditions of all its monitors.
    pub conditions: &'a [CondDecl],
}

/// Where a name stands first in a list, counted from 0.
fn place_among<T: Named>(items: &[T], text: &Txt) -> Option<usize>
    ensures { result ≡ place_of (map T.named items.now) text.now }
{
    for (i, item) in items.iter().enumerate() {
        if same_text(&item.name().text, text) {
            return Some(i);
        }
    }
    None
}

/// A place in a list as a binding tells it, which is below 2^16.
fn short(at: usize) -> Option<u16>
    ensures { IfSome result (λ n. n ≡ at) }
{
    if at > u16::MAX as usize {
        return None;
    }
    Some(at as u16)
}

/// What a name stands for as a variable: a parameter, before a variable of the body, before one of the type.
fn variable_binding(names: &BodyNames<'_>, text: &Txt) -> Binding
    ensures { is_right (names_of names.now) variable text.now result ≡ true }
{
    if let Some(at) = place_among(names.params, text) {
        return match short(at) {
            Some(at) => Binding::Parameter { at },
            None => Binding::ByName,
        };
    }
    if let Some(at) = place_among(names.locals, text) {
        return match short(at) {
            Some(at) => Binding::Local { at },
            None => Binding::ByName,
        };
    }
    if let Some(at) = place_among(names.vars, text)
        && let Some(at) = short(at)
    {
        return Binding::Variable { at };
    }
    Binding::ByName
}

/// What a name stands for as a monitor.
fn monitor_binding(names: &BodyNames<'_>, text: &Txt) -> Binding
    ensures { is_right (names_of names.now) monitor text.now result ≡ true }
{
    if let Some(at) = place_among(names.monitors, text)
        && let Some(at) = short(at)
    {
        return Binding::Monitor { at };
    }
    Binding::ByName
}

/// What a name stands for as a condition.
fn condition_binding(names: &BodyNames<'_>, text: &Txt) -> Binding
    ensures { is_right (names_of names.now) condition text.now result ≡ true }
{
    if let Some(at) = place_among(names.conditions, text)
        && let Some(at) = short(at)
    {
        return Binding::Condition { at };
    }
    Binding::ByName
}

/// Notes the binding of a name at its place, and says whether it stood there already. Behind the table's end every name is
/// looked up, so there is nothing to note.
#[tactic(auto, using(crate::proofs::BindingTurns::behind))]
fn note(bindings: &mut [Binding], place: u32, binding: Binding) -> bool
    ensures kept { IsTrue result → bindings.new ≡ bindings.old }
    ensures stood { IsTrue result → (binding_in bindings.old place ≡ binding) ⊎ (binding_in bindings.old place ≡ ByName) }
{
    if binding_at(bindings, place) == binding {
        return true;
    }
    let at = place as usize;
    if at < bindings.len() {
        bindings[at] = binding;
        return false;
    }
    true
}

/// Notes the binding of a variable's name.
pub(crate) fn note_variable(names: &BodyNames<'_>, bindings: &mut [Binding], name: &Name) -> bool
    ensures { Noted result bindings.old bindings.new (has_binding bindings.old (names_of names.now) variable name.now) }
{
    note(bindings, name.place, variable_binding(names, &name.text))
}

/// Notes the binding of a monitor's name.
pub(crate) fn note_monitor(names: &BodyNames<'_>, bindings: &mut [Binding], name: &Name) -> bool
    ensures { Noted result bindings.old bindings.new (has_binding bindings.old (names_of names.now) monitor name.now) }
{
    note(bindings, name.place, monitor_binding(names, &name.text))
}

/// Notes the binding of a condition's name.
pub(crate) fn note_condition(names: &BodyNames<'_>, bindings: &mut [Binding], name: &Name) -> bool
    ensures { Noted result bindings.old bindings.new (has_binding bindings.old (names_of names.now) condition name.now) }
{
    note(bindings, name.place, condition_binding(names, &name.text))
}

/// Notes the bindings of the names of some variables.
pub(crate) fn note_variables(
    names: &BodyNames<'_>,
    bindings: &mut [Binding],
    items: &[Name],
) -> bool
    ensures { Noted result bindings.old bindings.new (list_all (has_binding bindings.old (names_of names.now) variable) items.now) }
{
    let mut stood = true;
    for name in items {
        stood &= note_variable(names, bindings, name);
    }
    stood
}
