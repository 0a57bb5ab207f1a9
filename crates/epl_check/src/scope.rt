//! What the names of a body may stand for.
ghost use Rattle.std.specs.Prelude.{map, []};
ghost use Rattle.epl_check.specs.Numbered.{IsIndex};

use crate::index::{Listed, Numbers};
use eden_value::Kind;
use epl_syntax::{CondDecl, LocalDecl, Name, ParDecl, Program, Types, VarDecl, WrittenKind};
use std::alloc::Global;

/// What all bodies of a type see, with the numbers of its names.
#[derive(Clone, Copy)]
pub(crate) struct Surroundings<'a> {
    /// What memory is taken from, for the numbers of names and for kinds.
    pub alloc: Global,
    /// The type in which the bodies stand.
    pub program: &'a Program,
    /// The native types, and those that the script declares before that type.
    pub earlier: &'a Types,
    /// The number of each variable of the type by its name, counted from 1.
    pub vars: &'a Numbers,
    /// The number of each of its monitors by its name, counted from 1.
    pub monitors: &'a Numbers,
    /// The number of each of its conditions by its name, counted from 1.
    pub conditions: &'a Numbers,
    /// The numbers in a list of nothing.
    pub none: &'a Numbers,
    pub ghost none_numbered: { IsIndex none.now [] },
    pub ghost vars_numbered: { IsIndex vars.now (map (λ v. v.name) program.now.vars.items) },
    pub ghost monitors_numbered: { IsIndex monitors.now program.now.monitors.items },
    pub ghost conditions_numbered: { IsIndex conditions.now (map (λ c. c.name) program.now.conditions.items) },
}

/// What the names of a body may stand for.
#[derive(Clone, Copy)]
pub(crate) struct Scope<'a> {
    /// What memory for kinds is taken from.
    pub alloc: Global,
    /// The parameters of an operation or an upgrade; none in a process.
    pub params: Listed<'a, ParDecl>,
    /// The variables of the body itself; none in an upgrade.
    pub locals: Listed<'a, LocalDecl>,
    /// The variables of the type; none in an upgrade.
    pub vars: Listed<'a, VarDecl>,
    /// The names of the type's monitors; none in an upgrade.
    pub monitors: Listed<'a, Name>,
    /// The conditions of all its monitors; none in an upgrade.
    pub conditions: Listed<'a, CondDecl>,
    /// The name of the type itself.
    pub own: &'a Name,
    /// The types before that one, of which the native ones stand first.
    pub earlier: &'a Types,
    /// The kinds of an operation's results; none in a process.
    pub results: Option<&'a [WrittenKind]>,
    pub ghost params_numbered: { IsIndex params.numbers.now (map (λ p. p.name) params.items.now) },
    pub ghost locals_numbered: { IsIndex locals.numbers.now (map (λ v. v.name) locals.items.now) },
    pub ghost vars_numbered: { IsIndex vars.numbers.now (map (λ v. v.name) vars.items.now) },
    pub ghost monitors_numbered: { IsIndex monitors.numbers.now monitors.items.now },
    pub ghost conditions_numbered: { IsIndex conditions.numbers.now (map (λ c. c.name) conditions.items.now) },
}

/// The kind of a variable and the number of its monitor, 0 for none.
#[derive(Clone, Copy)]
pub(crate) struct Variable<'a> {
    /// Of which kind its values are.
    pub kind: &'a Kind,
    /// The number of the monitor in which it is declared, counted from 1; 0 for none.
    pub monitor: u32,
}
