//! Upgrades of what an earlier version of a type has kept.
ghost use Rattle.std.specs.Prelude.{◌≡◌, map, IfOk, Some, None, true};
ghost use Rattle.eden_model.specs.Map.{with_item};
ghost use Rattle.eden_value.specs.Shape.{shape};
ghost use Rattle.eden_value.specs.View.{datums};
ghost use Rattle.epl_syntax.specs.Kinds.{have_shapes};
ghost use Rattle.epl_syntax.specs.Memory.{value_of_constant};
ghost use Rattle.epl_syntax.specs.Tree as tree;
ghost use Rattle.epl_syntax.specs.Tree.{Upgrade, type_tree, change};
ghost use Rattle.epl_syntax.specs.Upgrades as meaning;
ghost use Rattle.epl_values.specs.Comes.{Comes};
ghost use Rattle.epl_values.specs.Variables.{memory, is_found};
ghost use Rattle.epl_values.specs.declared.variables.Owner.TheVariants.{Upgrade as OfUpgrade};
ghost use Rattle.epl_syntax.specs.Bindings.{is_resolved};
ghost use Rattle.epl_run.specs.Found.{each_change};
ghost use Rattle.epl_run.specs.Upgraded as spec;
ghost use Rattle.epl_run.specs.Upgraded.{upgrade_at};

use crate::process::keep_declared;
use capability::Uid;
use eden_codec::Rep;
use eden_value::{Items, Value, copy_items, has_kind};
use epl_syntax::{Assignment, ParDecl, Program, UpgradeDecl};
use epl_values::{Owner, Stop, Variables, assign, value_of_constant};
use std::alloc::{AllocError, Global};

/// The values with which the variables of a new Eject begin.
fn first_values(alloc: Global, program: &Program) -> Result<Items, AllocError>
    ensures { IfOk result (λ v. v ≡ map (λ x. value_of_constant x.start.value) (type_tree program.now).vars) }
{
    let mut values = Vec::with_capacity(alloc, program.vars.len())?;
    for var in &program.vars {
        values.push(value_of_constant(alloc, &var.start.value)?)?;
    }
    Ok(Items { values })
}

/// Whether there are as many values as parameters, each of its parameter's kind.
fn are_fit(values: &[Value], params: &[ParDecl]) -> bool
    ensures { result ≡ have_shapes (datums values.now) (map (λ p. shape p.kind.kind) params.now) }
{
    let mut rest = values;
    for param in params {
        let Some((value, others)) = rest.split_first() else {
            return false;
        };
        if !has_kind(value, &param.kind.kind) {
            return false;
        }
        rest = others;
    }
    rest.is_empty()
}

/// Whether an upgrade is from a version, and its parameters take the values.
fn takes(upgrade: &UpgradeDecl, version: u16, values: &Items) -> bool
    ensures { result ≡ spec.takes (tree.upgrade upgrade.now) version values.now }
{
    upgrade.from.n == u64::from(version) && are_fit(&values.values, &upgrade.params)
}

/// The place of the upgrade that takes a representation.
fn place_of_upgrade(program: &Program, rep: &Rep) -> Option<usize>
    ensures { with_item result (upgrade_at (type_tree program.now)) None ≡ meaning.upgrade_for (type_tree program.now) rep.now }
{
    for (at, upgrade) in program.upgrades.iter().enumerate() {
        if takes(upgrade, rep.version, &rep.values) {
            return Some(at);
        }
    }
    None
}

/// Makes the assignments, in order.
fn assign_each(
    alloc: Global,
    program: &Program,
    vars: &mut Variables,
    changes: &[Assignment],
) -> Result<(), Stop>
    requires { each_change (is_found program.now vars.old.owner) (map change changes.now) ≡ true }
    ensures made { Comes (λ done. memory (type_tree program.now) vars.new) result
        (meaning.assigned (map change changes.now) (memory (type_tree program.now) vars.old)) }
    ensures owner { vars.new.owner ≡ vars.old.owner }
{
    for change in changes {
        match assign(alloc, program, vars, &change.name, &change.value) {
            Ok(()) => {}
            Err(stop) => return Err(stop),
        }
    }
    Ok(())
}

/// What the upgrade at a place sees of values that were kept.
fn seen(
    alloc: Global,
    program: &Program,
    at: usize,
    kept: &Items,
    me: Uid,
) -> Result<Variables, AllocError>
    ensures owner { IfOk result (λ v. v.owner ≡ OfUpgrade at) }
    ensures seen { (u : Upgrade) → upgrade_at (type_tree program.now) at ≡ Some u
        → IfOk result (λ v. memory (type_tree program.now) v ≡ meaning.before_upgrade (type_tree program.now) u kept.now me) }
{
    let params = copy_items(alloc, kept)?;
    let vars = first_values(alloc, program)?;
    Ok(Variables {
        owner: Owner::Upgrade { at },
        params,
        locals: Items {
            values: Vec::new(alloc),
        },
        vars,
        me,
    })
}

/// The values of all variables behind an upgrade that takes a representation. None where it faults.
fn made_by(
    alloc: Global,
    program: &Program,
    at: usize,
    upgrade: &UpgradeDecl,
    rep: &Rep,
    me: Uid,
) -> Result<Option<Items>, AllocError>
    requires there { upgrade_at (type_tree program.now) at ≡ Some (tree.upgrade upgrade.now) }
    requires resolved { is_resolved program.now ≡ true }
    requires takes { upgrade_at (type_tree program.now) at ≡ meaning.upgrade_for (type_tree program.now) rep.now }
    ensures { IfOk result (λ made. made ≡ meaning.upgraded_by (type_tree program.now) rep.now me) }
{
    let mut vars = seen(alloc, program, at, &rep.values, me)?;
    match assign_each(alloc, program, &mut vars, &upgrade.assignments) {
        Ok(()) => {
            let mut made = vars.vars;
            keep_declared(program, &mut made);
            Ok(Some(made))
        }
        Err(Stop::Fault { .. }) => Ok(None),
        Err(Stop::Memory) => Err(AllocError),
    }
}

/// The values of all variables that an upgrade makes of what an earlier version has kept. None exactly where the type has no
/// upgrade from there that takes the values, or where it faults.
pub fn upgraded(
    alloc: Global,
    program: &Program,
    rep: &Rep,
    me: Uid,
) -> Result<Option<Items>, AllocError>
    requires { is_resolved program.now ≡ true }
    ensures { IfOk result (λ made. made ≡ meaning.upgraded_by (type_tree program.now) rep.now me) }
{
    match place_of_upgrade(program, rep) {
        Some(at) => match program.upgrades.get(at) {
            Some(upgrade) => made_by(alloc, program, at, upgrade, rep, me),
            None => Ok(None),
        },
        None => Ok(None),
    }
}
