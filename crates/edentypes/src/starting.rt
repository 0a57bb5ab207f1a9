//! The values with which an Eject starts, and what is kept of them.
ghost use Rattle.std.specs.Prelude.{◌≡◌, IfOk, map, true};
ghost use Rattle.std.specs.Option.{option_map};
ghost use Rattle.epl_syntax.specs.Meaning as meaning;
ghost use Rattle.epl_syntax.specs.Natives as natives;
ghost use Rattle.epl_syntax.specs.Edentype.{declared as declared_type, declared_outline};
ghost use Rattle.epl_syntax.specs.Bindings.{is_resolved};
ghost use Rattle.epl_syntax.specs.Rules.Limits.{IsWithinLimits};
ghost use Rattle.epl_syntax.specs.Tree.{type_tree};
ghost use Rattle.eden_value.specs.View.{datums};
ghost use Rattle.edentypes.specs.Fitting.{FitsKind};
ghost use Rattle.edentypes.specs.Forms.{slot_of_variable};
ghost use Rattle.edentypes.specs.View.{kind_in};

use crate::form::{Form, form_at};
use crate::held::Values;
use crate::native::{NATIVE_VERSION, name_of, slots_of, stream_of};
use crate::variables::{fit_kept, only_kept, with_kept};
use crate::{Kind, find};
use capability::Uid;
use eden_codec::Rep;
use eden_value::{Items, Txt, Value, copy_items, texted};
use epl_syntax::{Native, Program, Types, VarDecl};
use std::alloc::{AllocError, Global};

/// An Eject that starts: its type, and the values of its durable variables.
#[derive(Drop)]
pub struct Begun {
    pub kind: Kind,
    pub durable: Items,
    pub ghost fits: { FitsKind kind durable },
}

/// The variables of a declared type, in order.
fn variables_of(program: &Program) -> &[VarDecl]
    ensures { map slot_of_variable result.now ≡ (declared_outline (type_tree program.now)).slots }
{
    &program.vars
}

/// The values of all variables, where the durable ones have these.
fn values_from(
    alloc: Global,
    types: &Types,
    kind: Kind,
    durable: &Items,
) -> Result<Values, AllocError>
    ensures { IfOk result (λ vars. vars ≡ meaning.values_from (kind_in types.now kind) durable.now) }
{
    let values = match form_at(types, kind) {
        Form::Native { native } => with_kept(alloc, slots_of(native), &durable.values)?,
        Form::Declared { program } => with_kept(alloc, variables_of(program), &durable.values)?,
    };
    Ok(Values::plain(Items { values }))
}

/// The values of all variables of a new Eject.
pub fn first_values(alloc: Global, types: &Types, kind: Kind) -> Result<Values, AllocError>
    ensures same { IfOk result (λ vars. vars ≡ meaning.first_values (kind_in types.now kind)) }
    ensures fits { IfOk result (FitsKind kind) }
{
    let none = Items {
        values: Vec::new(alloc),
    };
    values_from(alloc, types, kind, &none)
}

/// The values of all variables of an Eject that starts: the working ones begin anew.
pub fn start(alloc: Global, types: &Types, begun: &Begun) -> Result<Values, AllocError>
    ensures same { IfOk result (λ vars. vars ≡ meaning.values_from (kind_in types.now begun.now.kind) begun.now.durable) }
    ensures fits { IfOk result (FitsKind begun.now.kind) }
{
    values_from(alloc, types, begun.kind, &begun.durable)
}

/// The values of the durable variables, in order.
fn durable_of(alloc: Global, types: &Types, kind: Kind, vars: &[Value]) -> Result<Items, AllocError>
    ensures { IfOk result (λ kept. kept ≡ meaning.durable_of (kind_in types.now kind) (datums vars.now)) }
{
    let values = match form_at(types, kind) {
        Form::Native { native } => only_kept(alloc, slots_of(native), vars)?,
        Form::Declared { program } => only_kept(alloc, variables_of(program), vars)?,
    };
    Ok(Items { values })
}

/// The version of a declared type.
fn declared_version(program: &Program) -> u16
    requires { IsWithinLimits program.now }
    ensures { result ≡ meaning.version_of (declared_type (type_tree program.now)) }
{
    match program.version {
        Some(version) => version.n as u16,
        None => 1,
    }
}

/// The version of a type.
fn version_of(types: &Types, kind: Kind) -> u16
    ensures { result ≡ meaning.version_of (kind_in types.now kind) }
{
    match form_at(types, kind) {
        Form::Native { .. } => NATIVE_VERSION,
        Form::Declared { program } => declared_version(program),
    }
}

/// The name of a type.
fn name_in(alloc: Global, types: &Types, kind: Kind) -> Result<Txt, AllocError>
    ensures { IfOk result (λ name. name ≡ meaning.name_of (kind_in types.now kind)) }
{
    match form_at(types, kind) {
        Form::Native { native } => texted(Vec::from_slice(alloc, name_of(native))?),
        Form::Declared { program } => program.name.text.share(),
    }
}

/// What is kept of an Eject with these values.
pub fn rep(alloc: Global, types: &Types, kind: Kind, vars: &Values) -> Result<Rep, AllocError>
    ensures { IfOk result (λ rep. rep ≡ meaning.rep_of (kind_in types.now kind) vars.now) }
{
    let type_name = name_in(alloc, types, kind)?;
    let all = vars.items(alloc)?;
    let values = durable_of(alloc, types, kind, &all.values)?;
    Ok(Rep {
        type_name,
        version: version_of(types, kind),
        values,
    })
}

/// Whether stored values meet the condition of a native type.
fn meets_condition(native: Native, durable: &Items) -> bool
    ensures { result ≡ natives.native_condition native durable.now }
{
    match native {
        Native::Cell => true,
        Native::Directory => directory_eject::native_start(durable),
        _ => transput::native_start(stream_of(native), durable),
    }
}

/// Whether a representation is of this version of the type.
fn is_current(types: &Types, kind: Kind, rep: &Rep) -> bool
    ensures { result ≡ meaning.is_current (kind_in types.now kind) rep.now }
{
    if rep.version != version_of(types, kind) {
        return false;
    }
    match form_at(types, kind) {
        Form::Native { native } => {
            fit_kept(slots_of(native), &rep.values.values) && meets_condition(native, &rep.values)
        }
        Form::Declared { program } => fit_kept(variables_of(program), &rep.values.values),
    }
}

/// The durable values that an upgrade of a declared type gives.
fn declared_upgraded(
    alloc: Global,
    program: &Program,
    rep: &Rep,
    me: Uid,
) -> Result<Option<Items>, AllocError>
    requires { is_resolved program.now ≡ true }
    ensures { IfOk result (λ made. made ≡ meaning.upgraded (declared_type (type_tree program.now)) rep.now me) }
{
    match epl_run::upgraded(alloc, program, rep, me)? {
        Some(vars) => {
            let values = only_kept(alloc, variables_of(program), &vars.values)?;
            Ok(Some(Items { values }))
        }
        None => Ok(None),
    }
}

/// The durable values that an upgrade from an earlier version gives. None exactly where there is none that takes the
/// values, or where it faults.
fn upgraded(
    alloc: Global,
    types: &Types,
    kind: Kind,
    rep: &Rep,
    me: Uid,
) -> Result<Option<Items>, AllocError>
    ensures { IfOk result (λ made. made ≡ meaning.upgraded (kind_in types.now kind) rep.now me) }
{
    match form_at(types, kind) {
        Form::Native { .. } => Ok(None),
        Form::Declared { program } => declared_upgraded(alloc, program, rep, me),
    }
}

/// The durable values with which an Eject of a type starts.
fn durable_from(
    alloc: Global,
    types: &Types,
    kind: Kind,
    rep: &Rep,
    me: Uid,
) -> Result<Option<Items>, AllocError>
    ensures { IfOk result (λ found. found ≡ meaning.durable_from (kind_in types.now kind) rep.now me) }
{
    if is_current(types, kind, rep) {
        return Ok(Some(copy_items(alloc, &rep.values)?));
    }
    upgraded(alloc, types, kind, rep, me)
}

/// The Eject `me` starts from a representation. None exactly where that fits none of the types.
pub fn start_from(
    alloc: Global,
    types: &Types,
    rep: &Rep,
    me: Uid,
) -> Result<Option<Begun>, AllocError>
    ensures { IfOk result (λ found. option_map (λ b. (kind_in types.now b.kind, b.durable)) found
        ≡ meaning.started_from (meaning.types_in types.now) rep.now me) }
{
    let Some(kind) = find(types, &rep.type_name) else {
        return Ok(None);
    };
    match durable_from(alloc, types, kind, rep, me)? {
        Some(durable) => Ok(Some(Begun { kind, durable })),
        None => Ok(None),
    }
}
