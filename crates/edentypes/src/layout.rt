//! How an active part of a type is laid out.
ghost use Rattle.std.specs.Prelude.{◌≡◌, ◌≤◌, IfOk, map};
ghost use Rattle.std.specs.List.{All};
ghost use Rattle.coordinator.specs.View as coordinator_view;
ghost use Rattle.epl_syntax.specs.Edentype.{native as native_type, declared as declared_type};
ghost use Rattle.epl_syntax.specs.Meaning as meaning;
ghost use Rattle.epl_syntax.specs.Rules.Limits.{IsWithinLimits};
ghost use Rattle.epl_syntax.specs.Tree.{type_tree};
ghost use Rattle.edentypes.specs.Forms.{native_setup, IsBounded};
ghost use Rattle.edentypes.specs.View.{kind_in};

use crate::Kind;
use crate::form::{Form, form_at};
use capability::Seq;
use coordinator::Setup;
use epl_syntax::{ClassDecl, CondDecl, Program, Types};
use std::alloc::{AllocError, Global};

/// The limits of the classes, in order.
fn limits_of(alloc: Global, classes: &[ClassDecl]) -> Result<Seq<u8>, AllocError>
    requires { All (λ c. c.limit.n ≤ 16) classes.now }
    ensures { IfOk result (λ made. made ≡ map (λ c. c.limit.n) classes.now) }
{
    let mut items = Vec::with_capacity(alloc, classes.len())?;
    for class in classes {
        items.push(class.limit.n as u8)?;
    }
    Ok(Seq { items })
}

/// The monitors of the conditions, in order. There are so many monitors.
fn monitors_of(alloc: Global, conditions: &[CondDecl], monitors: u8) -> Result<Seq<u8>, AllocError>
    requires { All (λ c. (1 ≤ c.monitor) × (c.monitor ≤ monitors)) conditions.now }
    ensures same { IfOk result (λ made. made ≡ map (λ c. c.monitor) conditions.now) }
    ensures within { IfOk result (λ made. All (λ m. (1 ≤ m) × (m ≤ monitors)) made) }
{
    let mut items = Vec::with_capacity(alloc, conditions.len())?;
    for condition in conditions {
        items.push(condition.monitor as u8)?;
    }
    Ok(Seq { items })
}

fn native_layout(alloc: Global) -> Result<Setup, AllocError>
    ensures same { IfOk result (λ made. coordinator_view.setup_of made ≡ native_setup) }
    ensures bounds { IfOk result IsBounded }
{
    let items = Vec::from_slice(alloc, &[1])?;
    Ok(Setup {
        limits: Seq { items },
        declared: 0,
        monitors: 0,
        conditions: Seq {
            items: Vec::new(alloc),
        },
    })
}

fn declared_layout(alloc: Global, program: &Program) -> Result<Setup, AllocError>
    requires { IsWithinLimits program.now }
    ensures same { IfOk result (λ made. coordinator_view.setup_of made ≡ meaning.setup_of (declared_type (type_tree program.now))) }
    ensures bounds { IfOk result IsBounded }
{
    let declared = program.processes.len() as u8;
    let monitors = program.monitors.len() as u8;
    let limits = limits_of(alloc, &program.classes)?;
    let conditions = monitors_of(alloc, &program.conditions, monitors)?;
    Ok(Setup {
        limits,
        declared,
        monitors,
        conditions,
    })
}

/// The classes, processes, monitors and conditions of a type, as `Coordinator::new` takes them.
///
/// A type that keeps the rules has at most 8 processes and 8 monitors, and each condition in one of its monitors.
pub fn setup(alloc: Global, types: &Types, kind: Kind) -> Result<Setup, AllocError>
    ensures same { IfOk result (λ made. coordinator_view.setup_of made ≡ meaning.setup_of (kind_in types.now kind)) }
    ensures declared { IfOk result (λ made. made.declared ≤ 8) }
    ensures monitors { IfOk result (λ made. made.monitors ≤ 8) }
    ensures conditions { IfOk result (λ made. All (λ m. (1 ≤ m) × (m ≤ made.monitors)) made.conditions) }
{
    match form_at(types, kind) {
        Form::Native { .. } => native_layout(alloc),
        Form::Declared { program } => declared_layout(alloc, program),
    }
}
