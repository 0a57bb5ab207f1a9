//! Blocks of steps, and the places in them.
ghost use Rattle.std.specs.Prelude.{◌≡◌, ◌↔◌, Bool, true, length, IsTrue};
ghost use Rattle.epl_syntax.specs.Tree.{type_tree, statement};
ghost use Rattle.epl_syntax.specs.Statements as meaning;
ghost use Rattle.epl_run.specs.Blocks as spec;
ghost use Rattle.epl_run.specs.Blocks.{IsCounted};
ghost use Rattle.epl_run.specs.Found.{AreOfBody, each_in, each_made};
ghost use Rattle.epl_syntax.specs.Bindings.{Sort, monitor, condition, each_of_statement};
ghost use Rattle.epl_syntax.specs.declared.tree.Name.{Name as Written};
ghost use Rattle.epl_values.specs.Variables.{is_found};
ghost use Rattle.epl_values.specs.declared.variables.Owner.{Owner};

use crate::rest::{Branch, Frame};
use eden_value::Txt;
use epl_syntax::{Binding, Name, Program, Stmt, binding_at};
use epl_values::place_of;

/// The steps of a block: its statements, and behind them the end of a `with` that leaves a monitor.
#[derive(Clone, Copy)]
pub(crate) struct Block<'p> {
    pub statements: &'p [Stmt],
    pub leaves: Option<u8>,
}

/// Whether monitors and conditions are few enough to be numbered by a byte.
pub fn is_counted(program: &Program) -> bool
    ensures { IsTrue result ↔ IsCounted program.now }
{
    program.monitors.len() <= u8::MAX as usize && program.conditions.len() <= u8::MAX as usize
}

/// The number of the monitor of a text, counted from 1.
#[tactic(auto, using(crate::proofs::Counted::monitor_is, crate::proofs::Counted::place_in))]
fn monitor_by_name(program: &Program, text: &Txt) -> u8
    requires { IsCounted program.now }
    ensures { result ≡ meaning.monitor_number (type_tree program.now) text.now }
{
    match place_of(&program.monitors, text) {
        Some(place) => place as u8 + 1,
        None => 0,
    }
}

/// The number of the monitor of a name, counted from 1.
#[tactic(auto, using(crate::proofs::Found::monitor_within, crate::proofs::Found::monitor_at))]
pub(crate) fn monitor_number(program: &Program, name: &Name) -> u8
    requires counted { IsCounted program.now }
    requires found { (owner : Owner) × (is_found program.now owner monitor name.now ≡ true) }
    ensures { result ≡ meaning.monitor_number (type_tree program.now) name.now.text }
{
    match binding_at(&program.bindings, name.place) {
        Binding::Monitor { at } => at as u8 + 1,
        _ => monitor_by_name(program, &name.text),
    }
}

/// The number of the condition of a text, counted from 0.
#[tactic(auto, using(crate::proofs::Counted::condition_is, crate::proofs::Counted::place_in))]
fn condition_by_name(program: &Program, text: &Txt) -> u8
    requires { IsCounted program.now }
    ensures { result ≡ meaning.condition_number (type_tree program.now) text.now }
{
    match place_of(&program.conditions, text) {
        Some(place) => place as u8,
        None => 0,
    }
}

/// The number of the condition of a name, counted from 0.
#[tactic(auto, using(crate::proofs::Found::condition_within, crate::proofs::Found::condition_at))]
pub(crate) fn condition_number(program: &Program, name: &Name) -> u8
    requires counted { IsCounted program.now }
    requires found { (owner : Owner) × (is_found program.now owner condition name.now ≡ true) }
    ensures { result ≡ meaning.condition_number (type_tree program.now) name.now.text }
{
    match binding_at(&program.bindings, name.place) {
        Binding::Condition { at } => at as u8,
        _ => condition_by_name(program, &name.text),
    }
}

fn of(statements: &[Stmt]) -> Block<'_>
    ensures steps { spec.steps_in result ≡ spec.steps_of statements.now }
    ensures statements { result.statements.now ≡ statements.now }
{
    Block {
        statements,
        leaves: None,
    }
}

/// The steps of a branch of a statement, none where it has no such branch.
#[tactic(auto, using(crate::proofs::Rows::row_steps))]
fn branch_of<'p>(program: &Program, branch: Branch, s: &'p Stmt) -> Block<'p>
    requires counted { IsCounted program.now }
    requires found { (owner : Owner) × (each_of_statement (is_found program.now owner) (statement s.now) ≡ true) }
    ensures steps { spec.steps_in result ≡ spec.branch_steps (type_tree program.now) branch (meaning.does (statement s.now)) }
    ensures each { (test : Sort → Written → Bool) → each_of_statement test (statement s.now) ≡ true
        → each_in test result.statements.now ≡ true }
{
    match s {
        Stmt::If { so, otherwise, .. } => match branch {
            Branch::So => of(so),
            Branch::Otherwise => of(otherwise),
            _ => of(&[]),
        },
        Stmt::While { body, .. } => match branch {
            Branch::Body => of(body),
            _ => of(&[]),
        },
        Stmt::With { monitor, body, .. } => match branch {
            Branch::Held => Block {
                statements: body,
                leaves: Some(monitor_number(program, monitor)),
            },
            _ => of(&[]),
        },
        _ => of(&[]),
    }
}

/// The steps of a branch of a block's statement, or the block itself.
pub(crate) fn inner<'p>(program: &Program, block: Block<'p>, at: usize, branch: Branch) -> Block<'p>
    requires counted { IsCounted program.now }
    requires found { AreOfBody program.now block.statements.now }
    ensures steps { spec.steps_in result ≡ spec.inner (type_tree program.now) (spec.steps_in block.entry) at branch }
    ensures each { (test : Sort → Written → Bool) → each_in test block.entry.statements.now ≡ true
        → each_in test result.statements.now ≡ true }
{
    match branch {
        Branch::Whole => block,
        _ => match block.statements.get(at) {
            Some(s) => branch_of(program, branch, s),
            None => of(&[]),
        },
    }
}

/// The innermost block of the frames.
pub(crate) fn block_at<'p>(program: &Program, body: &'p [Stmt], frames: &[Frame]) -> Block<'p>
    requires counted { IsCounted program.now }
    requires found { AreOfBody program.now body.now }
    ensures steps { spec.steps_in result ≡ spec.block_at (type_tree program.now) (spec.steps_of body.now) frames.now }
    ensures each { (test : Sort → Written → Bool) → each_in test body.now ≡ true → each_in test result.statements.now ≡ true }
{
    let mut block = of(body);
    for frame in frames {
        block = inner(program, block, frame.entered, frame.branch);
    }
    block
}

/// The block of one more frame, behind others.
pub(crate) fn block_of<'p>(
    program: &Program,
    body: &'p [Stmt],
    frames: &[Frame],
    frame: Frame,
) -> Block<'p>
    requires counted { IsCounted program.now }
    requires found { AreOfBody program.now body.now }
    ensures steps { spec.steps_in result ≡ spec.own (type_tree program.now)
        (spec.block_at (type_tree program.now) (spec.steps_of body.now) frames.now) frame }
    ensures each { (test : Sort → Written → Bool) → each_in test body.now ≡ true → each_in test result.statements.now ≡ true }
{
    let around = block_at(program, body, frames);
    inner(program, around, frame.entered, frame.branch)
}

/// The statement before a place of a block.
#[tactic(auto, using(crate::proofs::Rows::before_first, crate::proofs::Rows::before_statement, crate::proofs::Rows::before_none))]
fn before<'p>(block: Block<'p>, place: usize) -> Option<&'p Stmt>
    ensures awaited { spec.awaited_at result ≡ spec.awaited_before (spec.steps_in block.entry) place }
    ensures each { (test : Sort → Written → Bool) → each_in test block.entry.statements.now ≡ true → each_made test result ≡ true }
{
    if place == 0 {
        return None;
    }
    match block.statements.get(place - 1) {
        Some(s) => Some(s),
        None => None,
    }
}

/// The statement that was made last: that before the place of the innermost frame.
pub(crate) fn last_made<'p>(
    program: &Program,
    body: &'p [Stmt],
    frames: &[Frame],
) -> Option<&'p Stmt>
    requires counted { IsCounted program.now }
    requires found { AreOfBody program.now body.now }
    ensures awaited { spec.awaited_at result ≡ spec.awaited (type_tree program.now) (spec.steps_of body.now) frames.now }
    ensures each { (test : Sort → Written → Bool) → each_in test body.now ≡ true → each_made test result ≡ true }
{
    let mut block = of(body);
    let mut made = None;
    for frame in frames {
        block = inner(program, block, frame.entered, frame.branch);
        made = before(block, frame.next);
    }
    made
}
