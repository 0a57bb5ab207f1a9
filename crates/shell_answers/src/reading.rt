//! The script that the words ask for.
ghost use Rattle.std.specs.Prelude.{◌≡◌, ◌⊎◌, ◌≤◌, ◌+◌, length, map, string_bytes, IfOk, IfErr};
ghost use Rattle.runs.specs.Room.{entries_in};
ghost use Rattle.lossy_wire.specs.Commands.{wire_kind};
ghost use Rattle.move_world.specs.Commands.{move_kind};
ghost use Rattle.move_world.specs.View.{meant};
ghost use Rattle.shell_answers.specs.Reading.{HasBytesFrom, HasMoves, HasScript, HasWire, Hinders, HindersLines, HindersRead, IsAskedFor};
ghost use Rattle.shell_answers.specs.Reading.{HasTwins, IsRead, IsShort, Refuses, reading};
ghost use Rattle.twin_world.specs.Commands.{twin_kind};
ghost use Rattle.twin_world.specs.View as twin_view;

use crate::outcome::Outcome;
use crate::words::{Job, Task, task_of};
use eden_gen::gen_script;
use eden_io::{ReadRefusal, Source, read_all};
use eden_script::{ScriptRefusal, a_script_is_fit, parse_script};
use journal::Script;
use lossy_wire::run_wire;
use move_world::MoveScript;
use std::alloc::Global;
use twin_world::TwinScript;

// The greatest length of a script, in bytes.
const SCRIPT_LIMIT: u32 = 1_048_576;

/// What is to be done.
#[derive(Drop)]
pub enum Asked {
    /// A job, with its script.
    History { job: Job, script: Script },
    /// What a script of a wire writes is to be written.
    Wire { text: Vec<u8> },
    /// A script of Ejects that wander is to be carried out.
    Move { script: MoveScript },
    /// A script of pairs of disks is to be carried out.
    Twin { script: TwinScript },
}

// All that the source has, or the outcome that comes where it cannot be read whole.
fn all_bytes<S: Source>(alloc: Global, source: &mut S) -> Result<Vec<u8>, Outcome>
    ensures read { IfOk result (λ bytes. IsRead (reading S.left S.ended S.faults source.old source.new) bytes.items) }
    ensures few { IfOk result (λ bytes. length bytes.items ≤ 1048576) }
    ensures hinders { IfErr result (λ o. (o ≡ Outcome.OutOfMemory)
        ⊎ HindersRead (reading S.left S.ended S.faults source.old source.new) o) }
{
    match read_all(alloc, source, SCRIPT_LIMIT) {
        Ok(bytes) => Ok(bytes),
        Err(ReadRefusal::Failed) => Err(Outcome::ReadFault),
        Err(ReadRefusal::TooLong) => Err(Outcome::TooLong),
        Err(ReadRefusal::OutOfMemory) => Err(Outcome::OutOfMemory),
    }
}

// The bytes of a job's script, or the outcome that comes where it has none.
#[tactic(auto, using(crate::proofs::Answering::hinders_run))]
fn script_bytes<S: Source>(alloc: Global, job: Job, source: &mut S) -> Result<Vec<u8>, Outcome>
    ensures has { IfOk result (λ bytes. HasBytesFrom (reading S.left S.ended S.faults source.old source.new) job bytes.items) }
    ensures few { IfOk result (λ bytes. length bytes.items ≤ 1048576) }
    ensures hinders { IfErr result (λ o. (o ≡ Outcome.OutOfMemory)
        ⊎ Hinders (reading S.left S.ended S.faults source.old source.new) job o) }
{
    match job {
        Job::Gen { number } => match gen_script(alloc, number) {
            Ok(bytes) => Ok(bytes),
            Err(_) => Err(Outcome::OutOfMemory),
        },
        Job::Run { .. } => all_bytes(alloc, source),
    }
}

// The script of a job, or the outcome that comes before a run.
fn read_history<S: Source>(alloc: Global, job: Job, source: &mut S) -> Result<Script, Outcome>
    ensures script { IfOk result (λ script. HasScript (reading S.left S.ended S.faults source.old source.new) job script) }
    ensures few { IfOk result (λ script. script.nodes + entries_in script.commands ≤ 1048576) }
    ensures hinders { IfErr result (λ o. (o ≡ Outcome.OutOfMemory)
        ⊎ Hinders (reading S.left S.ended S.faults source.old source.new) job o) }
{
    a_script_is_fit();
    let bytes = script_bytes(alloc, job, source)?;
    match parse_script(alloc, &bytes) {
        Ok(script) => Ok(script),
        Err(ScriptRefusal::Bad { line, cause }) => Err(Outcome::BadScript { line, cause }),
        Err(ScriptRefusal::OutOfMemory) => Err(Outcome::OutOfMemory),
    }
}

// What the script of a wire writes that the source has, or the outcome that comes before.
#[tactic(auto, using(crate::proofs::Answering::hinders_lines))]
fn read_wire<S: Source>(alloc: Global, source: &mut S) -> Result<Vec<u8>, Outcome>
    ensures text { IfOk result (λ text. HasWire (reading S.left S.ended S.faults source.old source.new) text.items) }
    ensures hinders { IfErr result (λ o. (o ≡ Outcome.OutOfMemory)
        ⊎ HindersLines wire_kind (reading S.left S.ended S.faults source.old source.new) o) }
{
    let bytes = all_bytes(alloc, source)?;
    match run_wire(alloc, &bytes) {
        Ok(text) => Ok(text),
        Err(ScriptRefusal::Bad { line, cause }) => Err(Outcome::BadScript { line, cause }),
        Err(ScriptRefusal::OutOfMemory) => Err(Outcome::OutOfMemory),
    }
}

// The script of Ejects that wander that the source has, or the outcome that comes before.
#[tactic(auto, using(crate::proofs::Answering::hinders_lines))]
fn read_move<S: Source>(alloc: Global, source: &mut S) -> Result<MoveScript, Outcome>
    ensures script { IfOk result (λ s. HasMoves (reading S.left S.ended S.faults source.old source.new) s.nodes
        (map meant s.commands.items)) }
    ensures hinders { IfErr result (λ o. (o ≡ Outcome.OutOfMemory)
        ⊎ HindersLines move_kind (reading S.left S.ended S.faults source.old source.new) o) }
{
    let bytes = all_bytes(alloc, source)?;
    match move_world::read_script(alloc, &bytes) {
        Ok(script) => Ok(script),
        Err(ScriptRefusal::Bad { line, cause }) => Err(Outcome::BadScript { line, cause }),
        Err(ScriptRefusal::OutOfMemory) => Err(Outcome::OutOfMemory),
    }
}

// The script of pairs of disks that the source has, or the outcome that comes before.
#[tactic(auto, using(crate::proofs::Answering::hinders_lines))]
fn read_twin<S: Source>(alloc: Global, source: &mut S) -> Result<TwinScript, Outcome>
    ensures script { IfOk result (λ s. HasTwins (reading S.left S.ended S.faults source.old source.new)
        (map twin_view.meant s.commands.items)) }
    ensures hinders { IfErr result (λ o. (o ≡ Outcome.OutOfMemory)
        ⊎ HindersLines twin_kind (reading S.left S.ended S.faults source.old source.new) o) }
{
    let bytes = all_bytes(alloc, source)?;
    match twin_world::read_script(alloc, &bytes) {
        Ok(script) => Ok(script),
        Err(ScriptRefusal::Bad { line, cause }) => Err(Outcome::BadScript { line, cause }),
        Err(ScriptRefusal::OutOfMemory) => Err(Outcome::OutOfMemory),
    }
}

/// What the words ask for, with its script; or the outcome that comes before a run.
///
/// The source is read to its end, but for `gen` it is not read.
#[tactic(auto, using(crate::proofs::Answering::refuses_task))]
pub fn read_script<S: Source>(
    alloc: Global,
    words: &Vec<String>,
    source: &mut S,
) -> Result<Asked, Outcome>
    ensures asked { IfOk result (IsAskedFor (map string_bytes words.now.items) (reading S.left S.ended S.faults source.old source.new)) }
    // A script is short enough for all that its boots and commands do.
    ensures few { IfOk result IsShort }
    ensures refuses { IfErr result (λ o. (o ≡ Outcome.OutOfMemory)
        ⊎ Refuses (map string_bytes words.now.items) (reading S.left S.ended S.faults source.old source.new) o) }
{
    match task_of(words) {
        Some(Task::History { job }) => {
            let script = read_history(alloc, job, source)?;
            Ok(Asked::History { job, script })
        }
        Some(Task::Wire) => {
            let text = read_wire(alloc, source)?;
            Ok(Asked::Wire { text })
        }
        Some(Task::Move) => {
            let script = read_move(alloc, source)?;
            Ok(Asked::Move { script })
        }
        Some(Task::Twin) => {
            let script = read_twin(alloc, source)?;
            Ok(Asked::Twin { script })
        }
        None => Err(Outcome::BadWords),
    }
}
