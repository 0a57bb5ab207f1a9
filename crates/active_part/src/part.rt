//! What an active part is made of.
ghost use Rattle.std.proofs.Props.{props};
ghost use Rattle.edentypes.specs.Fitting.{FitsKind};
ghost use Rattle.active_part.specs.Fitting.{RestsFit};
ghost use Rattle.active_part.specs.Places.{HaveTasks};

use crate::task_list::TaskList;
use coordinator::Coordinator;
use edentypes::{Kind, Values};

/// The type of an active Eject, the values of its variables, and its processes, each of which has a task. Values and tasks are such as
/// an Eject of the type may have.
///
/// Contracts see it as a body, by the types of the script (`body_of`).
#[derive(Drop)]
pub struct Part {
    pub(crate) kind: Kind,
    pub(crate) vars: Values,
    pub(crate) tasks: TaskList,
    pub(crate) crew: Coordinator,
    pub ghost tasks_are: { HaveTasks tasks.entries.items crew.crew },
    pub ghost values_fit: { FitsKind kind vars },
    pub ghost rests_fit: { RestsFit kind tasks.entries.items } by { Prim.hlevel props },
}
