//! A new active part.
ghost use Rattle.std.specs.Prelude.{◌≡◌, ◌≤◌, IfOk, length, map, []};
ghost use Rattle.epl_syntax.specs.Edentype.{Edentype};
ghost use Rattle.eden_model.specs.Map.{each_value};
ghost use Rattle.edentypes.specs.Fitting.{FitsKind};
ghost use Rattle.edentypes.specs.View.{kind_in, rest_of};
ghost use Rattle.journal.specs.Ejects.{fresh, tasks_from};
ghost use Rattle.active_part.specs.Body.{active_of};
ghost use Rattle.active_part.specs.View.{body_of, task_of};

use crate::Doing;
use crate::part::Part;
use crate::task_list::TaskList;
use coordinator::Coordinator;
use edentypes::{Kind, Rest, Values};
use epl_syntax::{Answer, Types};
use std::alloc::{AllocError, Global};

// The tasks of the declared processes, which run under the numbers 1 upward.
fn first_tasks(alloc: Global, rests: Vec<Rest>) -> Result<TaskList, AllocError>
    requires { length rests.items ≤ 8 }
    ensures { IfOk result (λ tasks. (t : Edentype)
        → each_value (task_of t) tasks.entries.items ≡ tasks_from 1 (map (rest_of t) rests.items)) }
{
    let mut left = rests;
    let mut tasks = TaskList::with_capacity(alloc, left.len())?;
    while let Some(rest) = left.pop() {
        let number = left.len() as u8 + 1;
        let doing = Doing {
            rest,
            answer: Answer::Go,
        };
        tasks.add(number, doing)?;
    }
    Ok(tasks)
}

impl Part {
    /// An active part that has these values of all its variables and starts anew: its declared processes run, its
    /// monitors are free, and nothing is queued.
    pub fn fresh(alloc: Global, types: &Types, kind: Kind, vars: Values) -> Result<Part, AllocError>
        requires { FitsKind kind vars }
        ensures active { IfOk result (λ part. active_of (body_of types.now part) ≡ fresh (kind_in types.now kind) vars) }
        ensures queued { IfOk result (λ part. (body_of types.now part).crew.queued ≡ []) }
    {
        let setup = edentypes::setup(alloc, types, kind)?;
        let rests = edentypes::processes(alloc, types, kind)?;
        let crew = Coordinator::new(alloc, setup)?;
        let tasks = first_tasks(alloc, rests)?;
        Ok(Part {
            kind,
            vars,
            tasks,
            crew,
        })
    }
}
