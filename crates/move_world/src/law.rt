//! What holds of every log.
ghost use Rattle.move_world.specs.Laws.{LogsAreRuns, LogsHoldOnce, LogsShowFresh};

/// Of every log, in which each command was answered by its rule over what the nodes had.
pub fn ejects_are_held_once()
    // Its worlds are a run of the events of Ejects that wander.
    ensures runs { LogsAreRuns }
    // In each of its worlds each Eject has at most one holder, and is not lost.
    ensures once { LogsHoldOnce }
    // Each value that a waking gave was acknowledged last, or cut short since.
    ensures fresh { LogsShowFresh }
{}
