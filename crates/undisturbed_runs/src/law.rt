//! What holds of the steps of a run at a node whose disk neither failed nor stopped, apart from any code.
ghost use Rattle.undisturbed_runs.specs.Runs.{UndisturbedRunsAreComplete, UndisturbedPartsAreComplete};
ghost use Rattle.undisturbed_runs.specs.Runs.{CheckpointsAreAnswered, CheckpointsAreAnsweredSoFar};

/// Where neither the fault count nor the stop count of a node's disk rose in a legal run, each turn of its store goes
/// on, is done or lacks room, and what is done is told to the process that asked; each activation there finds what is
/// kept; and each boot brings the node up, but for what is on the disk.
pub fn undisturbed_runs_are_complete()
    ensures whole { UndisturbedRunsAreComplete }

    // The same of a run that want of memory ended.
    ensures so_far { UndisturbedPartsAreComplete }
{}

/// So each checkpoint within size and room is answered 0 once its put has ended, unless its Eject lost its active part
/// since it asked, where the types of the script keep the rules.
pub fn checkpoints_are_answered()
    ensures whole { CheckpointsAreAnswered }

    // The same of a run that want of memory ended.
    ensures so_far { CheckpointsAreAnsweredSoFar }
{}
