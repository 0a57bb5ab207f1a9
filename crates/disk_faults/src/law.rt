//! What holds of the faults of a disk over a whole run, apart from any code.
ghost use Rattle.disk_faults.specs.Runs.{RunsShowFaults, RunsShowNoMore, RunsShowClocks, RunsLeaveArmed};

/// Where each entry of a run shows what happened to a disk, each of its faults and stops is shown by an entry of its own, and no other is
/// shown; and where the disk obeys, each has its command.
pub fn faults_are_shown()
    ensures whole { RunsShowFaults }

    // Where want of memory ended the run, none is made up.
    ensures so_far { RunsShowNoMore }

    // An arming and a power cut show the clock of the disk before them.
    ensures counted { RunsShowClocks }

    // And a disk that obeys is armed as the entries asked.
    ensures armed { RunsLeaveArmed }
{}
