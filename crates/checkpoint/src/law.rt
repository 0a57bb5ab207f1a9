//! What holds of the disk of a node over a whole run, apart from any code.
ghost use Rattle.passive_store.specs.LogLayout.{log_layout};
ghost use Rattle.checkpoint.specs.Throughout.{RunsStand};
ghost use Rattle.checkpoint.specs.Touches.{ReadsByCalls};

/// A disk stands for a run throughout, once each entry does to it what its step says.
pub fn runs_stand()
    ensures { RunsStand }
{}

/// What a log keeps is read by a device call.
pub fn log_reads_by_calls()
    ensures { ReadsByCalls log_layout }
{}
