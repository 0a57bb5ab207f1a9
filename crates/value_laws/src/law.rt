//! Values within the limits, in every type and in every history.
ghost use Rattle.value_laws.specs.Limited.{TurnKeepsLimits, BeginKeepsLimits, DeclaredAreLimited, FirstAreLimited, DurableAreLimited};
ghost use Rattle.value_laws.specs.Limited.{StartKeepsLimits};
ghost use Rattle.value_laws.specs.Worlds.{BytesGiveLimited, HistoriesKeepLimits};

/// No type makes a value past the limits: those that a turn leaves, in the variables, in what is left to do and in the effect,
/// are within them where those before it are, and the constants of the type; and so are those with which operations, processes
/// and Ejects begin, and those that a checkpoint keeps.
pub fn types_keep_limits()
    ensures turn { TurnKeepsLimits }
    ensures begin { BeginKeepsLimits }
    ensures declared { DeclaredAreLimited }
    ensures first { FirstAreLimited }
    ensures durable { DurableAreLimited }
    ensures start { StartKeepsLimits }
{}

/// Whatever bytes are read, the values that they give back are within the limits: so what is kept of an Eject, whatever became of
/// the disk, is read back as such values or not at all.
pub fn bytes_give_limited()
    ensures { BytesGiveLimited }
{}

/// All values are values: in every world of every history of a fit script, over at most eight disks that are handed in as they
/// have to be, those of active parts and of what is kept, of what processes have left to do and are told, of calls, their
/// arguments and their results, and of the script's names are within the limits.
pub fn histories_keep_limits()
    ensures { HistoriesKeepLimits }
{}
