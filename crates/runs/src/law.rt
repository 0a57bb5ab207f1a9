//! What holds of every run, apart from any code.
ghost use Rattle.runs.specs.Laws.{RunsMayBegin, EntriesAreFew};

/// Each world on the way of a fit script, over disks that are handed in as they have to be, is as machines take
/// it (`IsReached`): its sites are sound, its uids are those of its nodes and the next ones are new, its turns
/// can be carried out, its epochs are bounded. It offers the types of the script and the nodes that it boots,
/// where there is a disk for each.
pub fn a_run_may_begin()
    ensures { RunsMayBegin }
{}

/// Fit commands give at most 1,025 entries each besides those of turns.
pub fn entries_are_few()
    ensures { EntriesAreFew }
{}
