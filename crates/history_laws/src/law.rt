//! What holds of every history of every script, apart from any code.
ghost use Rattle.journal.specs.RefusedRuns.{UnwrittenDiskIsRefused, ExchangedDisksAreRefused, InventedFaultsAreRefused};
ghost use Rattle.journal.specs.RefusedRuns.{UnaskedStopIsRefused, OtherClockIsRefused, BlankLogsMayBeHandedIn};
ghost use Rattle.journal.specs.Laws.{NoEjectIsRolledBack, EveryStartIsWhole, NoUidIsGivenTwice, RunsAreLegal, RunsAreLegalSoFar};
ghost use Rattle.journal.specs.Laws.{FirstPartsFollow, FirstPartsFollowSoFar, EnabledKeysHaveTurns, OnlyGrantedAreUsed, DownNodesRest};
ghost use Rattle.journal.specs.Laws.{DisksStandAtTheOpening, DisksStandAtTheEnd, DisksMayBeHandedOn};

/// No Eject is rolled back but by its own put or removal, acknowledged or found done; a crash of one
/// node takes no active part from an Eject of another.
pub fn no_eject_rolled_back()
    ensures { NoEjectIsRolledBack }
{}

/// Every start is whole: from the representation that was kept last, or from the one that was cut
/// short since, where the start itself finds it done.
pub fn every_start_is_whole()
    ensures { EveryStartIsWhole }
{}

/// No uid is given twice, over disks that are handed in as they have to be and a layout that keeps what
/// layouts owe: a created Eject is none that the world has, none that the images held, and none that was
/// created before.
pub fn no_uid_twice()
    ensures { NoUidIsGivenTwice }
{}

/// Each entry uses only capabilities that were granted before it, where the script writes out none, as
/// its grammar has it: a creation, a held name, a start, a reply and an activation grant.
pub fn only_granted_are_used()
    ensures { OnlyGrantedAreUsed }
{}

/// A run over disks that are handed in as they have to be, of a script that writes out no capability, is
/// legal once its history follows its script, each disk stands for the history and is given back right
/// behind its last entry, and the entries show each of its faults and stops, each by its command: the
/// rest are the laws above. So is a run that want of memory ended, once no fault is made up.
pub fn what_makes_a_run_legal()
    ensures whole { RunsAreLegal }
    ensures so_far { RunsAreLegalSoFar }
{}

/// A first part of a history that follows its script follows it so far, and so does a first part of one
/// that follows it so far.
pub fn first_part_follows_so_far()
    ensures of_a_whole { FirstPartsFollow }
    ensures of_a_part { FirstPartsFollowSoFar }
{}

/// At the end of a history so far, over disks that are handed in as they have to be, each key that is
/// enabled has its turn: the world allows some entry of it as a turn, whatever is due in the script and
/// however many turns were taken. The types of the script keep the rules, and each of their conditions is
/// of a monitor.
pub fn an_enabled_key_has_its_turn()
    ensures { EnabledKeysHaveTurns }
{}

/// A node that is down at the end of a history so far, over disks that are handed in as they have to be,
/// is at rest: no request, no active part, no queued call, and no message on its way to it or from it.
pub fn a_node_that_is_down_rests()
    ensures { DownNodesRest }
{}

/// At the beginning each image that a crash may leave of a disk that is handed in as it has to be stands
/// for the state of its node, over a layout that keeps what layouts owe.
pub fn disks_stand_at_the_opening()
    ensures { DisksStandAtTheOpening }
{}

/// At the end of a legal run each image that a crash may leave of a disk stands for the state of its
/// node.
pub fn disks_stand_at_the_end()
    ensures { DisksStandAtTheEnd }
{}

/// From run to run: disks that were handed in for the changes of a run and for so many more may be handed in
/// for these, once a legal run gave them back and they are at rest again, as behind a power cut.
pub fn disks_may_be_handed_on()
    ensures { DisksMayBeHandedOn }
{}

/// A save is acknowledged, and its value found after a crash, over a disk that was never written: that is
/// no legal run.
pub fn an_unwritten_disk_is_refused()
    ensures { UnwrittenDiskIsRefused }
{}

/// Nor is one whose disks are given back in each other's place.
pub fn exchanged_disks_are_refused()
    ensures { ExchangedDisksAreRefused }
{}

/// Nor one whose boots fail, on a disk that counted no fault.
pub fn invented_faults_are_refused()
    ensures { InventedFaultsAreRefused }
{}

/// Nor one that stops, on a disk that does what is asked of it, where nothing asked for a stop.
pub fn an_unasked_stop_is_refused()
    ensures { UnaskedStopIsRefused }
{}

/// Nor one that shows a clock which its disk has not reached.
pub fn another_clock_is_refused()
    ensures { OtherClockIsRefused }
{}

/// Blank disks of 17 bytes or more, with a log as their layout, are handed in as they have to be, so none
/// of these is refused for that.
pub fn blank_disks_may_be_handed_in()
    ensures { BlankLogsMayBeHandedIn }
{}
