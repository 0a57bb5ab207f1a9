//! What holds besides of the runs of scripts that were read, over blocks.
ghost use Rattle.run_laws.specs.Besides.{LegalRunsHoldBesides, LegalPartsHoldBesides};
ghost use Rattle.run_laws.specs.Spent.{SpentDisksAreFull};

use eden_script::a_script_is_fit;
use history_laws::{
    a_node_that_is_down_rests, an_enabled_key_has_its_turn, every_monitor_is_held,
    first_part_follows_so_far, monitors_keep_their_variables,
};
use passive_blocks::blocks_are_a_layout;
use stream_laws::{pumps_take_so_many, streams_flow};
use undisturbed_runs::{checkpoints_are_answered, undisturbed_runs_are_complete};
use value_laws::histories_keep_limits;

/// Of each legal run of a script that was read, over eight disks at most that are handed in as they have to be: all values are values; who
/// is inside of a monitor holds it or waits for it, and touches no variable of another; each enabled key has its turn, and a node that is
/// down rests; each pipeline does what its functions say, whatever crashed, and takes so many invocations where nothing disturbs it; and
/// where a disk neither failed nor stopped, what its node asks of it comes to its end.
pub fn legal_runs_hold_besides()
    ensures whole { LegalRunsHoldBesides }

    // The same of a run that want of memory ended.
    ensures so_far { LegalPartsHoldBesides }
{
    a_script_is_fit();
    blocks_are_a_layout();
    first_part_follows_so_far();
    histories_keep_limits();
    every_monitor_is_held();
    an_enabled_key_has_its_turn();
    a_node_that_is_down_rests();
    monitors_keep_their_variables();
    streams_flow();
    pumps_take_so_many();
    undisturbed_runs_are_complete();
    checkpoints_are_answered();
}

/// A node whose disk began with an image of blocks on which the last sequence is used does not come up: each boot finds no room, unless a
/// device call fails or stops, or the last epoch is stored.
pub fn spent_disks_are_full()
    ensures { SpentDisksAreFull }
{}
