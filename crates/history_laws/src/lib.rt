//! Laws of every history of every script, and of every world that one reaches.
#![tactic(auto)]

mod law;
mod site_law;

pub use law::{
    a_node_that_is_down_rests, an_enabled_key_has_its_turn, an_unasked_stop_is_refused,
    an_unwritten_disk_is_refused, another_clock_is_refused, blank_disks_may_be_handed_in,
    disks_may_be_handed_on, disks_stand_at_the_end, disks_stand_at_the_opening,
    every_start_is_whole, exchanged_disks_are_refused, first_part_follows_so_far,
    invented_faults_are_refused, no_eject_rolled_back, no_uid_twice, only_granted_are_used,
    what_makes_a_run_legal,
};
pub use site_law::{
    a_held_call_is_run_or_queued, a_stop_ends_in_a_fall, an_entry_elsewhere_leaves_a_state,
    an_event_keeps_its_site, every_epoch_is_bounded, every_monitor_is_held, every_site_is_sound,
    every_turn_is_fit, every_world_is_sound, monitors_keep_their_variables,
};
