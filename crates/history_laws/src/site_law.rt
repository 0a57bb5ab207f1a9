//! What holds of every node of every world that a history reaches, and of every event at a node.
ghost use Rattle.journal.specs.SiteLaws.{WorldsAreSound, SitesAreSound, HeldCallsAreWork, MonitorsAreHeld, EpochsAreBounded};
ghost use Rattle.journal.specs.SiteLaws.{StopsAreFalls, FallsAreLast, EventsKeepSites, EventsKeepCalls, StatesStayElsewhere};
ghost use Rattle.journal.specs.SiteLaws.{EveryTurnIsFit, MonitorsKeepVariables, VariablesStay};

/// Every world at the end of a history so far, over disks that are handed in as they have to be, is sound:
/// its nodes and their Ejects are in order, each process has a task, only the first of a node's requests
/// has made device calls and has one left, and a call on its way goes to a node that is there.
pub fn every_world_is_sound()
    ensures { WorldsAreSound }
{}

/// Each of its nodes is sound as well, where the types of the script keep the rules: each call that an Eject
/// runs or has queued is held there, and once, and a process with an open call or a request at the store
/// waits for that alone.
pub fn every_site_is_sound()
    ensures { SitesAreSound }
{}

/// And a call that is held at an Eject is one that it runs or has queued, with such types.
pub fn a_held_call_is_run_or_queued()
    ensures { HeldCallsAreWork }
{}

/// A process whose rest is inside of a monitor holds it, waits in its entry queue, or waits on one of its
/// conditions, with such types; and no other does.
pub fn every_monitor_is_held()
    ensures { MonitorsAreHeld }
{}

/// A process that waits for nothing has a turn that can be carried out, with such types: it creates Ejects only
/// of types that there are, locks monitors that there are, leaves one that it holds, and waits on conditions
/// of one that it holds, and signals those.
pub fn every_turn_is_fit()
    ensures { EveryTurnIsFit }
{}

/// A process of a declared type touches in its turn no variable of a monitor that it does not hold, with such
/// types: it neither changes one nor depends on one. And no entry changes a variable of an active part but a
/// turn of one of its processes.
pub fn monitors_keep_their_variables()
    ensures turns { MonitorsKeepVariables }
    ensures entries { VariablesStay }
{}

/// The stored epoch of each of its nodes, and the one in doubt, are at most 4,294,967,295.
pub fn every_epoch_is_bounded()
    ensures { EpochsAreBounded }
{}

/// A turn that ends in a stop is what it did before the node fell, and then the fall. In the world the
/// calls are broken behind both.
pub fn a_stop_ends_in_a_fall()
    ensures at_site { StopsAreFalls }
    ensures in_world { FallsAreLast }
{}

/// An event at a node keeps the site's number, types and layout, and all fields of the node but those that
/// its kind changes. Each call goes on, and a new one was asked by a process of the node.
pub fn an_event_keeps_its_site()
    ensures site { EventsKeepSites }
    ensures calls { EventsKeepCalls }
{}

/// An entry that touches another disk, or none, leaves the state of a node: what is kept there, and what
/// is in doubt.
pub fn an_entry_elsewhere_leaves_a_state()
    ensures { StatesStayElsewhere }
{}
