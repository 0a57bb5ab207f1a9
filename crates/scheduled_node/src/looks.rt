//! The keys of a node's turns.
ghost use Rattle.std.specs.Prelude.{◌≡◌, IsTrue};
ghost use Rattle.std.specs.List.{find};
ghost use Rattle.epl_syntax.specs.Rules.OfTypes.{TypeList};
ghost use Rattle.invocation.specs.Mail.{Mail};
ghost use Rattle.journal.specs.Enabled.{is_past, node_keys};
ghost use Rattle.journal.specs.Sites.{IsSoundSite};
ghost use Rattle.journal.specs.World.{Site};
ghost use Rattle.agenda.specs.Places.{at_place};
ghost use Rattle.scheduled_node.specs.Scheduled.{manned, ScheduledStands};

use crate::ScheduledNode;
use ejects::Ejects;
use journal::Key;
use passive_store::Store;
use std::ops::ControlFlow;

impl<St: Store> ScheduledNode<St> {
    /// Its Ejects.
    pub fn ejects(&self) -> &Ejects
        ensures { result.now ≡ self.now.node.ejects }
    {
        self.node.ejects()
    }

    /// The first key of the node past the last one: of an activation, a start, a process or the store.
    pub fn next(&self, last: Option<Key>) -> Option<Key>
        ensures { IsTrue St.Device.tells → (ts : TypeList) (m : Mail) (s : Site) → IsSoundSite s
            → ScheduledStands St.layout ts (manned St.seen self.now) m s → result ≡ find (is_past last) (node_keys s) }
    {
        let ejects = self.node.ejects();
        let worked = self.node.worked_on();
        self.agenda.next(ejects, worked, self.node.pending(), last)
    }

    /// The key at this place among all keys of the node, in their order from 0, or the places left behind all of them.
    pub fn key_at(&self, place: usize) -> ControlFlow<Key, usize>
        ensures { IsTrue St.Device.tells → (ts : TypeList) (m : Mail) (s : Site) → IsSoundSite s
            → ScheduledStands St.layout ts (manned St.seen self.now) m s → result ≡ at_place (node_keys s) place }
    {
        let ejects = self.node.ejects();
        let worked = self.node.worked_on();
        self.agenda
            .key_at(ejects, worked, self.node.pending(), place)
    }
}
