//! Ejects are created.
ghost use Rattle.std.specs.Prelude.{◌≡◌, IfOk, IsTrue, OnOk};
ghost use Rattle.edentypes.specs.View.{kind_in};
ghost use Rattle.invocation.specs.Mail.{Mail};
ghost use Rattle.journal.specs.World.{Site};
ghost use Rattle.ejects.specs.Creations.{HasNewUid};
ghost use Rattle.eden_kernel.specs.Stands.{held, IsWhole};
ghost use Rattle.scheduled_node.specs.Scheduled.{manned, ScheduledStands, ScheduledCreates, uid_made};

use crate::ScheduledNode;
use capability::Uid;
use eden_value::Status;
use edentypes::Kind;
use epl_syntax::Types;
use passive_store::Store;
use std::alloc::{AllocError, Global};

// The uid of a new Eject, if there is one.
fn uid_of(made: &Result<Uid, Status>) -> Option<Uid>
    ensures { result ≡ uid_made made.now }
{
    match made {
        Ok(uid) => Some(*uid),
        Err(_) => None,
    }
}

impl<St: Store> ScheduledNode<St> {
    /// A new Eject of this type, which is active: its uid, or `TooMany` or `SerialsSpent`.
    pub fn create(
        &mut self,
        alloc: Global,
        types: &Types,
        kind: Kind,
    ) -> Result<Result<Uid, Status>, AllocError>
        requires whole { IsWhole (held St.seen self.old.node) }
        ensures whole { OnOk result (IsWhole (held St.seen self.new.node)) }
        ensures number { self.new.node.number ≡ self.old.node.number }
        ensures store { St.seen self.new.node.store ≡ St.seen self.old.node.store }
        ensures made { IsTrue St.Device.tells → IfOk result (λ made. (m : Mail) (s : Site) → HasNewUid s
            → ScheduledStands St.layout types.now (manned St.seen self.old) m s
            → ScheduledCreates St.layout types.now (manned St.seen self.old) (manned St.seen self.new) m (kind_in types.now kind) made s) }
    {
        let made = self.node.create(alloc, types, kind)?;
        self.agenda
            .note_each(self.node.ejects(), uid_of(&made), None)?;
        Ok(made)
    }
}
