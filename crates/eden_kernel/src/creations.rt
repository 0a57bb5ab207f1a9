//! Ejects are created.
ghost use Rattle.std.specs.Prelude.{◌≡◌, IfOk, IsTrue, OnOk};
ghost use Rattle.edentypes.specs.View.{kind_in};
ghost use Rattle.invocation.specs.Mail.{Mail};
ghost use Rattle.journal.specs.World.{Site};
ghost use Rattle.ejects.specs.Creations.{HasNewUid};
ghost use Rattle.eden_kernel.specs.Creations.{NodeCreates};
ghost use Rattle.eden_kernel.specs.Stands.{held, IsWhole, NodeStands};

use crate::Node;
use capability::Uid;
use eden_value::Status;
use edentypes::Kind;
use epl_syntax::Types;
use passive_store::Store;
use std::alloc::{AllocError, Global};

impl<St: Store> Node<St> {
    /// A new Eject of this type, which is active: its uid, or `TooMany` or `SerialsSpent`.
    pub fn create(
        &mut self,
        alloc: Global,
        types: &Types,
        kind: Kind,
    ) -> Result<Result<Uid, Status>, AllocError>
        requires whole { IsWhole (held St.seen self.old) }
        ensures whole { OnOk result (IsWhole (held St.seen self.new)) }
        ensures number { self.new.number ≡ self.old.number }
        ensures store { St.seen self.new.store ≡ St.seen self.old.store }
        ensures made { IsTrue St.Device.tells → IfOk result (λ made. (m : Mail) (s : Site) → HasNewUid s
            → NodeStands St.layout types.now (held St.seen self.old) m s
            → NodeCreates St.layout types.now (held St.seen self.old) (held St.seen self.new) m (kind_in types.now kind) made s) }
    {
        self.ejects.create(alloc, types, kind)
    }
}
