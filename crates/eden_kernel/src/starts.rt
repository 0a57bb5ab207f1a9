//! Invocations start.
ghost use Rattle.std.specs.Prelude.{◌≡◌, IfOk, IsTrue, OnOk};
ghost use Rattle.ejects.specs.Events.{IsStartOf};
ghost use Rattle.eden_kernel.specs.Enabled.{MayStart};
ghost use Rattle.eden_kernel.specs.Stands.{held, IsWhole};
ghost use Rattle.eden_kernel.specs.Turns.{TurnsAt};

use crate::Node;
use capability::Uid;
use epl_syntax::Types;
use invocation::Calls;
use journal::Event;
use passive_store::Store;
use std::alloc::{AllocError, Global};

impl<St: Store> Node<St> {
    /// An invocation that may start at an Eject starts.
    pub fn start(
        &mut self,
        alloc: Global,
        types: &Types,
        calls: &Calls,
        uid: Uid,
    ) -> Result<Event, AllocError>
        requires whole { IsWhole (held St.seen self.old) }
        requires may { MayStart types.now (held St.seen self.old) calls.now uid }
        ensures whole { OnOk result (IsWhole (held St.seen self.new)) }
        ensures number { self.new.number ≡ self.old.number }
        ensures event { IfOk result (IsStartOf uid) }
        ensures store { St.seen self.new.store ≡ St.seen self.old.store }
        ensures turn { IsTrue St.Device.tells → IfOk result (λ e.
            TurnsAt St.layout types.now (held St.seen self.old) calls.now (held St.seen self.new) calls.now e) }
    {
        self.ejects.start(alloc, types, calls, uid)
    }
}
