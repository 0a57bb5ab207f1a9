//! Messages are delivered.
ghost use Rattle.std.specs.Prelude.{◌≡◌, ◌≤◌, IfOk, IsTrue, OnOk};
ghost use Rattle.ejects.specs.Counts.{AsksNone};
ghost use Rattle.ejects.specs.Events.{IsDelivery};
ghost use Rattle.ejects.specs.Hears.{hears};
ghost use Rattle.ejects.specs.View.{number_of};
ghost use Rattle.eden_kernel.specs.Stands.{held, IsWhole};
ghost use Rattle.eden_kernel.specs.Turns.{TurnsAt};

use crate::Node;
use epl_syntax::Types;
use invocation::Calls;
use journal::Event;
use passive_store::Store;
use std::alloc::{AllocError, Global};

impl<St: Store> Node<St> {
    /// The first message from a station is delivered: a request, or the reply to a call of a process.
    pub fn deliver(
        &mut self,
        alloc: Global,
        types: &Types,
        calls: &mut Calls,
        from: u8,
    ) -> Result<Event, AllocError>
        requires from { from ≤ 8 }
        requires hears { IsTrue (hears from (number_of self.old.ejects) calls.old) }
        requires whole { IsWhole (held St.seen self.old) }
        ensures whole { OnOk result (IsWhole (held St.seen self.new)) }
        ensures number { self.new.number ≡ self.old.number }
        ensures event { IfOk result (IsDelivery from (number_of self.old.ejects)) }
        ensures store { St.seen self.new.store ≡ St.seen self.old.store }
        ensures turn { IsTrue St.Device.tells → IfOk result (λ e.
            TurnsAt St.layout types.now (held St.seen self.old) calls.old (held St.seen self.new) calls.new e) }
        ensures asks { OnOk result (AsksNone calls.old calls.new) }
    {
        self.ejects.deliver(alloc, types, calls, from)
    }
}
