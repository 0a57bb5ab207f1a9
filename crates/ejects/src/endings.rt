//! Active parts end.
ghost use Rattle.std.specs.Prelude.{◌≡◌, ◌<◌, IsSome};
ghost use Rattle.std.specs.Prelude.{OnOk, Some};
ghost use Rattle.epl_syntax.specs.Rules.OfTypes.{TypeList};
ghost use Rattle.active_part.specs.Body.{Body};
ghost use Rattle.ejects.specs.Counts.{AsksNone};
ghost use Rattle.ejects.specs.Parts.{body_at};
ghost use Rattle.ejects.specs.Replies.{Faulted, Slept};
ghost use Rattle.ejects.specs.View.{part_at, parts_of};

use crate::replies::{reply_all, reply_pairs};
use crate::{Ejects, put_waiting, take_waiting};
use capability::Uid;
use eden_value::Status;
use invocation::Calls;
use std::alloc::{AllocError, Global};

impl Ejects {
    // An active part goes, and its queue: what ran and what was queued is answered.
    pub(crate) fn faults(
        &mut self,
        alloc: Global,
        calls: &mut Calls,
        uid: Uid,
        stays: bool,
    ) -> Result<(), AllocError>
        requires { IsSome (part_at self.old uid) }
        ensures faulted { OnOk result ((ts : TypeList) (b : Body) → body_at (parts_of ts self.old) uid ≡ Some b
            → Faulted uid stays b (parts_of ts self.old) (parts_of ts self.new) calls.old calls.new) }
        ensures asks { OnOk result (AsksNone calls.old calls.new) }
    {
        let Some(part) = self.table.drop_active(uid, stays) else {
            unreachable!()
        };
        let parts = part.into_parts();
        calls.orphan(uid);
        reply_pairs(alloc, calls, &parts.running, Status::Dropped)?;
        reply_all(alloc, calls, &parts.queued, Status::Dropped)?;
        let _none = take_waiting(alloc, &mut self.waiting, uid);
        Ok(())
    }

    // An active part goes: what ran is answered. Its queue stays where the Eject does, and is answered otherwise.
    pub(crate) fn sleeps(
        &mut self,
        alloc: Global,
        calls: &mut Calls,
        uid: Uid,
        stays: bool,
    ) -> Result<(), AllocError>
        requires { IsSome (part_at self.old uid) }
        ensures slept { OnOk result ((ts : TypeList) (b : Body) → body_at (parts_of ts self.old) uid ≡ Some b
            → Slept uid stays b (parts_of ts self.old) (parts_of ts self.new) calls.old calls.new) }
        ensures asks { OnOk result (AsksNone calls.old calls.new) }
    {
        let Some(part) = self.table.drop_active(uid, stays) else {
            unreachable!()
        };
        let parts = part.into_parts();
        calls.orphan(uid);
        reply_pairs(alloc, calls, &parts.running, Status::Dropped)?;
        if stays {
            put_waiting(&mut self.waiting, uid, parts.queued)?;
            return Ok(());
        }
        reply_all(alloc, calls, &parts.queued, Status::Gone)?;
        let _none = take_waiting(alloc, &mut self.waiting, uid);
        Ok(())
    }
}
