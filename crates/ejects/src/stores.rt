//! What turns of the store change: processes are told how their requests ended, and Ejects of which nothing is kept go.
ghost use Rattle.std.specs.Prelude.{◌≡◌, ◌<◌, ℕ, Bool, IsSomeAnd};
ghost use Rattle.std.specs.Prelude.{OnOk, IfSome, Option, Some, is_some, true};
ghost use Rattle.passive_store.specs.declared.store.Pick.{Pick};
ghost use Rattle.epl_syntax.specs.Rules.OfTypes.{TypeList};
ghost use Rattle.epl_syntax.specs.declared.effect.Answer.TheVariants.{Code};
ghost use Rattle.invocation.specs.Mail.{Mail};
ghost use Rattle.journal.specs.World.{Site};
ghost use Rattle.journal.specs.declared.event.Event.TheVariants as event;
ghost use Rattle.journal.specs.declared.event.RequestEnd.{RequestEnd};
ghost use Rattle.journal.specs.declared.event.RequestEnd.TheVariants as how_ended;
ghost use Rattle.journal.specs.Settling.{settled};
ghost use Rattle.journal.specs.Sites.{IsSoundSite};
ghost use Rattle.journal.specs.Step.{AllowsAt, site_turn};
ghost use Rattle.active_part.specs.Bodies.{told_body};
ghost use Rattle.ejects.specs.Counts.{AsksNone};
ghost use Rattle.ejects.specs.Marks.{AwaitsIn};
ghost use Rattle.ejects.specs.Parts.{body_at, Stands, IsAt};
ghost use Rattle.ejects.specs.StoreEnds.{code_of_end, IsShownAs, takes_eject, IsFirst, Told, Went, SettlesAt};
ghost use Rattle.ejects.specs.View.{parts_of, with_body};

use crate::replies::reply_all;
use crate::{Ejects, take_waiting};
use capability::Uid;
use checkpoint::StoreEnd;
use eden_value::Status;
use eject_table::EjectStanding;
use epl_syntax::Answer;
use invocation::Calls;
use std::alloc::{AllocError, Global};

// What a process is told of a request that ended so. None where its node stopped.
fn code_of(end: StoreEnd) -> Option<Status>
    ensures { result ≡ code_of_end end }
{
    match end {
        StoreEnd::Done => Some(Status::Ok),
        StoreEnd::Full => Some(Status::Full),
        StoreEnd::Fault => Some(Status::StoreFault),
        StoreEnd::Stopped => None,
    }
}

// Whether the end takes the Eject with it.
fn takes_away(removal: bool, end: StoreEnd) -> bool
    ensures { result ≡ takes_eject removal end }
{
    match end {
        StoreEnd::Done => removal,
        StoreEnd::Full => false,
        StoreEnd::Fault => false,
        StoreEnd::Stopped => false,
    }
}

impl Ejects {
    // A process that waits for a request is told how that ended. For any other nothing changes.
    fn tell_code(&mut self, uid: Uid, process: u8, status: Status)
        ensures { (ts : TypeList) → AwaitsIn (body_at (parts_of ts self.old) uid) process
            → IsSomeAnd (body_at (parts_of ts self.old) uid)
            (λ b. parts_of ts self.new ≡ with_body uid (told_body process (Code status) b) (parts_of ts self.old)) }
    {
        self.tell_at(uid, process, Answer::Code { status });
    }

    // The process that waits for a request, if there is one still, is told how it ended.
    fn tell_end(&mut self, uid: Uid, process: Option<u8>, status: Status)
        ensures { (ts : TypeList) → IfSome process (λ p. AwaitsIn (body_at (parts_of ts self.old) uid) p)
            → Told uid process status (parts_of ts self.old) (parts_of ts self.new) }
    {
        match process {
            Some(process) => self.tell_code(uid, process, status),
            None => {}
        }
    }

    // Nothing is kept of an Eject any more: it goes, what ran there is answered, and then what was queued. One that is not there
    // need not go.
    fn removes(&mut self, alloc: Global, calls: &mut Calls, uid: Uid) -> Result<(), AllocError>
        ensures went { OnOk result ((ts : TypeList) → is_some ((parts_of ts self.old).standing uid) ≡ true
            → Went uid (parts_of ts self.old) (parts_of ts self.new) calls.old calls.new) }
        ensures asks { OnOk result (AsksNone calls.old calls.new) }
    {
        match self.table.find(uid) {
            EjectStanding::Active => {
                self.sleeps(alloc, calls, uid, false)?;
                Ok(())
            }
            EjectStanding::Passive => {
                self.table.forget(uid);
                let queued = take_waiting(alloc, &mut self.waiting, uid);
                reply_all(alloc, calls, &queued, Status::Gone)?;
                Ok(())
            }
            EjectStanding::Absent => Ok(()),
        }
    }

    /// The first request of the store, which is of this Eject, ended so, and its node goes on: the process that waits for it,
    /// if there is one still, is told; a removal that is done takes the Eject with its calls.
    pub fn store_ends(
        &mut self,
        alloc: Global,
        calls: &mut Calls,
        uid: Uid,
        process: Option<u8>,
        removal: bool,
        end: StoreEnd,
    ) -> Result<(), AllocError>
        ensures turn { OnOk result ((ts : TypeList) (reach : ℕ → Bool) (clock : ℕ) (how : RequestEnd) (p : Option Pick) (s : Site)
            → IsSoundSite s → IsAt (parts_of ts self.old) calls.old s → IsFirst uid process removal s → IsShownAs end how
            → AllowsAt s (event.Store uid clock how p)
            → IsAt (parts_of ts self.new) calls.new (site_turn reach (event.Store uid clock how p) s)) }
        ensures asks { OnOk result (AsksNone calls.old calls.new) }
    {
        let Some(status) = code_of(end) else {
            return Ok(());
        };
        self.tell_end(uid, process, status);
        if takes_away(removal, end) {
            self.removes(alloc, calls, uid)?;
        }
        Ok(())
    }

    /// A settling has found which state holds: of this Eject, which was in doubt, something is kept from now on, or nothing.
    ///
    /// An Eject that is not active goes with the last that was kept of it. Its queue stays until its activation finds nothing.
    pub fn settles(&mut self, uid: Uid, stays: bool)
        ensures stands { (ts : TypeList) (p : Pick) (s : Site) → Stands (parts_of ts self.old) s → SettlesAt uid stays p s
            → Stands (parts_of ts self.new) (settled (Some p) s) }
        ensures turn { (ts : TypeList) (m : Mail) (reach : ℕ → Bool) (clock : ℕ) (first : Uid) (p : Pick) (s : Site)
            → IsAt (parts_of ts self.old) m s → SettlesAt uid stays p s → AllowsAt s (event.Store first clock how_ended.Part (Some p))
            → IsAt (parts_of ts self.new) m (site_turn reach (event.Store first clock how_ended.Part (Some p)) s) }
        ensures bodies { (ts : TypeList) (v : Uid) → body_at (parts_of ts self.new) v ≡ body_at (parts_of ts self.old) v }
    {
        if stays {
            return;
        }
        match self.table.find(uid) {
            EjectStanding::Active => {}
            EjectStanding::Passive => self.table.forget(uid),
            EjectStanding::Absent => {}
        }
    }
}
