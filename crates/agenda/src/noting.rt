//! What Ejects may do is noted behind a turn that was about two of them.
ghost use Rattle.std.specs.Prelude.{OnOk, ◌||◌};
ghost use Rattle.epl_syntax.specs.Rules.OfTypes.{TypeList};
ghost use Rattle.ejects.specs.Parts.{Parts};
ghost use Rattle.ejects.specs.View.{parts_of};
ghost use Rattle.agenda.specs.Indexed.{indices_of, is_it};
ghost use Rattle.agenda.specs.Keys.{IsAgenda};
ghost use Rattle.agenda.specs.Marks.{Marks, marks_of, HasMarks, marked, MayBut};

use crate::Agenda;
use capability::Uid;
use ejects::Ejects;
use std::alloc::AllocError;

impl Agenda {
    // What an Eject may do now is noted, where it is one.
    fn mark(&mut self, ejects: &Ejects, uid: Option<Uid>) -> Result<(), AllocError>
        ensures { OnOk result ((ts : TypeList) (t : Marks) → HasMarks (indices_of self.old) t
            → HasMarks (indices_of self.new) (marked (is_it uid) (marks_of (parts_of ts ejects.now)) t)) }
    {
        match uid {
            Some(uid) => {
                let may = ejects.may(uid);
                self.wake.set(uid, may.wake)?;
                self.start.set(uid, may.start)?;
                self.run.set(uid, may.run)
            }
            None => Ok(()),
        }
    }

    /// What two Ejects may do now is noted, where there are such, after a turn that changed what they may do, and of no other.
    pub fn note_each(
        &mut self,
        ejects: &Ejects,
        one: Option<Uid>,
        other: Option<Uid>,
    ) -> Result<(), AllocError>
        ensures { OnOk result ((ts : TypeList) (n : Parts) → IsAgenda (indices_of self.old) n
            → MayBut (λ v. is_it one v || is_it other v) n (parts_of ts ejects.now)
            → IsAgenda (indices_of self.new) (parts_of ts ejects.now)) }
    {
        self.mark(ejects, one)?;
        self.mark(ejects, other)
    }
}
