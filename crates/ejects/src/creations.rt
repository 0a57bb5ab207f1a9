//! Ejects are created.
ghost use Rattle.std.specs.Prelude.{◌≡◌, IfOk, IsTrue, Some, is_some};
ghost use Rattle.std.specs.FinMap.{len};
ghost use Rattle.eden_model.specs.Crew.{Runs};
ghost use Rattle.epl_syntax.specs.Meaning.{type_of, types_in};
ghost use Rattle.epl_syntax.specs.Rules.OfTypes.{TypeList};
ghost use Rattle.edentypes.specs.View.{kind_in};
ghost use Rattle.journal.specs.World.{Site};
ghost use Rattle.active_part.specs.Body.{Body};
ghost use Rattle.active_part.specs.Bodies.{told_body};
ghost use Rattle.active_part.specs.View.{body_of};
ghost use Rattle.ejects.specs.Creations.{next_in, with_born, HasNewUid, IsCreated, CreatedFor, IsFresh};
ghost use Rattle.ejects.specs.Parts.{body_at, Stands};
ghost use Rattle.ejects.specs.View.{parts_of, with_body};

use crate::Ejects;
use active_part::Part;
use capability::{Uid, mint};
use eden_value::{Status, Txt};
use edentypes::Kind;
use eject_table::CreateRefusal;
use epl_syntax::{Answer, Types};
use journal::Shown;
use std::alloc::{AllocError, Global};

// The active part of a new Eject of this type.
fn new_part(alloc: Global, types: &Types, kind: Kind) -> Result<Part, AllocError>
    ensures { IfOk result (λ part. IsFresh (kind_in types.now kind) (body_of types.now part)) }
{
    let vars = edentypes::first_values(alloc, types, kind)?;
    let part = Part::fresh(alloc, types, kind, vars)?;
    Ok(part)
}

impl Ejects {
    // A new Eject has this active part, unless there are too many, or no serial is left.
    fn enter_new(&mut self, alloc: Global, part: Part) -> Result<Result<Uid, Status>, AllocError>
        ensures made { IfOk result (λ made. (ts : TypeList) → made ≡ next_in (parts_of ts self.old) (len self.old.table.standings)) }
        ensures parts { IfOk result (λ made. (ts : TypeList)
            → parts_of ts self.new ≡ with_born made (body_of ts part) (parts_of ts self.old)) }
    {
        match self.table.create(alloc, part) {
            Ok(uid) => Ok(Ok(uid)),
            Err((_part, refusal)) => match refusal {
                CreateRefusal::TooMany => Ok(Err(Status::TooMany)),
                CreateRefusal::SerialsSpent => Ok(Err(Status::SerialsSpent)),
                CreateRefusal::OutOfMemory => Err(AllocError),
            },
        }
    }

    /// A new Eject of this type, which is active: its uid, or `TooMany` or `SerialsSpent`.
    pub fn create(
        &mut self,
        alloc: Global,
        types: &Types,
        kind: Kind,
    ) -> Result<Result<Uid, Status>, AllocError>
        ensures { IfOk result (λ made. (s : Site) → HasNewUid s → Stands (parts_of types.now self.old) s
            → IsCreated (kind_in types.now kind) made (parts_of types.now self.new) s) }
    {
        let part = new_part(alloc, types, kind)?;
        let made = self.enter_new(alloc, part)?;
        Ok(made)
    }

    // A process creates an Eject of the type of this name, and is told. Where there is no such type nothing happens; a checked program
    // names none.
    pub(crate) fn creates(
        &mut self,
        alloc: Global,
        types: &Types,
        uid: Uid,
        process: u8,
        type_name: &Txt,
    ) -> Result<Shown, AllocError>
        ensures { IfOk result (λ said. (b : Body) (s : Site) → body_at (parts_of types.now self.old) uid ≡ Some b
            → Runs b.crew.crew process → HasNewUid s → IsTrue (is_some (type_of s.types type_name.now))
            → Stands (parts_of types.now self.old) s
            → CreatedFor uid process type_name.now (parts_of types.now self.new) said s) }
    {
        let Some(kind) = edentypes::find(types, type_name) else {
            return Ok(Shown::Yield);
        };
        match self.create(alloc, types, kind)? {
            Ok(created) => {
                let answer = Answer::Created {
                    status: Status::Ok,
                    cap: Some(mint(created)),
                };
                self.tell_loose(uid, process, answer);
                Ok(Shown::Created { uid: created })
            }
            Err(status) => {
                self.tell_loose(uid, process, Answer::Created { status, cap: None });
                Ok(Shown::Refused { status })
            }
        }
    }
}
