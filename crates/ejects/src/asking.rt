//! What processes ask of the store.
ghost use Rattle.std.specs.Prelude.{◌≡◌, IfSome, IsSome, ◌≤◌, ◌<◌, [], ℕ};
ghost use Rattle.std.specs.Prelude.{IfOk, OnOk, Some, None, length, ◌++◌, ◌∷◌};
ghost use Rattle.epl_syntax.specs.Rules.OfTypes.{TypeList};
ghost use Rattle.active_part.specs.Body.{Body};
ghost use Rattle.ejects.specs.Parts.{body_at};
ghost use Rattle.capability.specs.declared.TheConstants.{BODY_LIMIT};
ghost use Rattle.eden_codec.specs.Spelling.{spelling};
ghost use Rattle.epl_syntax.specs.Meaning.{rep_of};
ghost use Rattle.eden_model.specs.Crew.{outside, set_waits};
ghost use Rattle.passive_store.specs.Kept.{IsEject};
ghost use Rattle.checkpoint.specs.Asked.{AllOfNode};
ghost use Rattle.checkpoint.specs.Queues.{removal_of, AllAnswerBut};
ghost use Rattle.active_part.specs.View.{IsEncoded};
ghost use Rattle.ejects.specs.Asking.{checkpointed_body, with_put};
ghost use Rattle.active_part.specs.Bodies.{told_body, crewed_body};
ghost use Rattle.ejects.specs.View.{RunsIn, part_at, parts_of, with_body};

use crate::Ejects;
use capability::Uid;
use checkpoint::Worker;
use eden_value::Status;
use epl_syntax::{Answer, Types};
use std::alloc::{AllocError, Global};

impl Ejects {
    // The bytes that are to be kept of an active Eject as it is now.
    fn encoded_at(
        &self,
        alloc: Global,
        types: &Types,
        uid: Uid,
    ) -> Result<Option<capability::Body>, AllocError>
        requires { IsSome (part_at self.now uid) }
        ensures bytes { IfOk result (λ it. (b : Body) → body_at (parts_of types.now self.now) uid ≡ Some b
            → IsEncoded (spelling (rep_of b.kind b.vars)) it) }
        ensures within { IfOk result (λ it. IfSome it (λ body. length body ≤ BODY_LIMIT)) }
    {
        match self.table.active(uid) {
            Some(part) => {
                let encoded = part.encoded(alloc, types)?;
                Ok(encoded)
            }
            None => unreachable!(),
        }
    }

    // A process waits for the store.
    fn block_at(&mut self, uid: Uid, process: u8)
        requires { RunsIn self.old uid process }
        ensures { (ts : TypeList) (b : Body) → body_at (parts_of ts self.old) uid ≡ Some b
            → parts_of ts self.new ≡ with_body uid (crewed_body (set_waits process outside) b) (parts_of ts self.old) }
    {
        match self.table.active_mut(uid) {
            Some(part) => part.block(process),
            None => unreachable!(),
        }
    }

    // A process is told at once.
    pub(crate) fn answer_at(&mut self, uid: Uid, process: u8, answer: Answer)
        requires { RunsIn self.old uid process }
        ensures { (ts : TypeList) (b : Body) → body_at (parts_of ts self.old) uid ≡ Some b
            → parts_of ts self.new ≡ with_body uid (told_body process answer b) (parts_of ts self.old) }
    {
        match self.table.active_mut(uid) {
            Some(part) => part.tell_at_once(process, answer),
            None => unreachable!(),
        }
    }

    // A process asks that its Eject is kept as it is now, and waits for that. What is too long is refused at once.
    pub(crate) fn checkpoints(
        &mut self,
        alloc: Global,
        types: &Types,
        worker: &mut Worker,
        uid: Uid,
        process: u8,
    ) -> Result<(), AllocError>
        requires { RunsIn self.old uid process }
        ensures parts { OnOk result ((b : Body) → body_at (parts_of types.now self.old) uid ≡ Some b
            → parts_of types.now self.new
            ≡ with_body uid (checkpointed_body process (spelling (rep_of b.kind b.vars)) b) (parts_of types.now self.old)) }
        ensures requests { OnOk result ((b : Body) → body_at (parts_of types.now self.old) uid ≡ Some b
            → worker.new.requests.items ≡ with_put uid process (spelling (rep_of b.kind b.vars)) worker.old.requests.items) }
        ensures begun { worker.new.begun ≡ worker.old.begun }
        ensures of_node { (k : ℕ) → IsEject k uid → AllOfNode k worker.old.requests.items → AllOfNode k worker.new.requests.items }
        ensures answers { AllAnswerBut worker.old.begun worker.old.requests.items
            → AllAnswerBut worker.new.begun worker.new.requests.items }
    {
        match self.encoded_at(alloc, types, uid)? {
            Some(body) => {
                worker.ask_put(uid, process, body)?;
                self.block_at(uid, process);
                Ok(())
            }
            None => {
                let answer = Answer::Code {
                    status: Status::TooLarge,
                };
                self.answer_at(uid, process, answer);
                Ok(())
            }
        }
    }

    // A process asks that nothing is kept of its Eject, and waits for that.
    pub(crate) fn destroys(
        &mut self,
        worker: &mut Worker,
        uid: Uid,
        process: u8,
    ) -> Result<(), AllocError>
        requires { RunsIn self.old uid process }
        ensures parts { OnOk result ((ts : TypeList) (b : Body) → body_at (parts_of ts self.old) uid ≡ Some b
            → parts_of ts self.new ≡ with_body uid (crewed_body (set_waits process outside) b) (parts_of ts self.old)) }
        ensures requests { OnOk result (worker.new.requests.items ≡ worker.old.requests.items ++ removal_of uid process ∷ []) }
        ensures begun { worker.new.begun ≡ worker.old.begun }
        ensures of_node { (k : ℕ) → IsEject k uid → AllOfNode k worker.old.requests.items → AllOfNode k worker.new.requests.items }
        ensures answers { AllAnswerBut worker.old.begun worker.old.requests.items
            → AllAnswerBut worker.new.begun worker.new.requests.items }
    {
        worker.ask_delete(uid, process)?;
        self.block_at(uid, process);
        Ok(())
    }
}
