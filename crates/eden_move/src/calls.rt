//! The calls of a node in which Ejects wander.
ghost use Rattle.std.specs.Prelude.{◌≡◌, ◌≢◌, ◌≤◌, ◌+◌, ℕ, Bool, IsTrue, IfOk, Err, Some, None};
ghost use Rattle.eden_value.specs.View.{datum};
ghost use Rattle.eden_disk.specs.Calls.{calls_until};
ghost use Rattle.passive_store.specs.Seen.{Arms, Opens, opened, disk_seen, disk_opened};
ghost use Rattle.move_laws.specs.World.{Make as make_call, Wake as wake_call, Save as save_call, Lend as lend_call, Again as again_call};
ghost use Rattle.move_laws.specs.World.{TakeIt, CloseIt};
ghost use Rattle.eden_move.specs.declared.letter.Letter.TheVariants.{Take, Known};
ghost use Rattle.eden_move.specs.declared.refusal.MoveRefusal.TheVariants.{Stopped};
ghost use Rattle.eden_move.specs.Minds.{remembered, value_known};
ghost use Rattle.eden_move.specs.Calls.{uid_of, seen_letter, ended_as, letter_call, took_ended, IsTook, own_uid, end_of};
ghost use Rattle.eden_move.specs.Shown.{IsWanderer, IsOpen, Shows, Carries, opened_node, Goes, CallGoes, IsFullCall};

use crate::due::{Answer, Call};
use crate::letter::{Letter, Took};
use crate::mind::Mind;
use crate::node::MoveNode;
use crate::refusal::MoveRefusal;
use capability::Uid;
use eden_disk::Arm;
use eden_value::{Value, copy};
use passive_store::{Store, StoreRefusal};
use std::alloc::Global;

impl<St: Store> MoveNode<St> {
    /// Opens the disk of a node. Nothing is in memory, and nothing in doubt. A refusal hands the disk back.
    pub fn open_node(
        alloc: Global,
        disk: St::Device,
        node: u8,
    ) -> Result<MoveNode<St>, (St::Device, StoreRefusal)>
        requires power { IsTrue (St.Device.counts disk).power }
        requires node { (1 ≤ node) × (node ≤ 8) }
        ensures opens { let of = disk_seen St.Device.counts St.Device.told St.Device.due in
            Opens St.Device.tells St.Device.obeys St.layout node (opened (λ n. St.seen n.store) result) (of disk)
            (disk_opened (λ n. St.seen n.store) of result) }
        ensures of { IfOk result (λ n. IsOpen n.number (St.seen n.store)) }
        ensures shows { IfOk result (λ n. Shows (St.seen n.store) (remembered n.mind) (opened_node (St.seen n.store))) }
    {
        let store = St::open_disk(alloc, disk, node)?;
        Ok(MoveNode {
            store,
            number: node,
            mind: Mind::new(alloc),
            alloc,
        })
    }

    /// Makes an Eject with this value. It is of this node, and here, in generation 1; it is not active.
    pub fn make(&mut self, serial: u32, value: Value) -> Result<Uid, MoveRefusal>
        requires power { IsTrue (St.seen self.old.store).disk.counts.power }
        requires of { IsOpen self.old.number (St.seen self.old.store) }
        requires serial { 1 ≤ serial }
        ensures of { IsOpen self.new.number (St.seen self.new.store) }
        ensures node { (St.seen self.new.store).node ≡ (St.seen self.old.store).node }
        ensures power { (result ≡ Err Stopped → ⊥) → IsTrue (St.seen self.new.store).disk.counts.power }
        ensures goes { CallGoes St.Device.tells St.layout (make_call (datum value))
            (remembered self.old.mind (own_uid self.old.number serial)) (end_of result) (St.seen self.old.store) (St.seen self.new.store) }
        ensures more { (St.seen self.old.store).more ≤ (St.seen self.new.store).more + 1 }
        ensures full { IsFullCall St.Device.tells St.layout (own_uid self.old.number serial) (make_call (datum value)) result
            (St.seen self.old.store) (remembered self.old.mind) }
        ensures uid { IfOk result (λ uid. uid ≡ own_uid self.old.number serial) }
        ensures carries { IsTrue St.Device.tells → Carries (own_uid self.old.number serial) (make_call (datum value))
            (ended_as Bool.true (λ _. None) result)
            (St.seen self.old.store) (remembered self.old.mind) (St.seen self.new.store) (remembered self.new.mind) }
    {
        let uid = Uid {
            node: self.number,
            epoch: 1,
            serial,
        };
        match self.carry(uid, Call::Make { value }) {
            Ok(_) => Ok(uid),
            Err(refusal) => Err(refusal),
        }
    }

    /// Makes an Eject active that is here, and gives its value.
    pub fn wake(&mut self, uid: Uid) -> Result<Value, MoveRefusal>
        requires power { IsTrue (St.seen self.old.store).disk.counts.power }
        requires of { IsOpen self.old.number (St.seen self.old.store) }
        requires wanderer { IsWanderer uid }
        ensures of { IsOpen self.new.number (St.seen self.new.store) }
        ensures node { (St.seen self.new.store).node ≡ (St.seen self.old.store).node }
        ensures power { (result ≡ Err Stopped → ⊥) → IsTrue (St.seen self.new.store).disk.counts.power }
        ensures goes { CallGoes St.Device.tells St.layout wake_call (remembered self.old.mind uid) (end_of result)
            (St.seen self.old.store) (St.seen self.new.store) }
        ensures more { (St.seen self.old.store).more ≤ (St.seen self.new.store).more + 1 }
        ensures carries { IsTrue St.Device.tells → Carries uid wake_call (ended_as Bool.false (λ _. None) result)
            (St.seen self.old.store) (remembered self.old.mind) (St.seen self.new.store) (remembered self.new.mind) }
        // The value is the one that is in memory from then on.
        ensures shown { IfOk result (λ value. value_known (remembered self.new.mind uid) ≡ Some (datum value)) }
    {
        match self.carry(uid, Call::Wake) {
            Ok((_, Answer::Shown { value })) => Ok(value),
            Ok(_) => unreachable!(),
            Err(refusal) => Err(refusal),
        }
    }

    /// Keeps this value of an Eject that is active.
    pub fn save(&mut self, uid: Uid, value: Value) -> Result<(), MoveRefusal>
        requires power { IsTrue (St.seen self.old.store).disk.counts.power }
        requires of { IsOpen self.old.number (St.seen self.old.store) }
        requires wanderer { IsWanderer uid }
        ensures of { IsOpen self.new.number (St.seen self.new.store) }
        ensures node { (St.seen self.new.store).node ≡ (St.seen self.old.store).node }
        ensures power { (result ≡ Err Stopped → ⊥) → IsTrue (St.seen self.new.store).disk.counts.power }
        ensures goes { CallGoes St.Device.tells St.layout (save_call (datum value)) (remembered self.old.mind uid) (end_of result)
            (St.seen self.old.store) (St.seen self.new.store) }
        ensures more { (St.seen self.old.store).more ≤ (St.seen self.new.store).more + 1 }
        ensures full { IsFullCall St.Device.tells St.layout uid (save_call (datum value)) result
            (St.seen self.old.store) (remembered self.old.mind) }
        ensures carries { IsTrue St.Device.tells → Carries uid (save_call (datum value)) (ended_as Bool.true (λ _. None) result)
            (St.seen self.old.store) (remembered self.old.mind) (St.seen self.new.store) (remembered self.new.mind) }
    {
        match self.carry(uid, Call::Save { value }) {
            Ok(_) => Ok(()),
            Err(refusal) => Err(refusal),
        }
    }

    /// Lends an Eject that is here to another node: it is here no more, and the letter is given in which it goes.
    pub fn lend(&mut self, uid: Uid, to: u8) -> Result<Letter, MoveRefusal>
        requires power { IsTrue (St.seen self.old.store).disk.counts.power }
        requires of { IsOpen self.old.number (St.seen self.old.store) }
        requires wanderer { IsWanderer uid }
        requires to { (1 ≤ to) × (to ≤ 8) × (to ≢ self.old.number) }
        ensures of { IsOpen self.new.number (St.seen self.new.store) }
        ensures node { (St.seen self.new.store).node ≡ (St.seen self.old.store).node }
        ensures power { (result ≡ Err Stopped → ⊥) → IsTrue (St.seen self.new.store).disk.counts.power }
        ensures goes { CallGoes St.Device.tells St.layout (lend_call to) (remembered self.old.mind uid) (end_of result)
            (St.seen self.old.store) (St.seen self.new.store) }
        ensures more { (St.seen self.old.store).more ≤ (St.seen self.new.store).more + 1 }
        ensures full { IsFullCall St.Device.tells St.layout uid (lend_call to) result
            (St.seen self.old.store) (remembered self.old.mind) }
        ensures about { IfOk result (λ letter. uid_of letter ≡ uid) }
        ensures carries { IsTrue St.Device.tells → Carries uid (lend_call to) (ended_as Bool.true (λ l. Some (seen_letter l)) result)
            (St.seen self.old.store) (remembered self.old.mind) (St.seen self.new.store) (remembered self.new.mind) }
    {
        match self.carry(uid, Call::Lend { to }) {
            Ok((_, Answer::Sent { letter })) => Ok(letter),
            Ok(_) => unreachable!(),
            Err(refusal) => Err(refusal),
        }
    }

    /// Gives the letter anew of an Eject that is lent.
    pub fn again(&mut self, uid: Uid) -> Result<Letter, MoveRefusal>
        requires power { IsTrue (St.seen self.old.store).disk.counts.power }
        requires of { IsOpen self.old.number (St.seen self.old.store) }
        requires wanderer { IsWanderer uid }
        ensures of { IsOpen self.new.number (St.seen self.new.store) }
        ensures node { (St.seen self.new.store).node ≡ (St.seen self.old.store).node }
        ensures power { (result ≡ Err Stopped → ⊥) → IsTrue (St.seen self.new.store).disk.counts.power }
        ensures goes { CallGoes St.Device.tells St.layout again_call (remembered self.old.mind uid) (end_of result)
            (St.seen self.old.store) (St.seen self.new.store) }
        ensures more { (St.seen self.old.store).more ≤ (St.seen self.new.store).more + 1 }
        ensures about { IfOk result (λ letter. uid_of letter ≡ uid) }
        ensures carries { IsTrue St.Device.tells → Carries uid again_call (ended_as Bool.false (λ l. Some (seen_letter l)) result)
            (St.seen self.old.store) (remembered self.old.mind) (St.seen self.new.store) (remembered self.new.mind) }
    {
        match self.carry(uid, Call::Again) {
            Ok((_, Answer::Sent { letter })) => Ok(letter),
            Ok(_) => unreachable!(),
            Err(refusal) => Err(refusal),
        }
    }

    /// An Eject comes in a letter from this node. It is put here, where no record of its generation or a later one is, and the letter is
    /// answered in any case.
    fn take_in(
        &mut self,
        from: u8,
        uid: Uid,
        generation: u32,
        value: Value,
    ) -> Result<Took, MoveRefusal>
        requires power { IsTrue (St.seen self.old.store).disk.counts.power }
        requires of { IsOpen self.old.number (St.seen self.old.store) }
        requires wanderer { IsWanderer uid }
        ensures of { IsOpen self.new.number (St.seen self.new.store) }
        ensures node { (St.seen self.new.store).node ≡ (St.seen self.old.store).node }
        ensures power { (result ≡ Err Stopped → ⊥) → IsTrue (St.seen self.new.store).disk.counts.power }
        ensures goes { CallGoes St.Device.tells St.layout (TakeIt from generation (datum value)) (remembered self.old.mind uid)
            (end_of result) (St.seen self.old.store) (St.seen self.new.store) }
        ensures more { (St.seen self.old.store).more ≤ (St.seen self.new.store).more + 1 }
        ensures full { IsFullCall St.Device.tells St.layout uid (TakeIt from generation (datum value)) result
            (St.seen self.old.store) (remembered self.old.mind) }
        ensures kind { (to : ℕ) → IfOk result (IsTook (Take uid to generation value)) }
        ensures carries { IsTrue St.Device.tells → (to : ℕ)
            → Carries uid (TakeIt from generation (datum value)) (took_ended (Take uid to generation value) result)
            (St.seen self.old.store) (remembered self.old.mind) (St.seen self.new.store) (remembered self.new.mind) }
    {
        match self.carry(
            uid,
            Call::Take {
                from,
                generation,
                value,
            },
        ) {
            Ok((here, Answer::Sent { letter })) => Ok(Took {
                here,
                closed: false,
                reply: Some(letter),
            }),
            Ok(_) => unreachable!(),
            Err(refusal) => Err(refusal),
        }
    }

    /// A letter from this node says that an Eject was taken in this generation. It is gone, where it is lent in this very generation.
    fn close(&mut self, from: u8, uid: Uid, generation: u32) -> Result<Took, MoveRefusal>
        requires power { IsTrue (St.seen self.old.store).disk.counts.power }
        requires of { IsOpen self.old.number (St.seen self.old.store) }
        requires wanderer { IsWanderer uid }
        ensures of { IsOpen self.new.number (St.seen self.new.store) }
        ensures node { (St.seen self.new.store).node ≡ (St.seen self.old.store).node }
        ensures power { (result ≡ Err Stopped → ⊥) → IsTrue (St.seen self.new.store).disk.counts.power }
        ensures goes { CallGoes St.Device.tells St.layout (CloseIt from generation) (remembered self.old.mind uid) (end_of result)
            (St.seen self.old.store) (St.seen self.new.store) }
        ensures more { (St.seen self.old.store).more ≤ (St.seen self.new.store).more + 1 }
        ensures full { IsFullCall St.Device.tells St.layout uid (CloseIt from generation) result
            (St.seen self.old.store) (remembered self.old.mind) }
        ensures kind { (to : ℕ) → IfOk result (IsTook (Known uid to generation)) }
        ensures carries { IsTrue St.Device.tells → (to : ℕ)
            → Carries uid (CloseIt from generation) (took_ended (Known uid to generation) result)
            (St.seen self.old.store) (remembered self.old.mind) (St.seen self.new.store) (remembered self.new.mind) }
    {
        match self.carry(uid, Call::Close { from, generation }) {
            Ok((closed, _)) => Ok(Took {
                here: false,
                closed,
                reply: None,
            }),
            Err(refusal) => Err(refusal),
        }
    }

    /// A letter comes from this node.
    ///
    /// One that says *take it* is answered in any case, and puts the Eject here where no record of its generation or a later one is. One
    /// that says *it is known* is not answered, and closes a record that is lent in this very generation.
    pub fn take(&mut self, from: u8, letter: &Letter) -> Result<Took, MoveRefusal>
        requires power { IsTrue (St.seen self.old.store).disk.counts.power }
        requires of { IsOpen self.old.number (St.seen self.old.store) }
        requires wanderer { IsWanderer (uid_of letter.now) }
        ensures of { IsOpen self.new.number (St.seen self.new.store) }
        ensures node { (St.seen self.new.store).node ≡ (St.seen self.old.store).node }
        ensures power { (result ≡ Err Stopped → ⊥) → IsTrue (St.seen self.new.store).disk.counts.power }
        ensures goes { Goes Bool.true Bool.true Bool.true St.Device.tells St.layout (end_of result)
            (St.seen self.old.store) (St.seen self.new.store) }
        ensures more { (St.seen self.old.store).more ≤ (St.seen self.new.store).more + 1 }
        ensures full { IsFullCall St.Device.tells St.layout (uid_of letter.now) (letter_call from letter.now) result
            (St.seen self.old.store) (remembered self.old.mind) }
        ensures kind { IfOk result (IsTook letter.now) }
        ensures carries { IsTrue St.Device.tells → Carries (uid_of letter.now) (letter_call from letter.now) (took_ended letter.now result)
            (St.seen self.old.store) (remembered self.old.mind) (St.seen self.new.store) (remembered self.new.mind) }
    {
        match letter {
            Letter::Take {
                uid,
                generation,
                value,
                ..
            } => match copy(self.alloc, value) {
                Ok(value) => self.take_in(from, *uid, *generation, value),
                Err(_) => Err(MoveRefusal::OutOfMemory),
            },
            Letter::Known {
                uid,
                generation,
                ..
            } => self.close(from, *uid, *generation),
        }
    }

    /// Hands a request for a failure or a stop to the disk, and changes nothing else.
    pub fn arm(&mut self, what: Arm)
        requires { 1 ≤ calls_until what }
        ensures arms { Arms St.Device.tells St.Device.obeys what (St.seen self.old.store) (St.seen self.new.store) }
        ensures number { self.new.number ≡ self.old.number }
        ensures mind { self.new.mind ≡ self.old.mind }
    {
        self.store.disk_mut_arm(what);
    }

    /// Gives the disk back. What was in memory is lost.
    pub fn crash(self) -> St::Device
        ensures { disk_seen St.Device.counts St.Device.told St.Device.due result ≡ (St.seen self.store).disk }
    {
        let MoveNode {
            store,
            number: _,
            mind: _,
            alloc: _,
        } = self;
        store.close()
    }
}
