//! What the shell's own commands make of the names.
ghost use Rattle.std.specs.Prelude.{◌≡◌, IfOk, OnOk, OnErr, ℕ, List};
ghost use Rattle.journal.specs.Argument.{Argument};
ghost use Rattle.journal.specs.Commands.{made, ready_call};
ghost use Rattle.journal.specs.World.{World};
ghost use Rattle.journal.specs.declared.command.Command.TheVariants as commands;
ghost use Rattle.journal.specs.declared.command.Ref.{Ref as Reference};
ghost use Rattle.journal.specs.declared.event.Event.TheVariants as events;
ghost use Rattle.shell_names.specs.Names.{NamesStand};
ghost use Rattle.shell_names.specs.Events.{IsAllowed, StandsAfter, StandsAfterCall, StandsAsked, StandsHeard};

use crate::names::ShellNames;
use capability::{Cap, Rights, Uid, mint, restrict};
use eden_value::{Items, Status, Txt, copy_items};
use journal::{Args, Event, Ref};
use std::alloc::{AllocError, Global};

impl ShellNames {
    /// Carries out `hold NAME N.E.S`: the name stands for the capability of this uid with all rights. Where memory runs out
    /// nothing changes.
    pub fn hold(&mut self, alloc: Global, name: &Txt, uid: Uid) -> Result<Event, AllocError>
        ensures allowed { IfOk result (IsAllowed self.old (commands.Hold name.now uid)) }
        ensures stands { IfOk result (StandsAfter self.old self.new (commands.Hold name.now uid)) }
        ensures err { OnErr result (self.new ≡ self.old) }
    {
        let copied = name.share()?;
        self.bind_capability(alloc, name, mint(uid))?;
        Ok(Event::Bound {
            name: copied,
            held: true,
        })
    }

    /// Carries out `restrict NAME REF MASK`: the name stands for the capability with those of its rights that are also in
    /// the mask. Where there is no such capability the command is void. Where memory runs out nothing changes.
    pub fn restrict(
        &mut self,
        alloc: Global,
        name: &Txt,
        target: &Ref,
        mask: Rights,
    ) -> Result<Event, AllocError>
        ensures allowed { IfOk result (IsAllowed self.old (commands.Restrict name.now target.now mask)) }
        ensures stands { IfOk result (StandsAfter self.old self.new (commands.Restrict name.now target.now mask)) }
        ensures err { OnErr result (self.new ≡ self.old) }
    {
        let copied = name.share()?;
        match self.capability(target) {
            Some(cap) => {
                self.bind_capability(alloc, name, restrict(cap, mask))?;
                Ok(Event::Bound {
                    name: copied,
                    held: false,
                })
            }
            None => Ok(Event::Void { name: copied }),
        }
    }

    /// The name stands for the capability of a new Eject with all rights, or for nothing where there is none.
    fn bind_made(&mut self, alloc: Global, name: &Txt, uid: Option<Uid>) -> Result<(), AllocError>
        ensures stands { OnOk result ((type_name : List ℕ) (w : World) → NamesStand self.old w
            → NamesStand self.new (made name.now type_name uid w)) }
        ensures err { OnErr result (self.new ≡ self.old) }
    {
        match uid {
            Some(uid) => self.bind_capability(alloc, name, mint(uid)),
            None => self.bind_nothing(alloc, name),
        }
    }

    /// Notes what a creation of the shell came to: the name stands for the capability of the new Eject with all rights, or
    /// for nothing where there is none. Where memory runs out nothing changes.
    pub fn create(
        &mut self,
        alloc: Global,
        name: &Txt,
        status: Status,
        uid: Option<Uid>,
    ) -> Result<Event, AllocError>
        ensures event { IfOk result (λ event. event ≡ events.Made name.now status uid) }
        ensures stands { IfOk result (λ event. (node : ℕ) (type_name : List ℕ)
            → StandsAfter self.old self.new (commands.Create name.now node type_name) event) }
        ensures err { OnErr result (self.new ≡ self.old) }
    {
        let copied = name.share()?;
        self.bind_made(alloc, name, uid)?;
        Ok(Event::Made {
            name: copied,
            status,
            uid,
        })
    }

    /// The capability and the arguments of a `call`, whatever its name and its operation; none where a name in it has no
    /// value, or none that serves, so that the command is void.
    pub fn ready(
        &self,
        alloc: Global,
        target: &Ref,
        args: &Args,
    ) -> Result<Option<(Cap, Items)>, AllocError>
        ensures { IfOk result (λ ready. (name operation : List ℕ) (w : World) → NamesStand self.now w
            → ready ≡ ready_call w (commands.Call name target.now operation args.now)) }
    {
        let Some(cap) = self.capability(target) else {
            return Ok(None);
        };
        match self.arguments(alloc, args)? {
            Some(items) => Ok(Some((cap, items))),
            None => Ok(None),
        }
    }

    /// Notes that the shell asked a call of this name, by a `call` that is ready or by a walk: the name stands for nothing
    /// until the call is answered. Where memory runs out nothing changes.
    pub fn ask(
        &mut self,
        alloc: Global,
        name: &Txt,
        call: u32,
        at_once: Option<Status>,
    ) -> Result<Event, AllocError>
        ensures event { IfOk result (λ event. event ≡ events.Asked call name.now at_once) }
        ensures asked { OnOk result (StandsAsked self.old self.new name.now call at_once) }
        ensures called { IfOk result (λ event. (target : Reference) (operation : List ℕ) (args : List Argument)
            → StandsAfterCall self.old self.new (commands.Call name.now target operation args) event) }
        ensures err { OnErr result (self.new ≡ self.old) }
    {
        let copied = name.share()?;
        self.bind_nothing(alloc, name)?;
        Ok(Event::Asked {
            call,
            name: copied,
            at_once,
        })
    }

    /// Notes a reply to the shell's call of this name. Where the call is still open the name stands for the results, or for
    /// nothing where the status is not Ok; else nothing changes. Where memory runs out nothing changes.
    pub fn hear(
        &mut self,
        alloc: Global,
        name: &Txt,
        status: Status,
        values: &Items,
        is_open: bool,
    ) -> Result<(), AllocError>
        ensures stands { OnOk result (StandsHeard self.old self.new name.now status values.now is_open) }
        ensures err { OnErr result (self.new ≡ self.old) }
    {
        if !is_open {
            return Ok(());
        }
        if status == Status::Ok {
            let copied = copy_items(alloc, values)?;
            return self.bind_results(alloc, name, copied);
        }
        self.bind_nothing(alloc, name)
    }
}
