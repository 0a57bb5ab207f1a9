//! The requests to a node's store.
ghost use Rattle.std.specs.Prelude.{◌≡◌, ◌<◌, ◌≤◌, ◌∷◌, IfOk, IfSome, OnOk, length, map};
ghost use Rattle.std.specs.List.{filter};
ghost use Rattle.capability.specs.declared.TheConstants.{BODY_LIMIT};
ghost use Rattle.eden_model.specs.Traffic.{Traffic};
ghost use Rattle.epl_syntax.specs.Rules.OfTypes.{TypeList};
ghost use Rattle.journal.specs.Ejects.{without_requests};
ghost use Rattle.journal.specs.Sites.{InOrder};
ghost use Rattle.journal.specs.Settling.{first_request};
ghost use Rattle.journal.specs.Stores.{doubted, more_made, request_ended, stored};
ghost use Rattle.plain_ejects.specs.Limits.{length_put};
ghost use Rattle.plain_ejects.specs.View.{change_of};
ghost use Rattle.plain_stores.specs.View.{AnswersWaiting, freed, node_of, request_of, site_of, stays, with_request};

use crate::entries::{keep, leave_in_doubt, tell};
use crate::{PlainNode, PlainRequest};
use capability::{Body, Uid};
use checkpoint::Wish;
use eden_value::Status;
use epl_syntax::Answer;
use std::alloc::AllocError;
use std::collections::VecDeque;

/// The same once more.
fn copy_of(wish: &Wish) -> Result<Wish, AllocError>
    ensures { IfOk result (λ copy. copy ≡ wish.now) }
{
    match wish {
        Wish::Put { body } => {
            let items = body.items.clone()?;
            Ok(Wish::Put {
                body: Body { items },
            })
        }
        Wish::Delete => Ok(Wish::Delete),
    }
}

/// A request of an Eject answers no process any more.
fn free(request: &mut PlainRequest, uid: Uid)
    ensures { request_of request.new ≡ freed uid (request_of request.old) }
{
    if request.uid == uid {
        request.process = None;
    }
}

/// The requests of an Eject answer no process any more.
fn leave_process(requests: &mut VecDeque<PlainRequest>, uid: Uid)
    ensures { map request_of requests.new.items ≡ map (freed uid) (map request_of requests.old.items) }
{
    for i in 0..requests.len() {
        free(&mut requests[i], uid);
    }
}

/// Whether a request stays where the active part of an Eject ends.
fn is_staying(request: &PlainRequest, uid: Uid) -> bool
    ensures { result ≡ stays uid (request_of request.now) }
{
    request.uid != uid || request.made != 0
}

/// Of the requests of an Eject those go that have made no device call.
fn drop_unmade(requests: &mut VecDeque<PlainRequest>, uid: Uid)
    ensures { map request_of requests.new.items ≡ filter (stays uid) (map request_of requests.old.items) }
{
    requests.retain(|request| is_staying(request, uid));
}

/// The first request, which leaves the others.
fn take_first(requests: &mut VecDeque<PlainRequest>) -> PlainRequest
    requires { 1 ≤ length requests.old.items }
    ensures { requests.old.items ≡ result ∷ requests.new.items }
{
    match requests.pop_front() {
        Some(request) => request,
        None => unreachable!(),
    }
}

impl PlainNode {
    /// A change of an Eject joins the requests; a process waits for its end.
    pub fn ask(&mut self, uid: Uid, process: u8, wish: Wish) -> Result<(), AllocError>
        requires within { length_put wish ≤ BODY_LIMIT }
        ensures node { OnOk result ((ts : TypeList) → node_of ts self.new
            ≡ with_request uid process (change_of wish) (node_of ts self.old)) }
        ensures number { self.new.number ≡ self.old.number }
    {
        let request = PlainRequest {
            uid,
            process: Some(process),
            wish,
            made: 0,
        };
        match self.requests.push_back(request) {
            Ok(()) => Ok(()),
            Err(_) => Err(AllocError),
        }
    }

    /// The active part of an Eject has ended: those of its requests go that have made no device call, and the others answer no process.
    pub fn drop_requests(&mut self, uid: Uid)
        ensures node { (ts : TypeList) → node_of ts self.new ≡ without_requests uid (node_of ts self.old) }
        ensures number { self.new.number ≡ self.old.number }
    {
        leave_process(&mut self.requests, uid);
        drop_unmade(&mut self.requests, uid);
    }

    /// The first request has made one more device call.
    pub fn make_call(&mut self)
        ensures node { (ts : TypeList) → IfSome (first_request (node_of ts self.old)) (λ r. r.made < 4294967295) → node_of ts self.new
            ≡ record (node_of ts self.old) { requests = more_made (node_of ts self.old).requests } }
        ensures number { self.new.number ≡ self.old.number }
    {
        match self.requests.front_mut() {
            Some(request) => request.made = request.made.saturating_add(1),
            None => {}
        }
    }

    /// The change of the first request is in doubt at its Eject.
    pub fn doubt_first(&mut self) -> Result<(), AllocError>
        ensures { OnOk result ((ts : TypeList) (t : Traffic) → InOrder (node_of ts self.old).ejects
            → IfSome (first_request (node_of ts self.old)) (λ r. site_of ts t self.new ≡ doubted r (site_of ts t self.old))) }
    {
        let Some(request) = self.requests.front() else {
            return Ok(());
        };
        let uid = request.uid;
        let wish = copy_of(&request.wish)?;
        leave_in_doubt(&mut self.ejects, uid, wish);
        Ok(())
    }

    /// The change of the first request was made at its Eject, and nothing is in doubt there.
    pub fn keep_first(&mut self) -> Result<(), AllocError>
        ensures { OnOk result ((ts : TypeList) (t : Traffic) → InOrder (node_of ts self.old).ejects
            → IfSome (first_request (node_of ts self.old)) (λ r. site_of ts t self.new ≡ stored r (site_of ts t self.old))) }
    {
        let Some(request) = self.requests.front() else {
            return Ok(());
        };
        let uid = request.uid;
        let wish = copy_of(&request.wish)?;
        keep(&mut self.ejects, uid, wish);
        Ok(())
    }

    /// The first request leaves, and its process, where it answers one, is told this status.
    pub fn end_first(&mut self, status: Status)
        ensures { (ts : TypeList) (t : Traffic) → InOrder (node_of ts self.old).ejects → AnswersWaiting (site_of ts t self.old)
            → IfSome (first_request (node_of ts self.old)) (λ r. site_of ts t self.new ≡ request_ended r status (site_of ts t self.old)) }
    {
        let Some(request) = self.requests.front() else {
            return;
        };
        let (uid, asker) = (request.uid, request.process);
        drop(take_first(&mut self.requests));
        match asker {
            Some(process) => tell(&mut self.ejects, uid, process, Answer::Code { status }),
            None => {}
        }
    }
}
