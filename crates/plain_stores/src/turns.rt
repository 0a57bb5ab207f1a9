//! What a turn of a node's store is about, and how it may end.
ghost use Rattle.std.specs.Prelude.{◌≡◌, ◌↔◌, ◌&&◌, IsSomeAnd, IsTrue};
ghost use Rattle.eden_model.specs.Traffic.{Traffic};
ghost use Rattle.epl_syntax.specs.Rules.OfTypes.{TypeList};
ghost use Rattle.journal.specs.Settling.{first_request};
ghost use Rattle.journal.specs.Stores as stores;
ghost use Rattle.plain_choices.specs.View.{work_of};
ghost use Rattle.plain_stores.specs.View.{KeptInOrder, node_of, request_of, site_of};

use crate::entries::find;
use crate::{PlainNode, PlainRequest};
use capability::Uid;
use checkpoint::Wish;
use journal::RequestEnd;
use passive_store::Pick;
use plain_choices::{Work, has_call_left, makes_own_call, may_end};

impl PlainNode {
    /// Whether something is kept of the Eject of this uid.
    pub fn is_kept(&self, uid: Uid) -> bool
        ensures { (ts : TypeList) (t : Traffic) → result ≡ stores.is_kept_in (site_of ts t self.now) uid }
    {
        match find(&self.ejects, uid) {
            Some(eject) => eject.kept.is_some(),
            None => false,
        }
    }

    /// Whether a request needs device calls: a removal of what is not kept needs none.
    fn needs_calls(&self, request: &PlainRequest) -> bool
        ensures { (ts : TypeList) (t : Traffic) → result ≡ stores.needs_calls (site_of ts t self.now) (request_of request.now) }
    {
        match &request.wish {
            Wish::Put { .. } => true,
            Wish::Delete => self.is_kept(request.uid),
        }
    }

    /// What a turn is about for a request that has made no device call, where nothing is in doubt.
    fn first_work(&self, request: &PlainRequest) -> Work
        ensures { (ts : TypeList) (t : Traffic) → KeptInOrder (site_of ts t self.now)
            → work_of result ≡ stores.first_work (site_of ts t self.now) (request_of request.now) }
    {
        if self.needs_calls(request) {
            if self.finds_room(request.uid, &request.wish) {
                Work::Calls
            } else {
                Work::WithoutRoom
            }
        } else {
            Work::Unkept
        }
    }

    /// What a turn for this request is about.
    pub fn work_for(&self, request: &PlainRequest) -> Work
        ensures { (ts : TypeList) (t : Traffic) → KeptInOrder (site_of ts t self.now)
            → work_of result ≡ stores.work_of (site_of ts t self.now) (request_of request.now) }
    {
        if request.made > 0 {
            return Work::Calls;
        }
        if self.is_in_doubt() {
            return if self.synced {
                Work::Reads
            } else {
                Work::Syncs
            };
        }
        self.first_work(request)
    }

    /// Whether a turn for this request, of this Eject, may end so and make this pick.
    fn allows(&self, request: &PlainRequest, uid: Uid, end: RequestEnd, pick: Option<Pick>) -> bool
        ensures { (ts : TypeList) (t : Traffic) → KeptInOrder (site_of ts t self.now) → IsTrue result
            ↔ stores.AllowsStore (site_of ts t self.now) uid end pick (request_of request.now) }
    {
        let work = self.work_for(request);
        let own = makes_own_call(work);
        are_all(
            is_same(uid, request.uid),
            may_end(work, end, pick),
            has_call_left(own, end, request.made, self.size),
        )
    }

    /// Whether the store may take a turn for its first request that is of this Eject, ends so, and makes this pick.
    pub fn may_take_turn(&self, uid: Uid, end: RequestEnd, pick: Option<Pick>) -> bool
        ensures { (ts : TypeList) (t : Traffic) → KeptInOrder (site_of ts t self.now) → IsTrue result
            ↔ IsSomeAnd (first_request (node_of ts self.now)) (λ r. stores.AllowsStore (site_of ts t self.now) uid end pick r) }
    {
        match self.requests.front() {
            Some(request) => self.allows(request, uid, end, pick),
            None => false,
        }
    }
}

/// Whether both are one.
fn is_same(one: Uid, other: Uid) -> bool
    ensures { IsTrue result ↔ (one ≡ other) }
{
    one == other
}

/// Whether all three hold.
fn are_all(one: bool, other: bool, third: bool) -> bool
    ensures { result ≡ (one && (other && third)) }
{
    one && (other && third)
}
