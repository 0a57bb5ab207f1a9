//! What is kept of an Eject, and what may be kept instead.
ghost use Rattle.std.specs.Prelude.{◌≡◌, ◌↔◌, ◌≤◌, IsTrue, None, Some};
ghost use Rattle.epl_syntax.specs.Rules.OfTypes.{TypeList};
ghost use Rattle.journal.specs.EjectChange.{kept_of};
ghost use Rattle.journal.specs.Settling.{settled_eject};
ghost use Rattle.plain_ejects.specs.Limits.{length_put};
ghost use Rattle.plain_ejects.specs.View.{eject_of, change_of, with_doubt, with_kept};

use crate::PlainEject;
use capability::BODY_LIMIT;
use checkpoint::Wish;
use passive_store::Pick;

/// Whether what a change puts is no longer than a body may be.
pub fn is_within_limit(wish: &Wish) -> bool
    ensures { IsTrue result ↔ (length_put wish.now ≤ BODY_LIMIT) }
{
    match wish {
        Wish::Put { body } => body.items.len() <= BODY_LIMIT as usize,
        Wish::Delete => true,
    }
}

impl PlainEject {
    /// A settling has made this pick: of Old what is kept stays, of New the change in doubt is made. The doubt is gone.
    pub fn settle(&mut self, pick: Pick)
        ensures { (ts : TypeList) → eject_of ts self.new ≡ settled_eject pick (eject_of ts self.old) }
    {
        let doubt = self.doubt.take();
        match (pick, doubt) {
            (Pick::New, Some(Wish::Put { body })) => self.kept = Some(body),
            (Pick::New, Some(Wish::Delete)) => self.kept = None,
            _ => {}
        }
    }

    /// A change to what is kept is in doubt.
    pub fn leave_in_doubt(&mut self, wish: Wish)
        requires { length_put wish ≤ BODY_LIMIT }
        ensures { (ts : TypeList) → eject_of ts self.new ≡ with_doubt (change_of wish) (eject_of ts self.old) }
    {
        self.doubt = Some(wish);
    }

    /// A change to what is kept was made: nothing is in doubt.
    pub fn keep(&mut self, wish: Wish)
        requires { length_put wish ≤ BODY_LIMIT }
        ensures { (ts : TypeList) → eject_of ts self.new ≡ with_kept (kept_of (change_of wish)) (eject_of ts self.old) }
    {
        self.doubt = None;
        self.kept = match wish {
            Wish::Put { body } => Some(body),
            Wish::Delete => None,
        };
    }
}
