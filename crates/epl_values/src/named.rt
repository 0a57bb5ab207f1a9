//! What has a name, and where a name stands in a list.
ghost use Rattle.std.specs.Prelude.{◌≡◌, map};
ghost use Rattle.epl_syntax.specs.Bindings as bindings;

use eden_value::{Kind, Txt};
use epl_syntax::{CondDecl, LocalDecl, Name, OpDecl, ParDecl, VarDecl, same_text};

/// What has a name.
pub trait Named {
    ghost use Rattle.epl_syntax.specs.declared.tree.Name.{Name};

    ghost named: { Self → Name };

    /// Its name.
    fn name(&self) -> &Name
        ensures { result.now ≡ named self.now };
}

impl Named for Name {
    ghost named = { λ n. n };

    fn name(&self) -> &Name {
        self
    }
}

impl Named for ParDecl {
    ghost named = { λ p. p.name };

    fn name(&self) -> &Name {
        &self.name
    }
}

impl Named for LocalDecl {
    ghost named = { λ v. v.name };

    fn name(&self) -> &Name {
        &self.name
    }
}

impl Named for VarDecl {
    ghost named = { λ v. v.name };

    fn name(&self) -> &Name {
        &self.name
    }
}

impl Named for CondDecl {
    ghost named = { λ c. c.name };

    fn name(&self) -> &Name {
        &self.name
    }
}

impl Named for OpDecl {
    ghost named = { λ o. o.name };

    fn name(&self) -> &Name {
        &self.name
    }
}

/// What has a name and a kind.
pub trait Kinded: Named {
    ghost use Rattle.eden_value.specs.declared.kind.Kind.{Kind};

    ghost kinded: { Self → Kind };

    /// Its kind.
    fn kind(&self) -> &Kind
        ensures { result.now ≡ kinded self.now };
}

impl Kinded for ParDecl {
    ghost kinded = { λ p. p.kind.kind };

    fn kind(&self) -> &Kind {
        &self.kind.kind
    }
}

impl Kinded for LocalDecl {
    ghost kinded = { λ v. v.kind.kind };

    fn kind(&self) -> &Kind {
        &self.kind.kind
    }
}

impl Kinded for VarDecl {
    ghost kinded = { λ v. v.kind.kind };

    fn kind(&self) -> &Kind {
        &self.kind.kind
    }
}

/// Where a name stands first in a list, counted from 0.
pub fn place_of<T: Named>(items: &[T], text: &Txt) -> Option<usize>
    ensures { result ≡ bindings.place_of (map T.named items.now) text.now }
{
    for (i, item) in items.iter().enumerate() {
        if same_text(&item.name().text, text) {
            return Some(i);
        }
    }
    None
}
