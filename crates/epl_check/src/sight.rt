//! What the names of a body stand for.
ghost use Rattle.std.specs.Prelude.{◌≡◌, map};
ghost use Rattle.epl_syntax.specs.Tree.{local_of, parameter, variable};
ghost use Rattle.epl_syntax.specs.Rules.Scopes as scopes;
ghost use Rattle.epl_check.specs.View.{seen, seen_of, results_of};

use crate::index::{find, number_of};
use crate::scope::{Scope, Variable};
use eden_value::Txt;
use epl_syntax::{WrittenKind, same_text};

#[tactic(auto, using(crate::proofs::Named::param_first))]
fn param_named<'a>(scope: &Scope<'a>, text: &Txt) -> Option<Variable<'a>>
    ensures { seen_of result ≡ scopes.param_named (map parameter scope.now.params.items.now) text.now }
{
    let p = find(scope.params, text)?;
    Some(Variable {
        kind: &p.kind.kind,
        monitor: 0,
    })
}

#[tactic(auto, using(crate::proofs::Named::local_first))]
fn local_named<'a>(scope: &Scope<'a>, text: &Txt) -> Option<Variable<'a>>
    ensures { seen_of result ≡ scopes.local_named (map local_of scope.now.locals.items.now) text.now }
{
    let v = find(scope.locals, text)?;
    Some(Variable {
        kind: &v.kind.kind,
        monitor: 0,
    })
}

#[tactic(auto, using(crate::proofs::Named::var_first))]
fn var_named<'a>(scope: &Scope<'a>, text: &Txt) -> Option<Variable<'a>>
    ensures { seen_of result ≡ scopes.var_named (map variable scope.now.vars.items.now) text.now }
{
    let v = find(scope.vars, text)?;
    Some(Variable {
        kind: &v.kind.kind,
        monitor: v.monitor,
    })
}

impl<'a> Scope<'a> {
    /// The variable of a name: a parameter, a variable of the body or one of the type.
    #[tactic(auto, unfolding(crate::specs::View::seen, epl_syntax::specs::Rules::Scopes::variable_named))]
    pub fn variable_named(&self, text: &Txt) -> Option<Variable<'a>>
        ensures { seen_of result ≡ scopes.variable_named (seen self.now) text.now }
    {
        if let Some(v) = param_named(self, text) {
            return Some(v);
        }
        if let Some(v) = local_named(self, text) {
            return Some(v);
        }
        var_named(self, text)
    }

    /// The number of the monitor of a name.
    #[tactic(auto, unfolding(crate::specs::View::seen, epl_syntax::specs::Rules::Scopes::monitor_named))]
    pub fn monitor_named(&self, text: &Txt) -> Option<usize>
        ensures { result ≡ scopes.monitor_named (seen self.now) text.now }
    {
        number_of(self.monitors, text)
    }

    /// The number of the monitor of the condition of a name.
    #[tactic(auto, unfolding(crate::specs::View::seen, epl_syntax::specs::Rules::Scopes::condition_named), using(crate::proofs::Named::condition_first))]
    pub fn condition_named(&self, text: &Txt) -> Option<u32>
        ensures { result ≡ scopes.condition_named (seen self.now) text.now }
    {
        let c = find(self.conditions, text)?;
        Some(c.monitor)
    }

    /// Whether Ejects of the type of a name may be created.
    #[tactic(auto, unfolding(crate::specs::View::seen, epl_syntax::specs::Rules::Scopes::is_type))]
    pub fn is_type(&self, text: &Txt) -> bool
        ensures { result ≡ scopes.is_type (seen self.now) text.now }
    {
        same_text(&self.own.text, text) || self.earlier.has(text)
    }

    /// The kinds of the results of the operation whose body it is.
    #[tactic(auto, unfolding(crate::specs::View::seen))]
    pub fn results(&self) -> Option<&'a [WrittenKind]>
        ensures { results_of result ≡ (seen self.now).results }
    {
        self.results
    }
}
