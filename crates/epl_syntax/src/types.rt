//! The types of which a script may create Ejects.
ghost use Rattle.std.specs.Prelude.{◌≡◌, ◌+◌, ◌<◌, ◌^◌, [], map, length, true, false, IfOk, IfSome, OnOk, OnErr, option_copied};
ghost use Rattle.std.specs.List.{list_any, position_from};
ghost use Rattle.eden_model.specs.Map.{same_text};
ghost use Rattle.epl_syntax.specs.Natives as natives;
ghost use Rattle.epl_syntax.specs.Tree.{type_tree};
ghost use Rattle.epl_syntax.specs.Bindings.{is_resolved};
ghost use Rattle.epl_syntax.specs.Rules.InItems.{broken_program};
ghost use Rattle.epl_syntax.specs.Rules.Limits.{IsWithinLimits};
ghost use Rattle.epl_syntax.specs.Rules.OfTypes as rules;
ghost use Rattle.epl_syntax.specs.Rules.OfTypes.{native_only, with_type, names_of, NamesDiffer, place_named};

use crate::checked::Checked;
use crate::text::same_text;
use crate::tree::Program;
use eden_value::Txt;
use std::alloc::{AllocError, Global};
use std::marker::Model;

/// A native type.
#[derive(Clone, Copy, Debug, PartialEq, Eq)]
pub enum Native {
    /// It holds an integer.
    Cell,
    /// It holds names with capabilities.
    Directory,
    /// The first stage of a stream, filled with texts.
    Lines,
    /// It hands on the first items of a stream.
    Take,
    /// It hands on all but the first items of a stream.
    Skip,
    /// It hands on the items that begin with a text.
    Only,
    /// It hands on each item with its number.
    Number,
    /// The last stage of a stream.
    Sink,
}

/// The native types, in the order in which they stand in each script.
const NATIVE_TYPES: [Native; 8] = [
    Native::Cell,
    Native::Directory,
    Native::Lines,
    Native::Take,
    Native::Skip,
    Native::Only,
    Native::Number,
    Native::Sink,
];

/// The types of a script in order: the native ones, then those that the script declares, each of
/// which keeps the rules with those before it. No two have one name. Contracts see both lists.
#[derive(Drop)]
pub struct Types {
    native: Vec<Native>,
    declared: Vec<Checked>,
}

impl Model for Types {
    ghost use Rattle.std.specs.Prelude.{◌≡◌, ◌++◌, [], map};
    ghost use Rattle.std.specs.List.{IsDistinct};
    ghost use Rattle.eden_model.specs.Map.{same_text};
    ghost use Rattle.std.specs.Coded.{codes};
    ghost use Rattle.eden_value.specs.contracts.kind.Kind as kind;
    ghost use Rattle.epl_syntax.specs.contracts.tree.Expr as expr;
    ghost use Rattle.epl_syntax.specs.contracts.tree.Stmt as stmt;
    ghost use Rattle.epl_syntax.specs.Natives.{native_name, native_types};
    ghost use Rattle.epl_syntax.specs.Rules.OfTypes.{TypeList, broken_types};

    ghost Value = { TypeList };

    ghost coded = { Prim.hlevel (codes, kind.the_row.coded, expr.the_row.coded, stmt.the_row.coded) };

    ghost view = { λ t. record { native = t.native.items; declared = map (λ c. c.program) t.declared.items } };

    ghost invariant = { λ t. (broken_types (map native_name t.native.items) (map (λ c. c.program) t.declared.items) ≡ [])
        × (t.native.items ≡ native_types)
        × IsDistinct same_text (map native_name t.native.items ++ map (λ p. p.name.text) (map (λ c. c.program) t.declared.items)) };
}

fn name_of(kind: &Native) -> &'static [u8]
    ensures { result.now ≡ natives.native_name kind.now }
{
    match kind {
        Native::Cell => b"Cell",
        Native::Directory => b"Directory",
        Native::Lines => b"Lines",
        Native::Take => b"Take",
        Native::Skip => b"Skip",
        Native::Only => b"Only",
        Native::Number => b"Number",
        Native::Sink => b"Sink",
    }
}

fn is_named(kind: &Native, name: &Txt) -> bool
    ensures { result ≡ same_text (natives.native_name kind.now) name.now }
{
    name_of(kind) == name.as_slice()
}

fn has_native(types: &[Native], name: &Txt) -> bool
    ensures { result ≡ list_any (λ t. same_text t name.now) (map natives.native_name types.now) }
{
    for t in types {
        if is_named(t, name) {
            return true;
        }
    }
    false
}

fn has_declared(types: &[Checked], name: &Txt) -> bool
    ensures { result ≡ list_any (λ t. same_text t name.now) (map (λ t. t.name.text) (map (λ c. c.program) types.now)) }
{
    for t in types {
        if same_text(&t.program.name.text, name) {
            return true;
        }
    }
    false
}

fn find_native(types: &[Native], name: &Txt) -> Option<usize>
    ensures { result ≡ position_from (λ t. same_text t name.now) 0 (map natives.native_name types.now) }
{
    for (i, t) in types.iter().enumerate() {
        if is_named(t, name) {
            return Some(i);
        }
    }
    None
}

/// The place of a declared type, where they stand from place `first` on.
fn find_declared(types: &[Checked], first: usize, name: &Txt) -> Option<usize>
    requires { first + length types.now < 2 ^ 64 }
    ensures { result ≡ position_from (λ t. same_text t name.now) first (map (λ t. t.name.text) (map (λ c. c.program) types.now)) }
{
    for (i, t) in types.iter().enumerate() {
        if same_text(&t.program.name.text, name) {
            return Some(first + i);
        }
    }
    None
}

impl Types {
    /// The types of a script that declares none.
    pub fn native(alloc: Global) -> Result<Types, AllocError>
        ensures { IfOk result (λ t. t ≡ native_only) }
    {
        let native = Vec::from_slice(alloc, &NATIVE_TYPES)?;
        Ok(Types {
            native,
            declared: Vec::new(alloc),
        })
    }

    /// Whether a type has this name.
    pub fn has(&self, name: &Txt) -> bool
        ensures { result ≡ list_any (λ t. same_text t name.now) (names_of self.now) }
    {
        has_native(&self.native, name) || has_declared(&self.declared, name)
    }

    /// The place of the type of this name. Native types stand first, and places count from 0.
    pub fn find(&self, name: &Txt) -> Option<usize>
        ensures place { result ≡ place_named self.now name.now }
        ensures names_differ { NamesDiffer self.now }
    {
        match find_native(&self.native, name) {
            Some(place) => Some(place),
            None => find_declared(&self.declared, self.native.len(), name),
        }
    }

    /// The native type at a place.
    pub fn native_at(&self, place: usize) -> Option<Native>
        ensures { result ≡ rules.native_at self.now place }
    {
        self.native.get(place).copied()
    }

    /// The declared type at a place, which is within the limits, with its names resolved.
    pub fn declared_at(&self, place: usize) -> Option<&Program>
        ensures type_at { option_copied result ≡ rules.declared_at self.now place }
        ensures limits { IfSome result (λ p. IsWithinLimits p.now) }
        ensures resolved { IfSome result (λ p. is_resolved p.now ≡ true) }
    {
        if place < self.native.len() {
            return None;
        }
        match self.declared.get(place - self.native.len()) {
            Some(checked) => Some(&checked.program),
            None => None,
        }
    }

    /// One more type, behind those that are there, of a name that none of them has. Where memory runs out, they stay as
    /// they are.
    pub fn add(&mut self, checked: Checked) -> Result<(), AllocError>
        requires rules { broken_program (names_of self.old) (type_tree checked.program) ≡ [] }
        requires name { list_any (λ t. same_text t checked.program.name.text) (names_of self.old) ≡ false }
        ensures ok { OnOk result (self.new ≡ with_type self.old checked.program) }
        ensures err { OnErr result (self.new ≡ self.old) }
    {
        self.declared.push(checked)?;
        Ok(())
    }
}
