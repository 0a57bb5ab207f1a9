//! The calls by the cuts and crashes that would close them, so that what closes many calls looks at no others.
ghost use Rattle.std.specs.Prelude.{◌≡◌, ◌≢◌, ◌≤◌, ◌<◌, ◌+◌, ◌++◌, ◌∷◌, [], ℕ, IfOk, OnOk, List, length, map};
ghost use Rattle.eden_model.specs.Traffic.{asking_station};
ghost use Rattle.invocation.specs.declared.call.Call.{Call as Known};
ghost use Rattle.invocation.specs.declared.closing.Cause.TheVariants.{Cut, Crash};
ghost use Rattle.invocation.specs.Mail.{target_of};
ghost use Rattle.invocation.specs.Numbers.{numbers_where};
ghost use Rattle.invocation.specs.Causes.{is_broken, closed_by};
ghost use Rattle.invocation.specs.Listed.{numbers_at, link, HasRoom, HasRoomFor, AreLists, IsIndex};

use crate::call::Call;
use crate::closing::{Cause, broken_numbers, close_each, is_live_at, is_open_at};
use crate::queues::pair;
use std::alloc::{AllocError, Global};

/// The numbers of calls, by what may close them.
#[derive(Drop)]
pub struct Index {
    /// Of each link the open calls over it, ascending, and perhaps some that closed since it was cut last.
    pub links: Vec<Vec<u32>>,
    /// Of each station the open calls from it, and those to it that are open or have their arguments, ascending, and perhaps
    /// some that were.
    pub nodes: Vec<Vec<u32>>,
}

/// The place of the link between two stations.
fn link(a: u8, b: u8) -> usize
    requires from { a ≤ 8 }
    requires to { b ≤ 8 }
    ensures place { result ≡ link a b }
    ensures within { result < 81 }
{
    if a <= b { pair(a, b) } else { pair(b, a) }
}

/// So many lists without numbers.
fn empty_lists(alloc: Global, count: usize) -> Result<Vec<Vec<u32>>, AllocError>
    ensures length { IfOk result (λ v. length v.items ≡ count) }
    ensures none { IfOk result (λ v. (p : ℕ) → numbers_at p v.items ≡ []) }
{
    let mut lists = Vec::new(alloc);
    for _i in 0..count {
        lists.push(Vec::new(alloc))?;
    }
    Ok(lists)
}

/// Takes room for one more number in the list at a place.
fn reserve_at(lists: &mut Vec<Vec<u32>>, place: usize) -> Result<(), AllocError>
    requires { place < length lists.old.items }
    ensures length { length lists.new.items ≡ length lists.old.items }
    ensures numbers { (p : ℕ) → numbers_at p lists.new.items ≡ numbers_at p lists.old.items }
    ensures room { OnOk result (HasRoom place lists.new.items) }
    ensures others { (p : ℕ) → HasRoom p lists.old.items → HasRoom p lists.new.items }
{
    let list = &mut lists[place];
    list.reserve(1)
}

/// A number is the last of the list at a place.
fn push_at(lists: &mut Vec<Vec<u32>>, place: usize, number: u32)
    requires within { place < length lists.old.items }
    requires room { HasRoom place lists.old.items }
    ensures length { length lists.new.items ≡ length lists.old.items }
    ensures pushed { numbers_at place lists.new.items ≡ numbers_at place lists.old.items ++ number ∷ [] }
    ensures others { (p : ℕ) → p ≢ place → numbers_at p lists.new.items ≡ numbers_at p lists.old.items }
    ensures room { (p : ℕ) → p ≢ place → HasRoom p lists.old.items → HasRoom p lists.new.items }
{
    let list = &mut lists[place];
    list.push_reserved(number);
}

impl Index {
    /// The index where no call was asked.
    pub fn new(alloc: Global) -> Result<Index, AllocError>
        ensures { IfOk result (IsIndex []) }
    {
        let links = empty_lists(alloc, 81)?;
        let nodes = empty_lists(alloc, 9)?;
        Ok(Index { links, nodes })
    }

    /// Takes room for one more call between two stations.
    pub fn reserve(&mut self, from: u8, to: u8) -> Result<(), AllocError>
        requires lists { AreLists self.old }
        requires from { from ≤ 8 }
        requires to { to ≤ 8 }
        ensures index { (calls : List Known) → IsIndex calls self.old → IsIndex calls self.new }
        ensures room { OnOk result (HasRoomFor from to self.new) }
    {
        reserve_at(&mut self.links, link(from, to))?;
        reserve_at(&mut self.nodes, from as usize)?;
        reserve_at(&mut self.nodes, to as usize)
    }

    /// A new call between two stations has this number.
    pub fn note(&mut self, from: u8, to: u8, number: u32)
        requires room { HasRoomFor from to self.old }
        requires from { from ≤ 8 }
        requires to { to ≤ 8 }
        ensures { (calls : List Known) (x : Known) → number ≡ length calls + 1 → asking_station x.asker ≡ from → target_of x ≡ to
            → IsIndex calls self.old → IsIndex (calls ++ x ∷ []) self.new }
    {
        push_at(&mut self.links, link(from, to), number);
        push_at(&mut self.nodes, from as usize, number);
        if from != to {
            push_at(&mut self.nodes, to as usize, number);
        }
    }

    /// The open calls that a cut of the link between two stations breaks, ascending.
    pub fn broken_by_cut(
        &self,
        alloc: Global,
        calls: &[Call],
        a: u8,
        b: u8,
    ) -> Result<Vec<u32>, AllocError>
        requires index { IsIndex calls.now self.now }
        requires from { a ≤ 8 }
        requires to { b ≤ 8 }
        ensures { IfOk result (λ v. v.items ≡ numbers_where (is_broken (Cut a b)) 1 calls.now) }
    {
        broken_numbers(alloc, calls, &self.links[link(a, b)], Cause::Cut { a, b })
    }

    /// The open calls that a crash of a node breaks, ascending.
    pub fn broken_by_crash(
        &self,
        alloc: Global,
        calls: &[Call],
        node: u8,
    ) -> Result<Vec<u32>, AllocError>
        requires index { IsIndex calls.now self.now }
        requires node { node ≤ 8 }
        ensures { IfOk result (λ v. v.items ≡ numbers_where (is_broken (Crash node)) 1 calls.now) }
    {
        broken_numbers(
            alloc,
            calls,
            &self.nodes[node as usize],
            Cause::Crash { node },
        )
    }

    /// Closes the calls over the link between two stations.
    pub fn close_over(&mut self, alloc: Global, calls: &mut Vec<Call>, a: u8, b: u8)
        requires index { IsIndex calls.old.items self.old }
        requires from { a ≤ 8 }
        requires to { b ≤ 8 }
        ensures calls { calls.new.items ≡ map (closed_by (Cut a b)) calls.old.items }
        ensures index { IsIndex calls.new.items self.new }
    {
        let listed = &mut self.links[link(a, b)];
        close_each(alloc, calls, listed, Cause::Cut { a, b });
        let calls = calls.as_slice();
        listed.retain(|number| is_open_at(calls, *number));
    }

    /// Closes the calls that a crash of a node closes.
    pub fn close_at(&mut self, alloc: Global, calls: &mut Vec<Call>, node: u8)
        requires index { IsIndex calls.old.items self.old }
        requires node { node ≤ 8 }
        ensures calls { calls.new.items ≡ map (closed_by (Crash node)) calls.old.items }
        ensures index { IsIndex calls.new.items self.new }
    {
        let listed = &mut self.nodes[node as usize];
        close_each(alloc, calls, listed, Cause::Crash { node });
        let calls = calls.as_slice();
        listed.retain(|number| is_live_at(calls, *number));
    }
}
