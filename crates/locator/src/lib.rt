//! Which station reaches which: nodes that are up, and links that are joined.
//!
//! The stations are the shell, which is station 0, and the nodes 1 to 8. There is a link between
//! any two of them. No cut touches the way from a station to itself. Nothing reaches the shell.
#![tactic(auto)]

ghost use Rattle.std.specs.Prelude.{◌≡◌, ◌≤◌, ◌<◌, ◌==◌, ◌+◌, ◌*◌, ℕ, true, cond, length, IsTrue};
ghost use Rattle.locator.specs.Reach.{Stations, up_at, joined_at, reaches, same_link, node_up_at};

use capability::Uid;
use std::marker::Model;

/// The nodes that are up, and the links that are joined.
#[derive(Drop)]
pub struct Places {
    nodes: u8,
    up: [bool; 9],
    joined: [bool; 81],
}

impl Model for Places {
    ghost use Rattle.std.specs.Prelude.{◌≤◌};
    ghost use Rattle.locator.specs.Reach.{Stations};

    ghost Value = { Stations };

    ghost view = { λ p. record { nodes = p.nodes; up = p.up; joined = p.joined } };

    ghost invariant = { λ p. p.nodes ≤ 8 };
}

/// The place of an ordered pair of stations in a table of nine rows.
fn place(a: u8, b: u8) -> usize
    requires from { a ≤ 8 }
    requires to { b ≤ 8 }
    ensures place { result ≡ 9 * a + b }
    ensures within { result < 81 }
{
    9 * a as usize + b as usize
}

impl Places {
    /// All nodes are down, and all links are joined. The shell is up.
    pub fn new(nodes: u8) -> Places
        requires least { 1 ≤ nodes }
        requires most { nodes ≤ 8 }
        ensures nodes { result.nodes ≡ nodes }
        ensures up { (n : ℕ) → up_at result n ≡ (n == 0) }
        ensures joined { (a b : ℕ) → a ≤ 8 → b ≤ 8 → joined_at result a b ≡ true }
    {
        let mut up = [false; 9];
        up[0] = true;
        Places {
            nodes,
            up,
            joined: [true; 81],
        }
    }

    /// Whether the station is up. The shell, which is station 0, always is.
    pub fn is_up(&self, node: u8) -> bool
        requires { node ≤ 8 }
        ensures { result ≡ up_at self.now node }
    {
        self.up[node as usize]
    }

    /// Whether `b` is a node that is up, and is `a` itself or on a joined link with it.
    pub fn reach(&self, a: u8, b: u8) -> bool
        requires { a ≤ 8 }
        ensures reached { result ≡ reaches self.now a b }
        ensures within { IsTrue result → b ≤ 8 }
    {
        let there = self.is_node_up(b);
        there && (a == b || self.joined[place(a, b)])
    }

    /// Whether the number is that of a node that is up. The shell is no node.
    fn is_node_up(&self, node: u8) -> bool
        ensures up { result ≡ node_up_at self.now node }
        ensures within { IsTrue result → node ≤ 8 }
    {
        1 <= node && node <= 8 && self.up[node as usize]
    }

    /// The node is up or down from now on.
    pub fn set_up(&mut self, node: u8, up: bool)
        requires from { 1 ≤ node }
        requires to { node ≤ self.old.nodes }
        ensures up { (n : ℕ) → up_at self.new n ≡ cond (n == node) up (up_at self.old n) }
        ensures joined { self.new.joined ≡ self.old.joined }
        ensures nodes { self.new.nodes ≡ self.old.nodes }
    {
        self.up[node as usize] = up;
    }

    /// The link between the two stations is joined or cut from now on, in both directions.
    pub fn set_link(&mut self, a: u8, b: u8, joined: bool)
        requires from { a ≤ 8 }
        requires to { b ≤ 8 }
        ensures joined { (x y : ℕ) → x ≤ 8 → y ≤ 8
            → joined_at self.new x y ≡ cond (same_link a b x y) joined (joined_at self.old x y) }
        ensures up { self.new.up ≡ self.old.up }
        ensures nodes { self.new.nodes ≡ self.old.nodes }
    {
        self.joined[place(a, b)] = joined;
        self.joined[place(b, a)] = joined;
    }
}

/// The node on which an Eject runs and is kept: the one on which it was created.
pub fn home(uid: Uid) -> u8
    ensures { result ≡ uid.node }
{
    uid.node
}
