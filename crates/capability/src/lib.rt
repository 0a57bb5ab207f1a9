//! Names of Ejects, and the capabilities by which they are invoked.
#![tactic(auto)]

mod lists;

ghost use Rattle.std.specs.Prelude.{◌≡◌, ℕ, ◌<◌, ◌↔◌, IsTrue};
ghost use Rattle.capability.specs.Rights.{Has, IsWithin, is_within};
ghost use Rattle.capability.specs.Capability.{full, restricted, IsBelow};

pub use lists::{Body, CallNumbers, Seq};

/// The greatest length of a representation, in bytes.
pub const BODY_LIMIT: u32 = 262_144;

/// The greatest length of the arguments or the results of one message, in bytes.
pub const MESSAGE_LIMIT: u32 = 65_536;

/// The name of an Eject: the node and the epoch in which it was created, and its serial there.
///
/// Printed `1.1.1`. Nodes are 1 to 8; epochs and serials of Ejects begin at 1. No uid is given
/// twice, since a node raises its epoch at each boot before it creates anything.
#[derive(Clone, Copy, Debug, PartialEq, Eq, PartialOrd, Ord)]
pub struct Uid {
    pub node: u8,
    pub epoch: u32,
    pub serial: u32,
}

/// A set of rights, numbered from 0 to 15: bit k of the word says whether right k is in it.
#[derive(Clone, Copy, Debug, PartialEq, Eq)]
pub struct Rights {
    pub bits: u16,
}

/// A capability: the name of an Eject, and the rights with which its holder may invoke it.
///
/// In Eden an object is referred to, and reached, by a capability alone.
#[derive(Clone, Copy, Debug, PartialEq, Eq)]
pub struct Cap {
    pub uid: Uid,
    pub rights: Rights,
}

/// The capability of an Eject with all 16 rights, which its creator receives.
pub fn mint(uid: Uid) -> Cap
    ensures exact { result ≡ full uid }
    ensures all { (k : ℕ) → k < 16 → Has result.rights k }
{
    Cap {
        uid,
        rights: Rights { bits: u16::MAX },
    }
}

/// The capability with those of its rights that are also in `mask`. Rights never grow by it.
pub fn restrict(cap: Cap, mask: Rights) -> Cap
    ensures exact { result ≡ restricted cap mask }
    ensures uid { result.uid ≡ cap.uid }
    ensures rights { (k : ℕ) → Has result.rights k ↔ (Has cap.rights k × Has mask k) }
    ensures below { IsBelow result cap }
{
    Cap {
        uid: cap.uid,
        rights: Rights {
            bits: cap.rights.bits & mask.bits,
        },
    }
}

/// Whether all bits of `needs`, which an operation asks for, are in the capability's rights.
pub fn allows(cap: Cap, needs: Rights) -> bool
    ensures exact { result ≡ is_within needs cap.rights }
    ensures rights { IsTrue result ↔ IsWithin needs cap.rights }
{
    needs.bits & cap.rights.bits == needs.bits
}

/// Whether both name one Eject, and all rights of `a` are rights of `b`.
pub fn below(a: Cap, b: Cap) -> bool
    ensures { IsTrue result ↔ IsBelow a b }
{
    a.uid == b.uid && a.rights.bits & b.rights.bits == a.rights.bits
}
