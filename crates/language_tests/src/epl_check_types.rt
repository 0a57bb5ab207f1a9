//! Whole types, by the rule that they break at the mark `|`.
use crate::marked::{Table, all_are_answered, native_types, types_with_older};
use crate::texts::{BOXED, GATE, HALF, HOARD, MAILBOX, ONCE, PEER, SPIN, TALLY, TALLY_2};
use epl_syntax::Rule;

/// The examples of the manual.
const EXAMPLES: &[&[u8]] = &[
    GATE, PEER, MAILBOX, HALF, SPIN, HOARD, ONCE, BOXED, TALLY, TALLY_2,
];

const KEPT: &[&[u8]] = &[
    b"edentype A endtype",
    // at the ends of the limits
    b"edentype A class one limit 1 class many limit 16 \
        operation O needs 0 class one () returns () end \
        operation P needs 65535 class many () returns () end endtype",
    b"edentype A version 1 durable l : list of list of list of list of int = list(list of list of list of int) endtype",
    b"edentype A version 65535 upgrade from 65534 () end upgrade from 1 (l : list of list of list of list of text) end endtype",
    b"edentype A class all limit 1 \
        operation O needs 1 class all (l : list of list of list of list of cap) \
        returns (list of list of list of list of cap) \
        var v : list of list of list of list of cap = list(list of list of list of cap) return (v) end \
        endtype",
    // names that stand in two scopes
    b"edentype A class all limit 1 monitor M condition ready end \
        process R var all : int = 0 var ready : int = 0 all := ready end \
        process Q var all : int = 0 end endtype",
    b"edentype A version 3 class all limit 1 \
        operation A needs 1 class all (p : int) returns () var v : bool = true end \
        operation Cell needs 1 class all (v : text) returns () var p : cap = none end \
        upgrade from 1 (p : int, v : int) end upgrade from 2 (p : int) end endtype",
    // in an upgrade a monitor is not taken
    b"edentype A version 2 durable c : cap = none monitor M durable n : int = 0 end upgrade from 1 (a : int) n := a c := self end endtype",
    b"edentype A process R var c : cap = none var s : int = 0 create A status s gives (c) create Older status s gives (c) end endtype",
];

const UNKNOWN: &[&[u8]] = &[
    b"edentype A operation O needs 1 class |all () returns () end endtype",
    b"edentype A durable all : int = 0 operation O needs 1 class |all () returns () end endtype",
    b"edentype A process R var n : int = 0 end process Q |n := 1 end endtype",
    b"edentype A class all limit 1 operation O needs 1 class all (n : int) returns () end \
        operation P needs 1 class all () returns () |n := 1 end endtype",
    b"edentype A version 2 upgrade from 1 () |n := 1 end endtype",
    b"edentype A version 2 working n : int = 0 upgrade from 1 () |n := 1 end endtype",
    b"edentype A version 2 upgrade from 1 (a : int) |a := 1 end endtype",
    b"edentype A version 2 durable n : int = 0 upgrade from 1 () n := |n end endtype",
    b"edentype A version 3 durable n : int = 0 upgrade from 1 (a : int) end upgrade from 2 () n := |a end endtype",
    b"edentype A process R var c : cap = none var s : int = 0 create |Oldest status s gives (c) end endtype",
];

const KINDS: &[&[u8]] = &[
    b"edentype A durable n : int = |true endtype",
    b"edentype A durable b : bool = |-1 endtype",
    b"edentype A working l : list of text = |list(int) endtype",
    b"edentype A monitor M durable c : cap = |\"\" end endtype",
    b"edentype A process R var t : text = |none end endtype",
    b"edentype A class all limit 1 operation O needs 1 class all () returns () var l : list of int = |1 end endtype",
    b"edentype A process R |return () end endtype",
    b"edentype A process R |return (1) end endtype",
    b"edentype A version 2 durable n : int = 0 upgrade from 1 (a : text) n := |a end endtype",
];

const DOUBLED: &[&[u8]] = &[
    b"edentype A durable n : int = 0 working |n : int = 0 endtype",
    b"edentype A durable n : int = 0 monitor M working |n : int = 0 end endtype",
    b"edentype A durable n : int = 0 class |n limit 1 endtype",
    b"edentype A class n limit 1 durable |n : int = 0 endtype",
    b"edentype A monitor M durable n : int = 0 condition |n end endtype",
    b"edentype A monitor M condition n end durable |n : int = 0 endtype",
    b"edentype A monitor M condition n end monitor N condition |n end endtype",
    b"edentype A class n limit 1 class |n limit 1 endtype",
    b"edentype A class n limit 1 monitor M condition |n end endtype",
    b"edentype A process R end process |R end endtype",
    b"edentype A process R end monitor |R end endtype",
    b"edentype A monitor M end monitor |M end endtype",
    b"edentype A class all limit 1 operation O needs 1 class all () returns () end \
        operation |O needs 1 class all () returns () end endtype",
    b"edentype A class all limit 1 process O end operation |O needs 1 class all () returns () end endtype",
    b"edentype A class all limit 1 operation O needs 1 class all () returns () end monitor |O end endtype",
    b"edentype A class all limit 1 operation O needs 1 class all (a : int, |a : int) returns () end endtype",
    b"edentype A class all limit 1 operation O needs 1 class all (a : int) returns () var |a : int = 0 end endtype",
    b"edentype A process R var a : int = 0 var |a : int = 0 end endtype",
    // a name of a body, and of a variable of the type before or behind it
    b"edentype A durable a : int = 0 class all limit 1 operation O needs 1 class all (|a : int) returns () end endtype",
    b"edentype A monitor M working a : int = 0 end process R var |a : int = 0 end endtype",
    b"edentype A process R var |a : int = 0 end durable a : int = 0 endtype",
    // upgrades
    b"edentype A version 3 upgrade from 1 () end upgrade from 2 () end upgrade from |1 () end endtype",
    b"edentype A version 2 upgrade from 1 (a : int, |a : int) end endtype",
    b"edentype A version 2 durable a : int = 0 upgrade from 1 (|a : int) end endtype",
    b"edentype A version 2 monitor M working a : int = 0 end upgrade from 1 (|a : int) end endtype",
];

const LIMITS: &[&[u8]] = &[
    b"edentype A class all limit |0 endtype",
    b"edentype A class all limit |17 endtype",
    b"edentype A class all limit 1 operation O needs |65536 class all () returns () end endtype",
    b"edentype A version |0 endtype",
    b"edentype A version |65536 endtype",
    b"edentype A upgrade from |1 () end endtype",
    b"edentype A version 2 upgrade from |0 () end endtype",
    b"edentype A version 2 upgrade from |2 () end endtype",
    // kinds
    b"edentype A durable l : |list of list of list of list of list of int = list(list of list of list of list of int) endtype",
    b"edentype A monitor M \
        working l : |list of list of list of list of list of int = list(list of list of list of list of int) \
        end endtype",
    b"edentype A class all limit 1 operation O needs 1 class all (l : |list of list of list of list of list of int) returns () end endtype",
    b"edentype A class all limit 1 \
        operation O needs 1 class all () returns (int, |list of list of list of list of list of int) end \
        endtype",
    b"edentype A class all limit 1 operation O needs 1 class all () returns () \
        var l : |list of list of list of list of list of int = list(list of list of list of list of int) end \
        endtype",
    b"edentype A process R var l : |list of list of list of list of list of int = list(list of list of list of list of int) end endtype",
    b"edentype A version 2 upgrade from 1 (l : |list of list of list of list of list of int) end endtype",
    b"edentype A version 2 durable b : bool = true \
        upgrade from 1 () b := [1] = [size(list(|list of list of list of list of list of int))] end endtype",
];

/// A type that needs the type `Old` before it.
const YOUNGER: &[&[u8]] = &[
    b"edentype A process R var c : cap = none var s : int = 0 create |Old status s gives (c) end endtype",
];

/// The tables, and types that break two rules, of which the first is answered.
const TABLES: &[Table] = &[
    (None, EXAMPLES),
    (None, KEPT),
    (None, YOUNGER),
    (Some(Rule::UnknownName), UNKNOWN),
    (Some(Rule::KindDiffers), KINDS),
    (Some(Rule::Doubled), DOUBLED),
    (Some(Rule::BadLimit), LIMITS),
    (
        Some(Rule::Doubled),
        &[
            b"edentype A durable n : int = 0 durable |n : bool = 1 endtype",
            b"edentype A class c limit 1 class |c limit 0 endtype",
        ],
    ),
    (
        Some(Rule::KindDiffers),
        &[b"edentype A durable n : int = |true durable n : bool = 1 endtype"],
    ),
    (
        Some(Rule::BadLimit),
        &[b"edentype A class c limit |0 class c limit 17 endtype"],
    ),
    (
        Some(Rule::UnknownName),
        &[
            b"edentype A process R |x := 1 end durable n : int = true endtype",
            b"edentype A operation O needs 1 class |all () returns () end class one limit 0 endtype",
        ],
    ),
];

#[test]
fn types_keep_or_break_the_rules(rt: HostRuntime) {
    let types = types_with_older(&rt, rt.alloc());
    all_are_answered(&rt, rt.alloc(), &types, [b"", b""], TABLES);
}

/// Without that type before it, its name is not known.
const ALONE: &[Table] = &[(Some(Rule::UnknownName), YOUNGER)];

#[test]
fn types_before_are_seen(rt: HostRuntime) {
    let types = native_types(&rt, rt.alloc());
    all_are_answered(&rt, rt.alloc(), &types, [b"", b""], ALONE);
}
