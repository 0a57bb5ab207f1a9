//! Bodies of an operation, by the rule that they break at the mark `|`.
use crate::marked::{Table, all_are_answered, types_with_older};
use epl_syntax::Rule;

/// Before a body stand these declarations, in an operation that returns one integer.
const FRAME: &[u8] =
    b"edentype A durable n : int = 0 durable b : bool = false durable t : text = \"\" \
        durable c : cap = none durable l : list of int = list(int) class all limit 1 \
        monitor M working m : int = 0 working g : cap = none condition ready end \
        monitor N working k : int = 0 condition done end \
        operation O needs 1 class all (p : int) returns (int) var s : int = 0 var q : bool = true ";

const FRAME_END: &[u8] = b" end endtype";

const KEPT: &[&[u8]] = &[
    b"",
    b"return (1)",
    b"n := p + s * 2 - n / 3 mod 4 s := -n b := not b and n < 1 or n = 1 or t <> \"a\" \
        t := t & \"b\" & str(n) l := l & [1, n] & put(l, 0, n) & cut(l, 1) c := restrict(c, 1) c := self \
        c := none n := size(l) + size(t) + l[n] t := part(t, 0, n) q := c = self",
    b"b := n <= 1 and n > 2 and n >= 3 if b then n := 1 else while n > 0 do n := n - 1 end end checkpoint s destroy s yield deactivate",
    b"create Cell status s gives (c) create A status n gives (c) create Old status p gives (c) create Older status s gives (c)",
    b"invoke c.Any(1, true, [c], list(text)) status s gives (n, b, t, c, l) invoke self.O(1) status p",
    b"with M do m := m + 1 wait ready signal ready invoke g.Any(g) status m gives (m) return (m) end with N do k := 1 signal done end",
    b"with M do if m = 1 then m := 2 else signal ready end while m < 3 do m := m + 1 wait ready end end",
    b"b := list(list of int) = [list(int), [1]] q := size(list(list of list of list of list of int)) = [[l]][0][0][0]",
];

const UNKNOWN: &[&[u8]] = &[
    b"|x := 1",
    b"n := |x",
    b"n := n + |x",
    b"n := |x * n",
    b"n := -|x",
    b"n := |x[0]",
    b"n := l[|x]",
    b"n := size(|x)",
    b"l := put(l, 0, |x)",
    b"l := [1, |x]",
    b"if |x then end",
    b"if b then else |x := 1 end",
    b"while b and |x do end",
    b"while b do |x := 1 end",
    b"checkpoint |x",
    b"destroy |x",
    b"create Cell status |x gives (c)",
    b"create Cell status s gives (|x)",
    b"create |B status s gives (c)",
    b"invoke |x.Op() status s",
    b"invoke c.Op(|x) status s",
    b"invoke c.Op() status |x",
    b"invoke c.Op() status s gives (n, |x)",
    b"return (|x)",
    // of other things than variables, conditions and monitors
    b"n := |all",
    b"n := |ready",
    b"wait |n",
    b"signal |never",
    b"with |O do end",
];

const OPERANDS: &[&[u8]] = &[
    b"n := |b + 1",
    b"n := 1 + |b",
    b"n := 1 - |t",
    b"n := |t * 1",
    b"n := 1 / |b",
    b"n := 1 mod |none",
    b"n := -|b",
    b"b := not |n",
    b"b := |1 and b",
    b"b := b or |1",
    b"b := |b < 1",
    b"b := 1 <= |t",
    b"b := |t > 1",
    b"b := 1 >= |b",
    b"b := 1 = |b",
    b"b := l <> |list(text)",
    b"t := |1 & t",
    b"t := t & |1",
    b"l := l & |list(bool)",
    b"l := l & |t",
    b"n := |n[0]",
    b"n := |t[0]",
    b"n := l[|b]",
    b"l := [1, |true]",
    b"b := |(1) + 1",
    b"n := (|true) + 1",
    b"b := 1 = 1 and 1 < 1 or |1",
    b"n := l[0] + [l][0][|c]",
];

const ARGUMENTS: &[&[u8]] = &[
    b"n := size(|1)",
    b"n := |size(t, t)",
    b"t := str(|t)",
    b"t := |str(n, n)",
    b"l := put(|t, 0, 1)",
    b"l := put(l, |b, 1)",
    b"l := put(l, 0, |b)",
    b"l := |put(l, 0)",
    b"l := cut(|t, 0)",
    b"l := cut(l, |t)",
    b"l := |cut(l)",
    b"t := part(|l, 0, 1)",
    b"t := part(t, |b, 1)",
    b"t := part(t, 0, |b)",
    b"t := |part(t, 0)",
    b"c := restrict(|1, 1)",
    b"c := restrict(c, |c)",
    b"c := |restrict(c)",
    b"c := |restrict(c, 1, 1)",
];

const KINDS: &[&[u8]] = &[
    b"n := |true",
    b"b := |n",
    b"t := |c",
    b"c := |1",
    b"l := |list(text)",
    b"l := |[true]",
    b"l := |[l]",
    b"n := |str(1)",
    b"n := |1 = 1",
    b"n := |l",
    b"if |1 then end",
    b"while |n do end",
    b"|return ()",
    b"|return (1, 2)",
    b"return (|true)",
    b"checkpoint |b",
    b"destroy |c",
    b"create Cell status |t gives (c)",
    b"create Cell status s gives (|n)",
    b"invoke |n.Op() status s",
    b"invoke c.Op() status |q",
    b"invoke c.Op(1 + |b) status s",
    b"if b then n := |b end",
    b"if b then else n := |b end",
    b"while b do n := |b end",
    b"with M do m := |b end",
    b"n := 1 n := |none",
];

const UNGUARDED: &[&[u8]] = &[
    b"n := |m",
    b"|m := 1",
    b"n := 1 + |m",
    b"l := [|m]",
    b"n := size([|m])",
    b"n := l[|m]",
    b"checkpoint |m",
    b"destroy |m",
    b"create Cell status |m gives (c)",
    b"create Cell status s gives (|g)",
    b"invoke |g.Op() status s",
    b"invoke c.Op(|m) status s",
    b"invoke c.Op() status |m",
    b"invoke c.Op() status s gives (|m)",
    b"return (|m)",
    b"with N do n := |m end",
    b"with M do end if |m = 1 then end",
    b"|wait ready",
    b"|signal ready",
    b"with N do |wait ready end",
];

const NESTED: &[&[u8]] = &[
    b"with M do |with M do end end",
    b"with M do if b then |with N do k := 1 end end end",
    b"with M do while b do |with N do end end end",
    b"with M do end with N do if b then else |with M do end end end",
];

/// The tables, and bodies that break two rules, of which the first is answered.
const TABLES: &[Table] = &[
    (None, KEPT),
    (Some(Rule::UnknownName), UNKNOWN),
    (Some(Rule::KindDiffers), OPERANDS),
    (Some(Rule::KindDiffers), ARGUMENTS),
    (Some(Rule::KindDiffers), KINDS),
    (Some(Rule::Unguarded), UNGUARDED),
    (Some(Rule::Nested), NESTED),
    (Some(Rule::UnknownName), &[b"n := |x b := 1"]),
    (Some(Rule::KindDiffers), &[b"n := |true x := 1"]),
    (Some(Rule::UnknownName), &[b"create |B status b gives (n)"]),
    (Some(Rule::Nested), &[b"with M do |with X do end end"]),
    (Some(Rule::UnknownName), &[b"with |X do n := m end"]),
    // at one place, or two at places that are not in the order of the rules
    (Some(Rule::KindDiffers), &[b"b := |m"]),
    (Some(Rule::KindDiffers), &[b"checkpoint |g"]),
    (Some(Rule::Unguarded), &[b"|wait ready n := x"]),
    (
        Some(Rule::BadLimit),
        &[b"b := size(list(|list of list of list of list of list of int)) = x"],
    ),
];

#[test]
fn bodies_keep_or_break_the_rules(rt: HostRuntime) {
    let types = types_with_older(&rt, rt.alloc());
    all_are_answered(&rt, rt.alloc(), &types, [FRAME, FRAME_END], TABLES);
}
