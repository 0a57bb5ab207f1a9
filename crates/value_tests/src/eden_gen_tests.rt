use eden_gen::*;
use std::alloc::Global;
use std::process::Abort;

/// How each of the scripts begins.
const HEAD: &[u8] =
    b"nodes 3\ncreate c1 1 Cell\ncreate c2 2 Cell\ncreate c3 3 Cell\ncreate c4 1 Cell\ncreate c5 2 Cell\ncreate c6 3 Cell\n";

/// Beside each number the length of its script, its first rounds and its last lines, as a program in another language gave them.
const SCRIPTS: &[(u64, usize, &[u8], &[u8])] = &[
    (
        0,
        38608,
        b"go 200\ncall q2 c5.Set(125)\ncall q3 c3.Save()\ncall q4 c1.Get()\n",
        b"call q1999 c5.Set(321)\ncall q2000 c1.Set(855)\ngo 5000\nend\n",
    ),
    (
        5,
        38000,
        b"call q1 c6.Set(234)\ngo 40\ncall q3 c6.Set(909)\ncall q4 c1.Save()\n",
        b"go 40\ncall q2000 c2.Get()\ngo 5000\nend\n",
    ),
    (
        22,
        38103,
        b"call q1 c1.Set(997)\ncall q2 c1.Save()\ncall q3 c2.Save()\ncrash 3\nrestart 3\ncall q5 c5.Save()\n",
        b"crash 1\nrestart 1\ngo 5000\nend\n",
    ),
    (
        18446744073709551615,
        38243,
        b"call q1 c6.Get()\ncall q2 c3.Set(864)\ncall q3 c4.Set(47)\n",
        b"call q1999 c1.Set(762)\ncall q2000 c5.Set(453)\ngo 5000\nend\n",
    ),
];

/// Whether the script of a number has this length, begins with the nodes and these rounds, and ends with these lines.
fn is_script_of(
    rt: &impl Abort,
    alloc: Global,
    number: u64,
    length: usize,
    first: &[u8],
    last: &[u8],
) -> bool {
    let script = gen_script(alloc, number).expect(rt, "memory");
    let rounds = script.get(HEAD.len()..).unwrap_or(b"");
    let has_ends = script.starts_with(HEAD) && rounds.starts_with(first) && script.ends_with(last);
    has_ends && script.len() == length
}

#[test]
fn scripts_are_those_of_their_numbers(rt: HostRuntime) {
    for &(number, length, first, last) in SCRIPTS {
        assert!(rt;
            is_script_of(&rt, rt.alloc(), number, length, first, last),
            "{number}"
        );
    }
}
