//! Mistakes, and what is told of them. The answers are worked out from the forms of commands, and from the grammar and the rules of types.

use mistakes::{first_mistake, text_of};
use std::alloc::Global;
use std::process::Abort;

/// What stands before the line that a row tries, which is line 4, and behind it.
const AROUND: (&str, &str) = ("nodes 2\ncreate c 1 Cell\ncall a c.Get()\n", "\nend\n");

/// What stands before the line of an operation that a row tries, which is line 10, and behind it.
const INSIDE: (&str, &str) = (
    "edentype A\ndurable n : int = 0\nworking t : text = \"\"\nmonitor M\nworking u : int = 0\ncondition c\nend\nclass all limit 2\noperation Get needs 1 class all (p : int, k : cap) returns (int)\n",
    "\nreturn (0)\nend\nendtype\nnodes 1\nend\n",
);

/// What is told of a text.
fn told(rt: &impl Abort, alloc: Global, text: &[u8]) -> Vec<u8> {
    assert!(rt; text.len() <= 2_000_000);
    match first_mistake(alloc, text).expect(rt, "memory") {
        Some(mistake) => text_of(alloc, text, &mistake).expect(rt, "memory"),
        None => Vec::from_slice(alloc, b"no mistake\n").expect(rt, "memory"),
    }
}

/// The bytes of these pieces, one behind the other.
fn joined(rt: &impl Abort, alloc: Global, pieces: &[&str]) -> Vec<u8> {
    let mut text = Vec::new(alloc);
    for piece in pieces {
        text.extend_from_slice(piece.as_bytes())
            .expect(rt, "memory");
    }
    text
}

/// The answer for a text begins and ends with these bytes.
fn is_told(rt: &impl Abort, alloc: Global, text: &[u8], front: &str, back: &str) {
    let answer = told(rt, alloc, text);
    let first = joined(rt, alloc, &[front, "\n"]);
    let last = joined(rt, alloc, &["\nwanted: ", back, "\n"]);
    assert!(rt; answer.as_slice().starts_with(&first), "{front}");
    assert!(rt;
        back.is_empty() || answer.as_slice().ends_with(&last),
        "{back}"
    );
}

/// Lines of commands, each with the answer's first line.
const LINES: &[(&str, &str)] = &[
    ("call b c.set(5)", "line 4, column 10: bad form"),
    ("call b  c.Set(5)", "line 4, column 8: bad form"),
    ("call b c.Set(5", "line 4, column 15: bad form"),
    ("call b c.Set 5", "line 4, column 13: bad form"),
    ("call b c.Set(5) ", "line 4, column 16: bad form"),
    ("call b c.Set(5) # why", "line 4, column 16: bad form"),
    ("call b c.Set(5,6)", "line 4, column 15: bad form"),
    ("call b c.Set(-)", "line 4, column 15: bad form"),
    ("call b c.Set([5)", "line 4, column 16: bad form"),
    ("call b c.Set(\"a\\n\")", "line 4, column 16: bad form"),
    ("call b c.Set([[[[[5]]]]])", "line 4, column 18: bad form"),
    (
        "call b c.Set(99999999999999999999)",
        "line 4, column 14: bad number",
    ),
    ("call b c.9.Get()", "line 4, column 10: bad number"),
    ("call b d.Get()", "line 4, column 8: unknown name"),
    ("call b c.Set(x)", "line 4, column 14: unknown name"),
    ("call b c.Set([a, [b]])", "line 4, column 19: unknown name"),
    ("call a c.Get()", "line 4, column 6: doubled name"),
    ("create d 1 cell", "line 4, column 12: bad form"),
    ("create d Cell", "line 4, column 10: bad form"),
    ("create D 1 Cell", "line 4, column 8: bad form"),
    ("create d 3 Cell", "line 4, column 10: bad number"),
    ("create d 1 Cello", "line 4, column 12: unknown type"),
    ("create c 1 Cell", "line 4, column 8: doubled name"),
    ("creat d 1 Cell", "line 4, column 1: no command"),
    (" go 1", "line 4, column 1: no command"),
    ("nodes 2", "line 4, column 1: misplaced"),
    ("go", "line 4, column 3: bad form"),
    ("go 0", "line 4, column 4: bad number"),
    ("go ten", "line 4, column 4: bad form"),
    ("go 1000001", "line 4, column 4: bad number"),
    ("go 5 ", "line 4, column 5: bad form"),
    ("go\t1", "line 4, column 3: bad byte"),
    ("turn 1000001", "line 4, column 6: bad number"),
    ("cut 0", "line 4, column 6: bad form"),
    ("cut 1 1", "line 4, column 7: bad form"),
    ("cut 0 3", "line 4, column 7: bad number"),
    ("join 1 2 3", "line 4, column 9: bad form"),
    ("fail 1", "line 4, column 7: bad form"),
    ("fail 0 1", "line 4, column 6: bad number"),
    ("stop 1 4", "line 4, column 9: bad form"),
    ("stop 1 4 halt", "line 4, column 10: bad form"),
    ("stop 1 4 garble 256", "line 4, column 17: bad number"),
    ("crash 1 keeps", "line 4, column 13: bad form"),
    ("restart 9", "line 4, column 9: bad number"),
    ("hold h 1.1", "line 4, column 11: bad form"),
    ("hold h 1.0.1", "line 4, column 10: bad number"),
    ("hold a 1.1.1", "line 4, column 6: doubled name"),
    ("restrict r c 65536", "line 4, column 14: bad number"),
    ("restrict r d 1", "line 4, column 12: unknown name"),
    ("walk w c path", "line 4, column 10: bad form"),
    ("walk w c \"path", "line 4, column 15: bad form"),
    ("end\nend", "line 5, column 1: after end"),
];

#[test]
fn lines_of_commands(rt: HostRuntime) {
    for &(line, front) in LINES {
        let text = joined(&rt, rt.alloc(), &[AROUND.0, line, AROUND.1]);
        is_told(&rt, rt.alloc(), &text, front, "");
    }
}

/// Lines of an operation, each with the answer's first line, and what was wanted where a token is bad.
const STATEMENTS: &[(&str, &str, &str)] = &[
    (
        "returm (5)",
        "line 10, column 8: bad edentype: bad token",
        "`:=`",
    ),
    (
        "return (5",
        "line 11, column 1: bad edentype: bad token",
        "an operator, `,`, `)`",
    ),
    (
        "# why",
        "line 10, column 1: bad edentype: bad token",
        "a statement, `var`, `end`",
    ),
    (
        "n = 1",
        "line 10, column 3: bad edentype: bad token",
        "`:=`",
    ),
    (
        "n :=",
        "line 11, column 1: bad edentype: bad token",
        "an expression",
    ),
    (
        "n := 1 +",
        "line 11, column 1: bad edentype: bad token",
        "an expression",
    ),
    (
        "if n = 1 then n := 2",
        "line 13, column 1: bad edentype: bad token",
        "a statement, `end`",
    ),
    (
        "while n < 1",
        "line 11, column 1: bad edentype: bad token",
        "an operator, `do`",
    ),
    (
        "wait",
        "line 11, column 1: bad edentype: bad token",
        "a name that begins with a small letter",
    ),
    (
        "with m do",
        "line 10, column 6: bad edentype: bad token",
        "a name that begins with a capital letter",
    ),
    (
        "n := 1 = 1 = 1",
        "line 10, column 12: bad edentype: bad token",
        "a statement, an operator, `end`",
    ),
    (
        "create A status n gives k",
        "line 10, column 25: bad edentype: bad token",
        "`(`",
    ),
    (
        "invoke k.put(1) status n",
        "line 10, column 10: bad edentype: bad token",
        "a name that begins with a capital letter",
    ),
    (
        "n := 9223372036854775808",
        "line 10, column 6: bad edentype: bad token",
        "an expression",
    ),
    (
        "n := \"abc",
        "line 10, column 6: bad edentype: bad token",
        "an expression",
    ),
    (
        "n := {1}",
        "line 10, column 6: bad edentype: bad token",
        "an expression",
    ),
    (
        "m := 1",
        "line 10, column 1: bad edentype: unknown name",
        "",
    ),
    (
        "n := m",
        "line 10, column 6: bad edentype: unknown name",
        "",
    ),
    (
        "create Foo status n gives (k)",
        "line 10, column 8: bad edentype: unknown name",
        "",
    ),
    (
        "n := true",
        "line 10, column 6: bad edentype: kind differs",
        "int; this is bool",
    ),
    (
        "if n then yield end",
        "line 10, column 4: bad edentype: kind differs",
        "bool; this is int",
    ),
    (
        "return (true)",
        "line 10, column 9: bad edentype: kind differs",
        "int; this is bool",
    ),
    (
        "return ()",
        "line 10, column 1: bad edentype: kind differs",
        "values in the parentheses: 1; here: 0",
    ),
    (
        "return (1, 2)",
        "line 10, column 1: bad edentype: kind differs",
        "values in the parentheses: 1; here: 2",
    ),
    (
        "t := t & 1",
        "line 10, column 10: bad edentype: kind differs",
        "text; this is int",
    ),
    (
        "n := size(t, 1)",
        "line 10, column 6: bad edentype: kind differs",
        "values in the parentheses: 1; here: 2",
    ),
    (
        "checkpoint t",
        "line 10, column 12: bad edentype: kind differs",
        "int; this is text",
    ),
    ("u := 1", "line 10, column 1: bad edentype: unguarded", ""),
    ("wait c", "line 10, column 1: bad edentype: unguarded", ""),
    (
        "with M do with M do yield end end",
        "line 10, column 11: bad edentype: nested",
        "",
    ),
    (
        "var p : int = 0",
        "line 10, column 5: bad edentype: doubled",
        "",
    ),
    (
        "var n : int = 0",
        "line 10, column 5: bad edentype: doubled",
        "",
    ),
];

#[test]
fn lines_of_operations(rt: HostRuntime) {
    for &(line, front, back) in STATEMENTS {
        let text = joined(&rt, rt.alloc(), &[INSIDE.0, line, INSIDE.1]);
        is_told(&rt, rt.alloc(), &text, front, back);
    }
}

/// Whole texts, each with the answer's first line, and what was wanted where a token is bad.
const TEXTS: &[(&str, &str, &str)] = &[
    (
        "edentype a\nendtype",
        "line 1, column 10: bad edentype: bad token",
        "a name that begins with a capital letter",
    ),
    (
        "edentype Cell\nendtype",
        "line 1, column 10: doubled name",
        "",
    ),
    (
        "edentype\n Cell\nendtype",
        "line 2, column 2: doubled name",
        "",
    ),
    (
        "edentype A\n# why\nendtype",
        "line 2, column 1: bad edentype: bad token",
        "an item of a type, `version`, `upgrade`, `endtype`",
    ),
    (
        "edentype A\ndurable n : int\nendtype",
        "line 3, column 1: bad edentype: bad token",
        "`=`",
    ),
    (
        "edentype A\ndurable n int = 0\nendtype",
        "line 2, column 11: bad edentype: bad token",
        "`:`",
    ),
    (
        "edentype A\ndurable n : number = 0\nendtype",
        "line 2, column 13: bad edentype: bad token",
        "a kind",
    ),
    (
        "edentype A\ndurable n : int = x\nendtype",
        "line 2, column 19: bad edentype: bad token",
        "a constant",
    ),
    (
        "edentype A\nclass all limit x\nendtype",
        "line 2, column 17: bad edentype: bad token",
        "a number",
    ),
    (
        "edentype A\nclass all limit 17\nendtype",
        "line 2, column 17: bad edentype: bad limit",
        "",
    ),
    (
        "edentype A version 0\nendtype",
        "line 1, column 20: bad edentype: bad limit",
        "",
    ),
    (
        "edentype A\nclass a limit 1\nclass a limit 1\nendtype",
        "line 3, column 7: bad edentype: doubled",
        "",
    ),
    (
        "edentype A\noperation get needs 1 class all () returns ()\nend\nendtype",
        "line 2, column 11: bad edentype: bad token",
        "a name that begins with a capital letter",
    ),
    (
        "edentype A\nclass all limit 1\noperation Put needs 1 class all (from : int) returns ()\nreturn ()\nend\nendtype",
        "line 3, column 34: bad edentype: bad token",
        "a name that begins with a small letter, `)`",
    ),
    (
        "edentype A\nclass all limit 1\noperation Put needs 1 class all (x int) returns ()\nreturn ()\nend\nendtype",
        "line 3, column 36: bad edentype: bad token",
        "`:`",
    ),
    (
        "edentype A\nclass all limit 1\noperation Put needs 1 class one () returns ()\nreturn ()\nend\nendtype",
        "line 3, column 29: bad edentype: unknown name",
        "",
    ),
    (
        "edentype A\nendtype \nendtype",
        "line 3, column 1: bad edentype: bad token",
        "nothing more",
    ),
    ("edentype A\tB\nendtype", "line 1, column 11: bad byte", ""),
    ("edentype A", "line 2, column 1: no end", ""),
    ("", "line 1, column 1: no end", ""),
    (
        "nodes 1\nedentype A\nendtype\nend",
        "line 2, column 1: misplaced",
        "",
    ),
    ("go 1", "line 1, column 1: misplaced", ""),
    ("nodes 9", "line 1, column 7: bad number", ""),
    ("nodes  1", "line 1, column 7: bad form", ""),
    ("nodes 1\ncreate c 1 Cell", "line 3, column 1: no end", ""),
];

#[test]
fn whole_texts(rt: HostRuntime) {
    for &(text, front, back) in TEXTS {
        is_told(&rt, rt.alloc(), text.as_bytes(), front, back);
    }
}

/// Whole answers.
const ANSWERS: &[(&str, &str)] = &[
    ("nodes 1\nend\n", "no mistake\n"),
    (
        "nodes 1\ncreate c 1 cell\nend\n",
        "line 2, column 12: bad form\ncreate c 1 cell\n           ^\nwanted: create NAME N TYPE, with N a node\n",
    ),
    (
        "nodes 1\ngo\t1\nend\n",
        "line 2, column 3: bad byte\ngo?1\n  ^\nwanted: bytes from 0x20 to 0x7E alone\n",
    ),
    (
        "edentype A\nclass all limit 17\nendtype\n",
        "line 2, column 17: bad edentype: bad limit\nclass all limit 17\n                ^\nwanted: a number within its limits, a kind at most 4 lists deep, and no more of these than a type may have\n",
    ),
    (
        "nodes 1\n",
        "line 2, column 1: no end\nwanted: `endtype` behind each type, and `end` as the last line\n",
    ),
];

#[test]
fn whole_answers(rt: HostRuntime) {
    for &(text, answer) in ANSWERS {
        let found = told(&rt, rt.alloc(), text.as_bytes());
        assert!(rt; found.as_slice() == answer.as_bytes(), "{answer}");
    }
}

/// A text of this piece so many times, between two others.
fn repeated(
    rt: &impl Abort,
    alloc: Global,
    front: &str,
    piece: &str,
    times: usize,
    back: &str,
) -> Vec<u8> {
    let mut text = joined(rt, alloc, &[front]);
    for _ in 0..times {
        text.extend_from_slice(piece.as_bytes())
            .expect(rt, "memory");
    }
    text.extend_from_slice(back.as_bytes()).expect(rt, "memory");
    text
}

#[test]
fn long_lines(rt: HostRuntime) {
    let comment = repeated(&rt, rt.alloc(), "#", "x", 4096, "\n");
    is_told(
        &rt,
        rt.alloc(),
        &comment,
        "line 1, column 4097: long line",
        "at most 4096 bytes",
    );
    let items = repeated(
        &rt,
        rt.alloc(),
        "nodes 1\ncreate c 1 Cell\ncall a c.Set([1",
        ", 1",
        256,
        "])\nend\n",
    );
    is_told(&rt, rt.alloc(), &items, "line 3, column 783: bad form", "");
}
