//! Lines, their commands and their causes.

use eden_disk::ImageMode;
use eden_script::ScriptCause::{
    AfterEnd, BadByte, BadEdentype, BadForm, BadNumber, DoubledName, LongLine, Misplaced,
    NoCommand, NoEnd, UnknownName, UnknownType,
};
use eden_script::{ScriptCause, ScriptRefusal, parse_script, read_value};
use eden_value::{Txt, Value, print};
use journal::{Arg, Command, Ref, Script};
use std::alloc::Global;
use std::process::Abort;

/// The first bad line of a script and its cause.
type At = Option<(u32, ScriptCause)>;

/// What stands before the line that a row tries, which is line 4, and what behind it.
const AROUND: (&str, &str) = ("nodes 2\ncreate c 1 Cell\ncall a c.Get()\n", "\nend\n");

/// The script, or its first bad line and its cause.
fn parsed(rt: &impl Abort, alloc: Global, text: &[u8]) -> Result<Box<Script>, (u32, ScriptCause)> {
    assert!(rt; text.len() <= 2_000_000);
    match parse_script(alloc, text) {
        Ok(script) => Ok(Box::new(alloc, script).expect(rt, "memory")),
        Err(ScriptRefusal::Bad { line, cause }) => Err((line, cause)),
        Err(ScriptRefusal::OutOfMemory) => panic!(rt; "memory"),
    }
}

/// The text of these pieces, each as often as its number says.
fn text_of(rt: &impl Abort, alloc: Global, pieces: &[(&str, usize)]) -> Vec<u8> {
    let mut text = Vec::new(alloc);
    for (piece, times) in pieces {
        for _ in 0..*times {
            text.extend_from_slice(piece.as_bytes())
                .expect(rt, "memory");
        }
    }
    text
}

/// Puts these bytes behind a text.
fn add(rt: &impl Abort, bytes: &[u8], out: &mut Vec<u8>) {
    out.extend_from_slice(bytes).expect(rt, "memory");
}

/// The text is a script, or has its first bad line and its cause there.
fn has_cause(rt: &impl Abort, alloc: Global, row: &str, text: &[u8], at: At) {
    let found = parsed(rt, alloc, text).err();
    assert_eq!(rt; found, at, "{row}");
}

/// What a command says: its word, and what stands behind it in this order.
#[derive(Drop)]
struct Parts<'a> {
    word: &'static str,
    name: Option<&'a Txt>,
    target: Option<&'a Ref>,
    numbers: [Option<u32>; 3],
    text: Option<&'a Txt>,
    args: &'a [Arg],
    mode: Option<ImageMode>,
}

/// A word, and numbers and a mode behind it.
fn numbered<'a>(
    word: &'static str,
    numbers: [Option<u32>; 3],
    mode: Option<ImageMode>,
) -> Parts<'a> {
    Parts {
        word,
        name: None,
        target: None,
        numbers,
        text: None,
        args: &[],
        mode,
    }
}

/// A word, a name and numbers, and a text behind them.
fn named<'a>(
    word: &'static str,
    name: &'a Txt,
    numbers: [Option<u32>; 3],
    text: Option<&'a Txt>,
) -> Parts<'a> {
    Parts {
        word,
        name: Some(name),
        target: None,
        numbers,
        text,
        args: &[],
        mode: None,
    }
}

/// Of a command that introduces a name.
fn naming_parts(command: &Command) -> Parts {
    match command {
        Command::Create {
            name,
            node,
            type_name,
        } => named(
            "create",
            name,
            [Some(u32::from(*node)), None, None],
            Some(type_name),
        ),
        Command::Hold { name, uid } => {
            let numbers = [Some(u32::from(uid.node)), Some(uid.epoch), Some(uid.serial)];
            named("hold", name, numbers, None)
        }
        Command::Call {
            name,
            target,
            operation,
            args,
        } => Parts {
            target: Some(target),
            args: &args.args,
            ..named("call", name, [None; 3], Some(operation))
        },
        Command::Restrict { name, target, mask } => Parts {
            target: Some(target),
            ..named(
                "restrict",
                name,
                [Some(u32::from(mask.bits)), None, None],
                None,
            )
        },
        Command::Walk { name, target, path } => Parts {
            target: Some(target),
            ..named("walk", name, [None; 3], Some(path))
        },
        _ => numbered("end", [None; 3], None),
    }
}

fn parts_of(command: &Command) -> Parts {
    match command {
        Command::Turn { i } => numbered("turn", [Some(*i), None, None], None),
        Command::Go { n } => numbered("go", [Some(*n), None, None], None),
        Command::Crash { node, mode } => {
            numbered("crash", [Some(u32::from(*node)), None, None], Some(*mode))
        }
        Command::Restart { node } => numbered(
            "restart",
            [Some(u32::from(*node)), None, None],
            None,
        ),
        Command::Cut { a, b } => {
            numbered(
                "cut",
                [Some(u32::from(*a)), Some(u32::from(*b)), None],
                None,
            )
        }
        Command::Join { a, b } => {
            numbered(
                "join",
                [Some(u32::from(*a)), Some(u32::from(*b)), None],
                None,
            )
        }
        Command::Fail { node, after } => {
            numbered("fail", [Some(u32::from(*node)), Some(*after), None], None)
        }
        Command::Stop { node, after, mode } => {
            numbered(
                "stop",
                [Some(u32::from(*node)), Some(*after), None],
                Some(*mode),
            )
        }
        _ => naming_parts(command),
    }
}

/// A blank, and a word or a name.
fn add_word(rt: &impl Abort, word: &[u8], out: &mut Vec<u8>) {
    add(rt, b" ", out);
    add(rt, word, out);
}

fn add_number(rt: &impl Abort, alloc: Global, n: u32, out: &mut Vec<u8>) {
    let digits = format!(in alloc; "{n}").expect(rt, "memory");
    add_word(rt, digits.as_bytes(), out);
}

fn add_reference(rt: &impl Abort, alloc: Global, by: &Ref, out: &mut Vec<u8>) {
    add_word(rt, &by.name.bytes, out);
    add_number(rt, alloc, u32::from(by.result), out);
}

fn add_mode(rt: &impl Abort, alloc: Global, mode: ImageMode, out: &mut Vec<u8>) {
    match mode {
        ImageMode::Keep => add_word(rt, b"keep", out),
        ImageMode::Lose => add_word(rt, b"lose", out),
        ImageMode::Garble { byte } => {
            add_word(rt, b"garble", out);
            add_number(rt, alloc, u32::from(byte), out);
        }
    }
}

/// A value as it is printed.
fn add_value(rt: &impl Abort, alloc: Global, value: &Value, out: &mut Vec<u8>) {
    print(alloc, value, out).expect(rt, "memory");
}

/// An argument: a value, a name and its result, or a list in braces.
#[cycle(argument)]
fn add_argument(rt: &impl Abort, alloc: Global, arg: &Arg, out: &mut Vec<u8>) {
    match arg {
        Arg::Plain { value } => {
            add(rt, b" ", out);
            add_value(rt, alloc, value, out);
        }
        Arg::Named { by } => add_reference(rt, alloc, by, out),
        Arg::List { items } => {
            add_word(rt, b"{", out);
            add_arguments(rt, alloc, &items.args, out);
            add_word(rt, b"}", out);
        }
    }
}

#[cycle(argument)]
fn add_arguments(rt: &impl Abort, alloc: Global, args: &[Arg], out: &mut Vec<u8>) {
    for arg in args {
        add_argument(rt, alloc, arg, out);
    }
}

/// The parts of a command, parted by blanks.
fn add_command(rt: &impl Abort, alloc: Global, command: &Command, out: &mut Vec<u8>) {
    let Parts {
        word,
        name,
        target,
        numbers,
        text,
        args,
        mode,
    } = parts_of(command);
    add(rt, word.as_bytes(), out);
    if let Some(name) = name {
        add_word(rt, &name.bytes, out);
    }
    if let Some(by) = target {
        add_reference(rt, alloc, by, out);
    }
    for number in &numbers {
        if let Some(n) = number {
            add_number(rt, alloc, *n, out);
        }
    }
    if let Some(text) = text {
        add_word(rt, &text.bytes, out);
    }
    add_arguments(rt, alloc, args, out);
    if let Some(mode) = mode {
        add_mode(rt, alloc, mode, out);
    }
}

/// The text of a script with this line as its fourth.
fn around(rt: &impl Abort, alloc: Global, line: &str) -> Vec<u8> {
    let (before, behind) = AROUND;
    text_of(rt, alloc, &[(before, 1), (line, 1), (behind, 1)])
}

/// The parts of the command on the fourth line of a script.
fn fourth(rt: &impl Abort, alloc: Global, line: &str) -> Vec<u8> {
    let mut out = Vec::new(alloc);
    if let Ok(script) = parsed(rt, alloc, &around(rt, alloc, line)) {
        if let [_, _, command, Command::End] = script.commands.commands.as_slice() {
            add_command(rt, alloc, command, &mut out);
        }
    }
    out
}

/// A line, and the parts of its command.
const COMMANDS: &[(&str, &str)] = &[
    ("create d 2 Cell", "create d 2 Cell"),
    ("create create 01 Cell", "create create 1 Cell"),
    ("create x_Y9 2 Cell", "create x_Y9 2 Cell"),
    ("hold h 1.1.1", "hold h 1 1 1"),
    (
        "hold h 2.4294967295.4294967295",
        "hold h 2 4294967295 4294967295",
    ),
    ("call b c.Get()", "call b c 0 Get"),
    ("call b a.1.Op_9(a.8)", "call b a 1 Op_9 a 8"),
    ("call b a.8.Op_9(a.1)", "call b a 8 Op_9 a 1"),
    ("call b c.Set(5)", "call b c 0 Set 5"),
    ("call b c.Set(-0)", "call b c 0 Set 0"),
    (
        "call b c.Set(9223372036854775807)",
        "call b c 0 Set 9223372036854775807",
    ),
    (
        "call b c.Set(-9223372036854775808)",
        "call b c 0 Set -9223372036854775808",
    ),
    (
        "call b c.Set(true, false, none)",
        "call b c 0 Set true false <none>",
    ),
    (
        "call b c.Set(\"\", \"a\\\"b\\\\\")",
        "call b c 0 Set \"\" \"a\\\"b\\\\\"",
    ),
    ("call b c.Set([])", "call b c 0 Set { }"),
    (
        "call b c.Set([1, [c, a.2]], c)",
        "call b c 0 Set { 1 { c 0 a 2 } } c 0",
    ),
    (
        "call b c.Set([[[[7]]]])",
        "call b c 0 Set { { { { 7 } } } }",
    ),
    (
        "call b c.Set([[[[c]]]])",
        "call b c 0 Set { { { { c 0 } } } }",
    ),
    ("call true c.Get()", "call true c 0 Get"),
    ("restrict r c 0", "restrict r c 0 0"),
    ("restrict r a.8 65535", "restrict r a 8 65535"),
    ("walk w c \"\"", "walk w c 0 "),
    ("walk w a.1 \"x/y\\\"z\"", "walk w a 1 x/y\"z"),
    ("turn 0", "turn 0"),
    ("turn 1000000", "turn 1000000"),
    ("go 1", "go 1"),
    ("go 0001000000", "go 1000000"),
    ("crash 2", "crash 2 lose"),
    ("crash 2 lose", "crash 2 lose"),
    ("crash 1 keep", "crash 1 keep"),
    ("crash 1 garble 0", "crash 1 garble 0"),
    ("crash 1 garble 255", "crash 1 garble 255"),
    ("restart 1", "restart 1"),
    ("restart 2", "restart 2"),
    ("cut 0 2", "cut 0 2"),
    ("join 2 0", "join 2 0"),
    ("fail 1 1", "fail 1 1"),
    ("fail 2 1000000", "fail 2 1000000"),
    ("stop 1 1 keep", "stop 1 1 keep"),
    ("stop 1 1 garble 255", "stop 1 1 garble 255"),
    ("stop 2 1000000 lose", "stop 2 1000000 lose"),
    ("stop 2 7 garble 9", "stop 2 7 garble 9"),
];

#[test]
fn commands(rt: HostRuntime) {
    for &(line, parts) in COMMANDS {
        let found = fourth(&rt, rt.alloc(), line);
        assert!(rt; found.as_slice() == parts.as_bytes(), "{line}");
    }
}

/// Each of these lines is refused as the fourth.
fn lines_have_causes(rt: &impl Abort, alloc: Global, rows: &[(&str, ScriptCause)]) {
    for &(line, cause) in rows {
        let text = around(rt, alloc, line);
        has_cause(rt, alloc, line, &text, Some((4, cause)));
    }
}

const FORMS: &[(&str, ScriptCause)] = &[
    (" ", NoCommand),
    (" go 1", NoCommand),
    ("frob", NoCommand),
    ("Go 1", NoCommand),
    ("goes 1", NoCommand),
    ("end.", NoCommand),
    ("create", BadForm),
    ("create d", BadForm),
    ("create d 1", BadForm),
    ("create d 1 Cell ", BadForm),
    ("create d  1 Cell", BadForm),
    ("create D 1 Cell", BadForm),
    ("create _d 1 Cell", BadForm),
    ("create d 1 cell", BadForm),
    ("create d x Cell", BadForm),
    ("create d -1 Cell", BadForm),
    ("hold", BadForm),
    ("hold h 1.1", BadForm),
    ("hold h 1.1.1.1", BadForm),
    ("hold h 1. 1.1", BadForm),
    ("call", BadForm),
    ("call b c.Get", BadForm),
    ("call b c.Get(", BadForm),
    ("call b c.Get() ", BadForm),
    ("call b c.get()", BadForm),
    ("call b c Get()", BadForm),
    ("call b c.1.2.Get()", BadForm),
    ("call b c.Set(1,2)", BadForm),
    ("call b c.Set(1, 2, )", BadForm),
    ("call b c.Set(, 1)", BadForm),
    ("call b c.Set(1 )", BadForm),
    ("call b c.Set(+1)", BadForm),
    ("call b c.Set(- 1)", BadForm),
    ("call b c.Set(--1)", BadForm),
    ("call b c.Set(1x)", BadForm),
    ("call b c.Set(Cell)", BadForm),
    ("call b c.Set(\"a)", BadForm),
    ("call b c.Set(\"a\\n\")", BadForm),
    ("call b c.Set(\"a\"b)", BadForm),
    ("call b c.Set([1)", BadForm),
    ("call b c.Set([1,2])", BadForm),
    ("call b c.Set([ ])", BadForm),
    ("call b c.Set([[[[[]]]]])", BadForm),
    ("call b c.Set([[[[[]]]]], 99999999999999999999)", BadForm),
    ("restrict", BadForm),
    ("restrict r c", BadForm),
    ("restrict r c -1", BadForm),
    ("walk", BadForm),
    ("walk w c x", BadForm),
    ("walk w c \"x", BadForm),
    ("walk w c \"x\" ", BadForm),
    ("turn", BadForm),
    ("turn -1", BadForm),
    ("turn 1 ", BadForm),
    ("go", BadForm),
    ("go 1 1", BadForm),
    ("crash", BadForm),
    ("crash 1 Keep", BadForm),
    ("crash 1 garble", BadForm),
    ("crash 1 ", BadForm),
    ("restart", BadForm),
    ("restart 1 keep", BadForm),
    ("cut", BadForm),
    ("cut 1", BadForm),
    ("cut 1 1", BadForm),
    ("cut 1 001", BadForm),
    ("cut 99 099", BadForm),
    ("join", BadForm),
    ("join 2 2", BadForm),
    ("fail", BadForm),
    ("fail 1", BadForm),
    ("fail 1  1", BadForm),
    ("stop", BadForm),
    ("stop 1 1", BadForm),
    ("stop 1 1 garble", BadForm),
    ("end 1", BadForm),
    ("nodes 1", Misplaced),
    ("nodes", Misplaced),
    ("nodes x", Misplaced),
];

const NUMBERS_AND_NAMES: &[(&str, ScriptCause)] = &[
    ("create d 0 Cell", BadNumber),
    ("create d 3 Cell", BadNumber),
    ("create d 99999999999999999999999 Cell", BadNumber),
    ("hold h 0.1.1", BadNumber),
    ("hold h 3.1.1", BadNumber),
    ("hold h 1.0.1", BadNumber),
    ("hold h 1.1.0", BadNumber),
    ("hold h 1.4294967296.1", BadNumber),
    ("hold h 1.1.4294967296", BadNumber),
    ("call b c.0.Get()", BadNumber),
    ("call b c.9.Get()", BadNumber),
    ("call b c.Set(c.0)", BadNumber),
    ("call b c.Set(c.9)", BadNumber),
    ("call b c.Set(9223372036854775808)", BadNumber),
    ("call b c.Set(-9223372036854775809)", BadNumber),
    ("call b c.Set([1, [9223372036854775808]])", BadNumber),
    ("restrict r c 65536", BadNumber),
    ("restrict r c.0 1", BadNumber),
    ("restrict r c.9 1", BadNumber),
    ("walk w c.0 \"x\"", BadNumber),
    ("walk w c.9 \"x\"", BadNumber),
    ("turn 1000001", BadNumber),
    ("go 0", BadNumber),
    ("go 1000001", BadNumber),
    ("crash 0", BadNumber),
    ("crash 3", BadNumber),
    ("crash 1 garble 256", BadNumber),
    ("restart 0", BadNumber),
    ("restart 3", BadNumber),
    ("cut 0 3", BadNumber),
    ("cut 3 0", BadNumber),
    ("cut 98 99", BadNumber),
    ("join 0 3", BadNumber),
    ("join 3 0", BadNumber),
    ("fail 1 0", BadNumber),
    ("fail 1 1000001", BadNumber),
    ("fail 0 1", BadNumber),
    ("fail 3 1", BadNumber),
    ("stop 0 1 keep", BadNumber),
    ("stop 3 1 keep", BadNumber),
    ("stop 1 0 keep", BadNumber),
    ("stop 1 1000001 keep", BadNumber),
    ("stop 1 1 garble 256", BadNumber),
    ("call b x.Get()", UnknownName),
    ("call b b.Get()", UnknownName),
    ("call b c.Set(x)", UnknownName),
    ("call b c.Set([[x.1]])", UnknownName),
    ("call b true.Get()", UnknownName),
    ("call b c.Set(true.1)", UnknownName),
    ("restrict r x 1", UnknownName),
    ("walk w x \"y\"", UnknownName),
    ("create d 1 Mailbox", UnknownType),
    ("create c 1 Mailbox", UnknownType),
    ("create c 1 Cell", DoubledName),
    ("hold a 1.1.1", DoubledName),
    ("call a c.Get()", DoubledName),
    ("restrict c c 1", DoubledName),
    ("walk c c \"x\"", DoubledName),
    // The earlier cause of two.
    ("create d 3 cell", BadForm),
    ("create c 3 Mailbox", BadNumber),
    ("call c x.Set(9223372036854775808)", BadNumber),
    ("call c x.Get(", BadForm),
    ("call c x.Get()", UnknownName),
    ("restrict c x 65536", BadNumber),
    ("restrict c x 1", UnknownName),
    ("walk c x.9 \"y\"", BadNumber),
    ("walk c x \"y\"", UnknownName),
    ("hold c 3.1.1", BadNumber),
    ("cut 3 3", BadForm),
    ("nodes 9", Misplaced),
];

#[test]
fn lines(rt: HostRuntime) {
    lines_have_causes(&rt, rt.alloc(), FORMS);
    lines_have_causes(&rt, rt.alloc(), NUMBERS_AND_NAMES);
}

const SCRIPTS: &[(&str, At)] = &[
    ("", Some((1, NoEnd))),
    ("\n", Some((2, NoEnd))),
    ("frob\n", Some((1, NoCommand))),
    ("# x", Some((2, NoEnd))),
    ("nodes 1", Some((2, NoEnd))),
    ("nodes 1\n", Some((2, NoEnd))),
    ("nodes 1\n\n", Some((3, NoEnd))),
    ("nodes 1\nend", None),
    ("nodes 8\nend\n", None),
    ("\n# x\nnodes 1\n\n#\nend\n\n# y", None),
    ("nodes 0\nend\n", Some((1, BadNumber))),
    ("nodes 9\nend\n", Some((1, BadNumber))),
    ("nodes\nend\n", Some((1, BadForm))),
    ("nodes 1 \nend\n", Some((1, BadForm))),
    ("end\n", Some((1, Misplaced))),
    ("end 1\n", Some((1, Misplaced))),
    ("go 1\nnodes 1\n", Some((1, Misplaced))),
    ("nodes 1\nnodes 1\nend\n", Some((2, Misplaced))),
    ("nodes 1\nend\nend\n", Some((3, AfterEnd))),
    ("nodes 1\nend\nfrob\n", Some((3, AfterEnd))),
    ("nodes 1\nend\nnodes 1\n", Some((3, AfterEnd))),
    ("nodes 1\nend\n \n", Some((3, AfterEnd))),
    ("nodes 1\nend\n\x7f\n", Some((3, BadByte))),
    ("nodes 1\nend\n#\t\n", Some((3, BadByte))),
    ("nodes 1\nend\n#\x1f\n", Some((3, BadByte))),
    ("nodes 1\nend\n# ~\n", None),
    ("\tfrob\n", Some((1, BadByte))),
    ("nodes 1\r\nend\n", Some((1, BadByte))),
    ("nodes 1\ngo 0\nfrob\n", Some((2, BadNumber))),
    ("nodes 1\ncreate c 2 Cell\nend\n", Some((2, BadNumber))),
    (
        "nodes 1\ncreate c 1 Cell\ncreate c 1 Cell\nend\n",
        Some((3, DoubledName)),
    ),
    (
        "nodes 1\ncall a c.Get()\ncreate c 1 Cell\nend\n",
        Some((2, UnknownName)),
    ),
    (
        "nodes 1\nhold h 1.1.1\ncall a h.Get()\ncall b a.1.Get(a)\nend\n",
        None,
    ),
    (
        "nodes 1\nhold h 1.1.1\nrestrict r h 1\nwalk w r \"x\"\ncall b w.2.Get(r)\nend\n",
        None,
    ),
    // A word of values as a name.
    (
        "nodes 1\nhold true 1.1.1\ncall b true.Get(true, true.1)\nend\n",
        None,
    ),
];

const EDENTYPES: &[(&str, At)] = &[
    ("edentype A foo\nendtype\n", Some((1, BadEdentype))),
    (
        "# x\nedentype A\n# x\nendtype\nnodes 1\nend\n",
        Some((3, BadEdentype)),
    ),
    // Bad lines inside, before the text is read and behind the place where it is refused.
    ("\tedentype A\nendtype\n", Some((1, BadByte))),
    ("edentype A\t\nendtype\n", Some((1, BadByte))),
    (
        "edentype A\n\t\nendtype\nnodes 1\nend\n",
        Some((2, BadByte)),
    ),
    (
        "edentype A x\n\t\nendtype\nnodes 1\nend\n",
        Some((1, BadEdentype)),
    ),
    // Behind nodes and behind end.
    ("nodes 1\nedentype A\nendtype\nend\n", Some((2, Misplaced))),
    (
        "nodes 1\nedentype A\n\t\nendtype\nend\n",
        Some((2, Misplaced)),
    ),
    ("nodes 1\nedentype A\t\nendtype\nend\n", Some((2, BadByte))),
    (
        "nodes 1\nend\nedentype Cell\nendtype\n",
        Some((3, AfterEnd)),
    ),
    ("nodes 1\nend\nedentype A\t\nendtype\n", Some((3, BadByte))),
    // A name that is there.
    ("edentype Cell\nendtype\n", Some((1, DoubledName))),
    ("edentype  Cell x\nendtype\n", Some((1, DoubledName))),
    ("edentype\nCell\nendtype\n", Some((2, DoubledName))),
    (
        "edentype A\nendtype\nedentype A\nendtype\n",
        Some((3, DoubledName)),
    ),
    ("edentypeCell\nendtype\n", Some((1, BadEdentype))),
    (
        "nodes 1\nedentype Cell\nendtype\nend\n",
        Some((2, Misplaced)),
    ),
    // A broken rule: a limit past 16, a start value of another kind, a name that is not declared.
    (
        "edentype A\nclass c limit 17\nendtype\n",
        Some((2, BadEdentype)),
    ),
    (
        "edentype A\nclass c limit 1\ndurable n : int =\ntrue\nendtype\n",
        Some((4, BadEdentype)),
    ),
    (
        "edentype A\nendtype\nedentype B\nprocess P\nx := 1\nend\nendtype\n",
        Some((5, BadEdentype)),
    ),
    // Without its end.
    ("edentype A\n", Some((2, NoEnd))),
    ("edentype A\nnodes 1\nend\n", Some((4, NoEnd))),
    ("edentype A\nendtype \n", Some((3, NoEnd))),
    ("edentype A\n\t\n", Some((2, BadByte))),
    ("edentype Cell\nendtypes\nfrob", Some((4, NoEnd))),
    ("nodes 1\nedentype A\nend\n", Some((4, NoEnd))),
    ("nodes 1\nend\nedentype A\n", Some((4, NoEnd))),
    ("nodes 1\nend\nedentype A\n# \x7f\n", Some((4, BadByte))),
    // Lines that end nothing.
    ("endtype\n", Some((1, NoCommand))),
    ("nodes 1\nendtype\n", Some((2, NoCommand))),
];

#[test]
fn scripts(rt: HostRuntime) {
    for rows in &[SCRIPTS, EDENTYPES] {
        for &(text, at) in *rows {
            has_cause(&rt, rt.alloc(), text, text.as_bytes(), at);
        }
    }
}

/// The front of a line or a text, a byte of its middle and how often it stands there, and the back.
type Stretched<'a> = (&'a str, &'a str, usize, &'a str, At);

fn lengths_have_causes(rt: &impl Abort, alloc: Global, around: (&str, &str), rows: &[Stretched]) {
    let (before, behind) = around;
    for &(front, byte, times, back, at) in rows {
        let text = text_of(
            rt,
            alloc,
            &[
                (before, 1),
                (front, 1),
                (byte, times),
                (back, 1),
                (behind, 1),
            ],
        );
        has_cause(rt, alloc, front, &text, at);
    }
}

const LINE_LENGTHS: &[Stretched<'static>] = &[
    ("#", "x", 4095, "", None),
    ("#", "x", 4096, "", Some((4, LongLine))),
    ("#", "x", 4096, "\t", Some((4, BadByte))),
    ("frob", "x", 4093, "", Some((4, LongLine))),
    ("create ", "d", 32, " 1 Cell", None),
    ("create ", "d", 33, " 1 Cell", Some((4, BadForm))),
    ("create d 1 ", "T", 32, "", Some((4, UnknownType))),
    ("create d 1 ", "T", 33, "", Some((4, BadForm))),
    ("call b ", "c", 32, ".Get()", Some((4, UnknownName))),
    ("call b ", "c", 33, ".Get()", Some((4, BadForm))),
    ("call b c.", "G", 32, "()", None),
    ("call b c.", "G", 33, "()", Some((4, BadForm))),
    ("call b c.Set(", "x", 32, ")", Some((4, UnknownName))),
    ("call b c.Set(", "x", 33, ")", Some((4, BadForm))),
    ("call b c.Set(\"", "x", 1024, "\")", None),
    ("call b c.Set(\"", "x", 1025, "\")", Some((4, BadForm))),
    ("call b c.Set(\"\\\\", "x", 1023, "\")", None),
    ("call b c.Set(\"\\\\", "x", 1024, "\")", Some((4, BadForm))),
    ("walk w c \"", "/", 1024, "\"", None),
    ("walk w c \"", "/", 1025, "\"", Some((4, BadForm))),
    ("turn ", "0", 4091, "", None),
    // The items of a list.
    ("call b c.Set([0", ", 0", 255, "])", None),
    ("call b c.Set([0", ", 0", 256, "])", Some((4, BadForm))),
];

const TEXT_LENGTHS: &[Stretched<'static>] = &[
    ("nodes 1\nend\n", "x", 4096, "", Some((3, AfterEnd))),
    ("nodes 1\nend\n", "x", 4097, "", Some((3, LongLine))),
    ("edentype A\n", " ", 4096, "\nendtype\nnodes 1\nend\n", None),
    (
        "edentype A\n",
        " ",
        4097,
        "\nendtype\n",
        Some((2, LongLine)),
    ),
    (
        "edentype A\n",
        "x",
        4096,
        "\nendtype\n",
        Some((2, BadEdentype)),
    ),
    (
        "edentype A\n",
        "x",
        4097,
        "\nendtype\n",
        Some((2, LongLine)),
    ),
    ("edentype A\n", "x", 4096, "", Some((3, NoEnd))),
    ("edentype A\n", "x", 4097, "", Some((2, LongLine))),
    ("edentype ", "A", 32, "\nendtype\nnodes 1\nend\n", None),
    ("edentype ", "A", 33, "\nendtype\n", Some((1, BadEdentype))),
    (
        "nodes 1\nedentype A",
        " ",
        4086,
        "\nendtype\n",
        Some((2, Misplaced)),
    ),
    (
        "nodes 1\nedentype A",
        " ",
        4087,
        "\nendtype\n",
        Some((2, LongLine)),
    ),
];

#[test]
fn lengths(rt: HostRuntime) {
    lengths_have_causes(&rt, rt.alloc(), AROUND, LINE_LENGTHS);
    lengths_have_causes(&rt, rt.alloc(), ("", ""), TEXT_LENGTHS);
}

const GATE: &str =
    "edentype Gate\nclass pass limit 2\nclass one limit 1\nmonitor M\nworking free : bool = false\ncondition c\nend\noperation Pass needs 1 class pass () returns (int)\nvar r : int = 0\nwith M do\nwhile not free do\nwait c\nend\nr := 1\nend\nreturn (r)\nend\noperation Open needs 2 class one () returns ()\nwith M do\nfree := true\nsignal c\nend\nreturn ()\nend\nendtype\n";

const PEER: &str =
    "edentype Peer\nclass all limit 1\noperation Poke needs 1 class all (other : cap, back : cap) returns (int)\nvar s : int = 0\nvar r : int = 0\ninvoke other.Poke(back, other) status s gives (r)\nreturn (s)\nend\nendtype\n";

const MAILBOX: &str =
    "edentype Mailbox\ndurable box : list of text = list(text)\nclass all limit 1\noperation Deliver needs 1 class all (m : text) returns (int)\nvar s : int = 0\nbox := box & [m]\ncheckpoint s\nreturn (s)\nend\noperation Read needs 2 class all () returns (list of text)\nreturn (box)\nend\nendtype\n";

const HALF: &str =
    "edentype Half\nclass all limit 1\noperation Part needs 1 class all (n : int) returns (int)\nreturn (10 / n)\nend\nendtype\n";

#[test]
fn declared_types(rt: HostRuntime) {
    let alloc = rt.alloc();
    for &name in &["Gate", "Peer", "Mailbox", "Half", "A", "Cell"] {
        let text = text_of(
            &rt,
            alloc,
            &[
                (GATE, 1),
                (PEER, 1),
                (MAILBOX, 1),
                (HALF, 1),
                ("edentype A\nendtype\nnodes 1\ncreate e 1 ", 1),
                (name, 1),
                ("\nend\n", 1),
            ],
        );
        has_cause(&rt, alloc, name, &text, None);
    }
    let text = text_of(
        &rt,
        alloc,
        &[(HALF, 1), ("nodes 1\ncreate e 1 Gate\nend\n", 1)],
    );
    has_cause(&rt, alloc, "without Gate", &text, Some((8, UnknownType)));
}

/// A text that says something of so many names.
fn many_names(
    rt: &impl Abort,
    alloc: Global,
    before: &str,
    said: (&str, &str),
    times: u32,
    behind: &str,
) -> Vec<u8> {
    let mut text = Vec::from_slice(alloc, before.as_bytes()).expect(rt, "memory");
    let (front, back) = said;
    for i in 0..times {
        let one = format!(in alloc; "{front}{i:x}{back}").expect(rt, "memory");
        add(rt, one.as_bytes(), &mut text);
    }
    add(rt, behind.as_bytes(), &mut text);
    text
}

/// What stands behind the declarations of 64 types, each of two lines.
const BEHIND_64: &[(&str, At)] = &[
    ("nodes 1\nend\n", None),
    (
        "edentype B\nendtype\nnodes 1\nend\n",
        Some((129, BadEdentype)),
    ),
    (
        "edentype B\nx\nendtype\nnodes 1\nend\n",
        Some((129, BadEdentype)),
    ),
    (
        "edentype A0\nendtype\nnodes 1\nend\n",
        Some((129, DoubledName)),
    ),
    (
        "edentype\nA0\nendtype\nnodes 1\nend\n",
        Some((129, BadEdentype)),
    ),
];

#[test]
fn sixty_four_types(rt: HostRuntime) {
    let said = ("edentype A", "\nendtype\n");
    for &(behind, at) in BEHIND_64 {
        let text = many_names(&rt, rt.alloc(), "", said, 64, behind);
        has_cause(&rt, rt.alloc(), behind, &text, at);
    }
}

#[test]
fn sixty_thousand_names(rt: HostRuntime) {
    let said = ("hold n", " 1.1.1\n");
    let text = many_names(&rt, rt.alloc(), "nodes 1\n", said, 60_000, "end\n");
    assert!(rt; 1_000_000 < text.len() && text.len() <= 1_048_576);
    has_cause(&rt, rt.alloc(), "names", &text, None);
}

const SET_THEN_GET: &str =
    "nodes 1\ncreate c 1 Cell\ncall a c.Set(5)\ngo 100\ncall b c.Get()\ngo 100\nend\n";

#[test]
fn largest_script(rt: HostRuntime) {
    let text = text_of(&rt, rt.alloc(), &[(SET_THEN_GET, 1), ("\n", 1_048_503)]);
    assert_eq!(rt; text.len(), 1_048_576);
    let script = parsed(&rt, rt.alloc(), &text).expect(&rt, "a script");
    assert_eq!(rt; script.commands.commands.len(), 6);
}

/// A value that stands alone, as it is printed, or its cause.
fn read(rt: &impl Abort, alloc: Global, text: &str) -> Result<Vec<u8>, ScriptCause> {
    match read_value(alloc, text.as_bytes()).expect(rt, "memory") {
        Ok(value) => {
            let mut out = Vec::new(alloc);
            add_value(rt, alloc, &value, &mut out);
            Ok(out)
        }
        Err(cause) => Err(cause),
    }
}

/// Whether a value that stands alone is printed so, or has that cause.
fn is_read(rt: &impl Abort, alloc: Global, text: &str, wanted: Result<&str, ScriptCause>) -> bool {
    match (read(rt, alloc, text), wanted) {
        (Ok(found), Ok(printed)) => found.as_slice() == printed.as_bytes(),
        (Err(cause), Err(other)) => cause == other,
        _ => false,
    }
}

/// A value that stands alone, and how it is printed, or its cause.
const VALUES: &[(&str, Result<&str, ScriptCause>)] = &[
    ("5", Ok("5")),
    ("-007", Ok("-7")),
    ("9223372036854775807", Ok("9223372036854775807")),
    ("-9223372036854775808", Ok("-9223372036854775808")),
    ("true", Ok("true")),
    ("none", Ok("<none>")),
    ("\"a\\\\\"", Ok("\"a\\\\\"")),
    ("[]", Ok("[]")),
    ("[1, [false, \"x\"]]", Ok("[1, [false, \"x\"]]")),
    ("[[[[]]]]", Ok("[[[[]]]]")),
    ("", Err(BadForm)),
    (" 5", Err(BadForm)),
    ("5 ", Err(BadForm)),
    ("-", Err(BadForm)),
    ("+1", Err(BadForm)),
    ("1, 2", Err(BadForm)),
    ("[1,2]", Err(BadForm)),
    ("[1, 2", Err(BadForm)),
    ("\"a", Err(BadForm)),
    ("c", Err(BadForm)),
    ("c.1", Err(BadForm)),
    ("true.1", Err(BadForm)),
    ("truex", Err(BadForm)),
    ("[c, 9223372036854775808]", Err(BadForm)),
    ("[9223372036854775808, c]", Err(BadForm)),
    ("[[[[[]]]]]", Err(BadForm)),
    ("\"\t\"", Err(BadForm)),
    ("9223372036854775808", Err(BadNumber)),
    ("[1, -9223372036854775809]", Err(BadNumber)),
];

#[test]
fn values_alone(rt: HostRuntime) {
    for &(text, wanted) in VALUES {
        assert!(rt; is_read(&rt, rt.alloc(), text, wanted), "{text}");
    }
}
