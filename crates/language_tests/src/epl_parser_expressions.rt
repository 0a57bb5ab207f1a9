//! Tables of expressions: which tree each has, and where reading stops.
use crate::texts::{append, built, once, parsed, type_of};
use epl_syntax::{Builtin, Const, Expr, Operator, ParseRefusal, Prefix, Program, Stmt, tokens};
use std::alloc::Global;
use std::process::Abort;

/// What stands before an expression in the type that assigns it.
const FRONT: &[u8] =
    b"edentype T class all limit 1 operation O needs 1 class all () returns () a := ";
/// What stands behind it.
const BACK: &[u8] = b" return () end endtype";

/// The type with one operation, which assigns the text's expression.
fn assigning(rt: &impl Abort, alloc: Global, text: &[u8]) -> Vec<u8> {
    built(rt, alloc, &[once(FRONT), once(text), once(BACK)])
}

fn operator_name(operator: Operator) -> &'static [u8] {
    match operator {
        Operator::Or => b"or",
        Operator::And => b"and",
        Operator::Equal => b"=",
        Operator::Different => b"<>",
        Operator::Less => b"<",
        Operator::LessEqual => b"<=",
        Operator::Greater => b">",
        Operator::GreaterEqual => b">=",
        Operator::Add => b"+",
        Operator::Subtract => b"-",
        Operator::Join => b"&",
        Operator::Multiply => b"*",
        Operator::Divide => b"/",
        Operator::Modulo => b"mod",
    }
}

fn prefix_name(prefix: Prefix) -> &'static [u8] {
    match prefix {
        Prefix::Not => b"not",
        Prefix::Negate => b"neg",
    }
}

fn builtin_name(builtin: Builtin) -> &'static [u8] {
    match builtin {
        Builtin::Size => b"size",
        Builtin::Str => b"str",
        Builtin::Put => b"put",
        Builtin::Cut => b"cut",
        Builtin::Part => b"part",
        Builtin::Restrict => b"restrict",
    }
}

fn add_number(rt: &impl Abort, alloc: Global, n: i64, out: &mut Vec<u8>) {
    let digits = n.to_string(alloc).expect(rt, "memory");
    append(rt, out, digits.as_bytes());
}

fn add_quoted(rt: &impl Abort, text: &[u8], out: &mut Vec<u8>) {
    append(rt, out, b"'");
    append(rt, out, text);
    append(rt, out, b"'");
}

/// The word for a constant that is neither a number nor a text.
fn constant_name(value: &Const) -> &'static [u8] {
    match value {
        Const::Bool { b: true } => b"true",
        Const::Bool { b: false } => b"false",
        Const::Absent => b"none",
        _ => b"empty",
    }
}

fn add_const(rt: &impl Abort, alloc: Global, value: &Const, out: &mut Vec<u8>) {
    match value {
        Const::Int { n } => add_number(rt, alloc, *n, out),
        Const::Text { text } => add_quoted(rt, &text.bytes, out),
        _ => append(rt, out, constant_name(value)),
    }
}

/// What begins a part: its parenthesis, its name and a blank.
fn begin(rt: &impl Abort, name: &[u8], out: &mut Vec<u8>) {
    append(rt, out, b"(");
    append(rt, out, name);
    next(rt, out);
}

/// The blank before the next item of a part.
fn next(rt: &impl Abort, out: &mut Vec<u8>) {
    append(rt, out, b" ");
}

/// What ends a part.
fn end(rt: &impl Abort, out: &mut Vec<u8>) {
    append(rt, out, b")");
}

#[cycle(shown)]
fn add_expr(rt: &impl Abort, alloc: Global, expr: &Expr, out: &mut Vec<u8>) {
    match expr {
        Expr::Const { value, .. } => add_const(rt, alloc, value, out),
        Expr::Name { name } => append(rt, out, &name.text.bytes),
        Expr::Me { .. } => append(rt, out, b"self"),
        Expr::Unary { prefix, of, .. } => {
            begin(rt, prefix_name(*prefix), out);
            add_expr(rt, alloc, of, out);
            end(rt, out);
        }
        Expr::Binary {
            operator,
            left,
            right,
            ..
        } => {
            begin(rt, operator_name(*operator), out);
            add_expr(rt, alloc, left, out);
            next(rt, out);
            add_expr(rt, alloc, right, out);
            end(rt, out);
        }
        Expr::Index { of, at, .. } => {
            begin(rt, b"at", out);
            add_expr(rt, alloc, of, out);
            next(rt, out);
            add_expr(rt, alloc, at, out);
            end(rt, out);
        }
        Expr::ListOf { items, .. } => add_row(rt, alloc, b"list", items, out),
        Expr::Apply { builtin, args, .. } => add_row(rt, alloc, builtin_name(*builtin), args, out),
    }
}

#[cycle(shown)]
fn add_row(rt: &impl Abort, alloc: Global, head: &[u8], items: &[Expr], out: &mut Vec<u8>) {
    append(rt, out, b"(");
    append(rt, out, head);
    for item in items {
        next(rt, out);
        add_expr(rt, alloc, item, out);
    }
    end(rt, out);
}

/// What the first statement of the first operation assigns.
fn assigned(program: &Program) -> Option<&Expr> {
    match program.operations.first()?.body.first()? {
        Stmt::Assign { value, .. } => Some(value),
        _ => None,
    }
}

/// The text's expression in prefix form.
fn shown(rt: &impl Abort, alloc: Global, text: &[u8]) -> Vec<u8> {
    let program = type_of(rt, alloc, &assigning(rt, alloc, text));
    let value = assigned(&program).expect(rt, "an assignment");
    let mut out = Vec::new(alloc);
    add_expr(rt, alloc, value, &mut out);
    out
}

/// Whether the text's expression has this prefix form.
fn is_shown_as(rt: &impl Abort, alloc: Global, text: &[u8], wanted: &[u8]) -> bool {
    shown(rt, alloc, text).as_slice() == wanted
}

/// An expression, and its prefix form.
const SHOWN: &[(&[u8], &[u8])] = &[
    (b"1 + 2 * 3", b"(+ 1 (* 2 3))"),
    (b"1 * 2 + 3", b"(+ (* 1 2) 3)"),
    (b"1 - 2 - 3", b"(- (- 1 2) 3)"),
    (b"8 / 4 / 2", b"(/ (/ 8 4) 2)"),
    (b"10 / n mod 2 * 3", b"(* (mod (/ 10 n) 2) 3)"),
    (b"a & b + c", b"(+ (& a b) c)"),
    (b"a or b and c", b"(or a (and b c))"),
    (b"a and b or c", b"(or (and a b) c)"),
    (b"a or b or c", b"(or (or a b) c)"),
    (b"not a = b", b"(not (= a b))"),
    (b"not a and b", b"(and (not a) b)"),
    (b"not not a", b"(not (not a))"),
    (b"a < b + 1", b"(< a (+ b 1))"),
    (b"a <> b", b"(<> a b)"),
    (b"a <= b and b >= c", b"(and (<= a b) (>= b c))"),
    (b"- a [ 1 ]", b"(neg (at a 1))"),
    (b"- a * b", b"(* (neg a) b)"),
    (b"- - 1", b"(neg (neg 1))"),
    (b"a - - 1", b"(- a (neg 1))"),
    (b"a[1][2]", b"(at (at a 1) 2)"),
    (b"(1 + 2) * 3", b"(* (+ 1 2) 3)"),
    (b"((self))", b"self"),
    (b"[1, 2 + 3][0]", b"(at (list 1 (+ 2 3)) 0)"),
    (b"list(list of int) & [none]", b"(& empty (list none))"),
    (b"size(box) = 0 or true", b"(or (= (size box) 0) true)"),
    (b"put(l, i + 1, [false])", b"(put l (+ i 1) (list false))"),
    (
        b"part(t, 0, size(t)) & str(9223372036854775807)",
        b"(& (part t 0 (size t)) (str 9223372036854775807))",
    ),
    (b"restrict(self, 7)", b"(restrict self 7)"),
    (b"\"a\\\"b\\\\\" & cut(l, 0)", b"(& 'a\"b\\' (cut l 0))"),
];

#[test]
fn operators_bind_as_the_grammar_says(rt: HostRuntime) {
    for (i, &(text, wanted)) in SHOWN.iter().enumerate() {
        assert!(rt; is_shown_as(&rt, rt.alloc(), text, wanted), "at {i}");
    }
}

/// How many tokens the text has from this place of the type on.
fn left_at(rt: &impl Abort, alloc: Global, text: &[u8], place: u32) -> u32 {
    let at = (place as usize)
        .checked_sub(FRONT.len())
        .expect(rt, "a place behind the front");
    let rest = text.get(at..).unwrap_or(b"");
    assert!(rt; rest.len() <= 1000);
    let left = tokens(alloc, rest).expect(rt, "tokens");
    u32::try_from(left.len()).expect(rt, "not so many tokens")
}

/// Why a type that assigns a text is refused, with the number of the text's tokens that are left in
/// place of the place.
fn refusal(rt: &impl Abort, alloc: Global, text: &[u8]) -> Option<ParseRefusal> {
    let whole = assigning(rt, alloc, text);
    match parsed(alloc, &whole).err() {
        Some(ParseRefusal::BadToken { place }) => Some(ParseRefusal::BadToken {
            place: left_at(rt, alloc, text, place),
        }),
        Some(ParseRefusal::TooDeep { place }) => Some(ParseRefusal::TooDeep {
            place: left_at(rt, alloc, text, place),
        }),
        other => other,
    }
}

/// A text, and how many of its tokens are left where the type cannot go on.
const BAD: &[(&[u8], u32)] = &[
    (b"a > b = c", 2),
    (b"1 2", 1),
    (b"a := 1", 2),
    (b"a )", 1),
    (b"a or not b then", 1),
    (b"", 0),
    (b"1 +", 0),
    (b"1 + then", 1),
    (b"a = not b", 2),
    (b"(a then", 1),
    (b"[]", 1),
    (b"size()", 1),
    (b"size a", 1),
    (b"list(a)", 2),
    (b"a[1,2]", 3),
    (b"Upper", 1),
];

/// Whether a type that assigns a text is refused where so many of its tokens are left.
fn is_refused_at(rt: &impl Abort, alloc: Global, text: &[u8], place: u32) -> bool {
    refusal(rt, alloc, text) == Some(ParseRefusal::BadToken { place })
}

#[test]
fn reading_stops_where_an_expression_does(rt: HostRuntime) {
    assert!(rt; refusal(&rt, rt.alloc(), b"a > b").is_none());
    for (i, &(text, place)) in BAD.iter().enumerate() {
        assert!(rt; is_refused_at(&rt, rt.alloc(), text, place), "at {i}");
    }
}

/// What stands once, then a front, then once a middle, and a back as often as the front; the greatest
/// count of them that fits, and how many tokens are left at the first one that is too deep.
type Deep = ([&'static [u8]; 4], u32, u32);

const DEEP: &[Deep] = &[
    ([b"", b"(", b"a", b")"], 31, 33),
    ([b"", b"[", b"a", b"]"], 31, 33),
    ([b"", b"- ", b"a", b""], 31, 2),
    ([b"", b"not ", b"a", b""], 31, 2),
    ([b"", b"", b"a", b" + a"], 31, 2),
    ([b"", b"", b"a", b" or a"], 31, 2),
    ([b"", b"", b"a", b"[0]"], 30, 2),
    ([b"", b"size(", b"a", b")"], 31, 33),
    ([b"list(", b"list of ", b"int)", b""], 31, 2),
];

/// Why a text is refused with so many fronts and backs.
fn refusal_with(
    rt: &impl Abort,
    alloc: Global,
    [head, front, middle, back]: [&[u8]; 4],
    count: u32,
) -> Option<ParseRefusal> {
    let parts = [
        once(head),
        (b"", front, 0, count),
        once(middle),
        (b"", back, 0, count),
    ];
    refusal(rt, alloc, &built(rt, alloc, &parts))
}

/// Whether so many fit, and with one more a token is too deep at this place.
fn is_deepest(rt: &impl Abort, alloc: Global, &(texts, most, place): &Deep) -> bool {
    let past = most.saturating_add(1);
    refusal_with(rt, alloc, texts, most).is_none()
        && refusal_with(rt, alloc, texts, past) == Some(ParseRefusal::TooDeep { place })
}

#[test]
fn no_token_is_deeper_than_32(rt: HostRuntime) {
    for (i, row) in DEEP.iter().enumerate() {
        assert!(rt; is_deepest(&rt, rt.alloc(), row), "at {i}");
    }
}
