use crate::texts::{built, once};
use epl_syntax::*;
use std::alloc::Global;
use std::process::Abort;

/// The tokens of a text that is not too long for a test.
fn read(alloc: Global, text: &[u8]) -> Result<Vec<Token>, ParseRefusal> {
    if text.len() > 10_000 {
        return Err(ParseRefusal::OutOfMemory);
    }
    tokens(alloc, text)
}

/// The tokens of a text that has nothing else.
fn tokens_of(rt: &impl Abort, alloc: Global, text: &[u8]) -> Vec<Token> {
    read(alloc, text).expect(rt, "tokens")
}

/// What tokens have to be, and where each begins and ends.
type Spans = &'static [(TokenKind, u32, u32)];

const SPANS: &[(&[u8], Spans)] = &[
    (b"", &[]),
    (b" \n ", &[]),
    (
        b"a := 1",
        &[
            (TokenKind::Lower, 0, 1),
            (TokenKind::Mark { mark: Mark::Assign }, 2, 4),
            (TokenKind::Int { n: 1 }, 5, 6),
        ],
    ),
    // a token takes as many bytes as it can
    (
        b"ends end A_1<>\"\\\"\"007x",
        &[
            (TokenKind::Lower, 0, 4),
            (TokenKind::Word { word: Word::End }, 5, 8),
            (TokenKind::Upper, 9, 12),
            (
                TokenKind::Mark {
                    mark: Mark::Different,
                },
                12,
                14,
            ),
            (TokenKind::Text, 14, 18),
            (TokenKind::Int { n: 7 }, 18, 21),
            (TokenKind::Lower, 21, 22),
        ],
    ),
];

fn are_spans(found: &[Token], wanted: Spans) -> bool {
    for i in 0..wanted.len() {
        let (kind, start, end) = wanted[i];
        if found.get(i) != Some(&Token { kind, start, end }) {
            return false;
        }
    }
    found.len() == wanted.len()
}

#[test]
fn tokens_have_their_spans(rt: HostRuntime) {
    for (i, &(text, wanted)) in SPANS.iter().enumerate() {
        let found = tokens_of(&rt, rt.alloc(), text);
        assert!(rt; are_spans(&found, wanted), "at {i}");
    }
}

const WORDS: &[u8] =
    b"edentype endtype version class limit monitor condition operation needs returns process durable working var upgrade from end int bool text cap list of true false none if then else while do with wait signal yield deactivate checkpoint destroy create invoke self status gives return or and not mod size str put cut part restrict";

#[test]
fn every_word_is_a_word(rt: HostRuntime) {
    let found = tokens_of(&rt, rt.alloc(), WORDS);
    assert!(rt; found.len() == 54);
    for token in &found {
        assert!(rt; matches!(token.kind, TokenKind::Word { .. }));
    }
}

/// A text, and the place where no token begins.
const ENDS: &[(&[u8], Option<u32>)] = &[
    (b"a ~", Some(2)),
    (b"a\tb", Some(1)),
    (b"_a", Some(0)),
    (b"9223372036854775808", Some(0)),
    (b"a abcdefghijklmnopqrstuvwxyz0123456", Some(2)),
    (b"1 \"open", Some(2)),
    (b"\"\\n\"", Some(0)),
    (b"\"\n\"", Some(0)),
    (b"a := 1;", Some(6)),
    (b"9223372036854775807", None),
    (b"abcdefghijklmnopqrstuvwxyz012345", None),
    (b"( ) [ ] : := . , + - & * / = <> < <= > >=", None),
];

/// Why a text is refused.
fn refusal(alloc: Global, text: &[u8]) -> Option<ParseRefusal> {
    read(alloc, text).err()
}

/// Why a text of so many backslashes between its quotes is refused.
fn refusal_with(rt: &impl Abort, alloc: Global, backslashes: u32) -> Option<ParseRefusal> {
    let quote = once(b"\"");
    let text = built(rt, alloc, &[quote, (b"", b"\\", 0, backslashes), quote]);
    refusal(alloc, &text)
}

/// Whether a text is refused at this place, or where there is no place, read.
fn is_refused_at(alloc: Global, text: &[u8], end: Option<u32>) -> bool {
    let found = refusal(alloc, text);
    match end {
        Some(place) => found == Some(ParseRefusal::BadToken { place }),
        None => found.is_none(),
    }
}

#[test]
fn a_text_is_refused_where_no_token_begins(rt: HostRuntime) {
    for (i, &(text, end)) in ENDS.iter().enumerate() {
        assert!(rt; is_refused_at(rt.alloc(), text, end), "at {i}");
    }
    // A text stands for at most 1,024 bytes. Each two backslashes stand for one.
    assert!(rt; refusal_with(&rt, rt.alloc(), 2048).is_none());
    assert!(rt; refusal_with(&rt, rt.alloc(), 2050).is_some());
}
