use eden_codec::{Rep, decode_rep};
use eden_value::*;
use std::alloc::Global;
use std::process::Abort;

/// The representation of these bytes.
fn read(rt: &impl Abort, alloc: Global, bytes: &[u8]) -> Box<Rep> {
    let rep = decode_rep(alloc, bytes).ok().expect(rt, "a representation");
    Box::new(alloc, rep).expect(rt, "memory")
}

/// The bytes of a representation of the one value of these bytes.
fn bytes_around(rt: &impl Abort, alloc: Global, spelled: &[u8]) -> Vec<u8> {
    let mut bytes = Vec::from_slice(alloc, b"\x01\x01A\0\x01\x01").expect(rt, "memory");
    bytes.extend_from_slice(spelled).expect(rt, "memory");
    bytes
}

/// The value of these bytes of a representation.
fn value(rt: &impl Abort, alloc: Global, spelled: &[u8]) -> Box<Value> {
    let mut rep = read(rt, alloc, &bytes_around(rt, alloc, spelled));
    let value = rep.values.values.pop().expect(rt, "a value");
    Box::new(alloc, value).expect(rt, "memory")
}

const ONE: &[u8] = b"\x01\0\0\0\0\0\0\0\x01";

const TRUE: &[u8] = b"\x02\x01";

const ABSENT: &[u8] = b"\x04";

const EMPTY: &[u8] = b"\x06\0\0";

/// The list of 1 and 2.
const NUMBERS: &[u8] = b"\x06\0\x02\x01\0\0\0\0\0\0\0\x01\x01\0\0\0\0\0\0\0\x02";

/// The list of 1, the text `a"b` and the absent capability.
const MIXED: &[u8] = b"\x06\0\x03\x01\0\0\0\0\0\0\0\x01\x03\0\x03a\"b\x04";

/// The list of a capability with the right 2, the absent one, and the list of one with the right 1.
const HELD: &[u8] =
    b"\x06\0\x03\x05\x01\0\0\0\x01\0\0\0\x01\0\x02\x04\x06\0\x01\x05\x01\0\0\0\x01\0\0\0\x01\0\x01";

/// How a text begins, a byte that stands behind so many times, and why it is refused.
const TEXTS: &[(&[u8], u8, u32, Option<ValueRefusal>)] = &[
    (b"", 0x20, 1024, None),
    (b"", 0x7E, 1025, Some(ValueRefusal::TooLong)),
    (b"", 0x1F, 1025, Some(ValueRefusal::BadByte)),
    (b"", 0x1F, 1, Some(ValueRefusal::BadByte)),
    (b"a", 0x7F, 1, Some(ValueRefusal::BadByte)),
];

/// Why a text is refused that begins so, with a byte so many times behind it.
fn text_refusal(
    rt: &impl Abort,
    alloc: Global,
    front: &[u8],
    byte: u8,
    count: u32,
) -> Option<ValueRefusal> {
    let mut bytes = Vec::from_slice(alloc, front).expect(rt, "memory");
    for _ in 0..count {
        bytes.push(byte).expect(rt, "memory");
    }
    text_of(alloc, &bytes).err()
}

#[test]
fn texts_have_printable_bytes_and_a_greatest_length(rt: HostRuntime) {
    for (i, &(front, byte, count, want)) in TEXTS.iter().enumerate() {
        assert!(rt;
            text_refusal(&rt, rt.alloc(), front, byte, count) == want,
            "at {i}"
        );
    }
}

/// A list of no items, in so many lists.
fn nested(rt: &impl Abort, alloc: Global, lists: u32) -> Vec<Value> {
    let mut values = Vec::new(alloc);
    for _ in 0..lists {
        let items = listed(values).expect(rt, "memory");
        values = vec![in alloc; Value::List { items }].expect(rt, "memory");
    }
    values
}

/// So many items.
fn flat(rt: &impl Abort, alloc: Global, length: u32) -> Vec<Value> {
    let mut values = Vec::new(alloc);
    for _ in 0..length {
        values.push(Value::Bool { b: true }).expect(rt, "memory");
    }
    values
}

/// Why a list of these values is refused.
fn list_refusal(values: Vec<Value>) -> Option<ValueRefusal> {
    list_of(values).err()
}

#[test]
fn lists_have_a_greatest_length(rt: HostRuntime) {
    for &(length, want) in &[(0, None), (256, None), (257, Some(ValueRefusal::TooLong))] {
        assert!(rt;
            list_refusal(flat(&rt, rt.alloc(), length)) == want,
            "at {length}"
        );
    }
}

#[test]
fn lists_have_a_greatest_depth(rt: HostRuntime) {
    for &(depth, want) in &[(3, None), (4, Some(ValueRefusal::TooDeep))] {
        assert!(rt;
            list_refusal(nested(&rt, rt.alloc(), depth)) == want,
            "at {depth}"
        );
    }
}

/// Whether lists nest at most so deep in the first of these values, if there is one.
fn first_is_shallow(values: &[Value], most: u8) -> bool {
    match values.first() {
        Some(value) => is_shallow(value, most),
        None => true,
    }
}

#[test]
fn lists_nest_so_deep(rt: HostRuntime) {
    for &(depth, most, want) in &[(0, 0, true), (1, 0, false), (1, 1, true), (3, 2, false)] {
        let values = nested(&rt, rt.alloc(), depth);
        assert!(rt; are_shallow(&values, most) == want, "at {depth}");
        assert!(rt; first_is_shallow(&values, most) == want, "at {depth}");
    }
}

/// Whether a value is the one of these bytes.
fn equals(rt: &impl Abort, alloc: Global, found: &Value, spelled: &[u8]) -> bool {
    let wanted = value(rt, alloc, spelled);
    equal(found, &wanted)
}

/// The copy of a value.
fn copied(rt: &impl Abort, alloc: Global, whole: &Value) -> Box<Value> {
    let other = copy(alloc, whole).expect(rt, "memory");
    Box::new(alloc, other).expect(rt, "memory")
}

/// The share of a value.
fn shared(rt: &impl Abort, alloc: Global, whole: &Value) -> Box<Value> {
    let other = share(whole).expect(rt, "memory");
    Box::new(alloc, other).expect(rt, "memory")
}

#[test]
fn a_copy_equals_its_value(rt: HostRuntime) {
    let mixed = value(&rt, rt.alloc(), MIXED);
    let other = copied(&rt, rt.alloc(), &mixed);
    assert!(rt; equal(&mixed, &other));
    assert!(rt; equal(&other, &shared(&rt, rt.alloc(), &mixed)));
    assert!(rt; !equals(&rt, rt.alloc(), &mixed, ONE));
}

/// Bytes of a text, also of one that `text_of` refuses.
const BYTES: &[&[u8]] = &[b"", b"a\"b", &[0, 255]];

/// The bytes of a text, and one more.
fn one_more(rt: &impl Abort, text: Txt) -> Vec<u8> {
    let mut bytes = text.into_bytes().expect(rt, "memory");
    bytes.push(b'x').expect(rt, "memory");
    bytes
}

/// The text of these bytes, shared once. Where one of the two is changed the other stays.
fn is_shared_text(rt: &impl Abort, alloc: Global, bytes: &[u8]) {
    let row = Vec::from_slice(alloc, bytes).expect(rt, "memory");
    let text = texted(row).expect(rt, "memory");
    let other = text.share().expect(rt, "memory");
    assert!(rt; one_more(rt, text).len() == bytes.len() + 1);
    assert!(rt; other.as_slice() == bytes);
    let alone = other.into_bytes().expect(rt, "memory");
    assert!(rt; alone.as_slice() == bytes);
}

#[test]
fn a_shared_text_stays(rt: HostRuntime) {
    for &bytes in BYTES {
        is_shared_text(&rt, rt.alloc(), bytes);
    }
}

/// Values of different kinds.
const COPIED: &[&[u8]] = &[MIXED, TRUE];

/// The values of these bytes.
fn values(rt: &impl Abort, alloc: Global, all: &[&[u8]]) -> Vec<Value> {
    let mut values = Vec::new(alloc);
    for &spelled in all {
        let value = value(rt, alloc, spelled);
        values.push(Box::into_inner(value)).expect(rt, "memory");
    }
    values
}

/// The values of these bytes, copied.
fn copies(rt: &impl Abort, alloc: Global, all: &[&[u8]]) -> Items {
    let values = values(rt, alloc, all);
    copy_items(alloc, &Items { values }).expect(rt, "memory")
}

/// Each of these values is the one of its bytes.
fn each_equals(rt: &impl Abort, alloc: Global, values: &[Value], all: &[&[u8]]) {
    for (found, &spelled) in values.iter().zip(all) {
        assert!(rt; equals(rt, alloc, found, spelled));
    }
}

#[test]
fn copied_items_equal_what_was_copied(rt: HostRuntime) {
    let copied = copies(&rt, rt.alloc(), COPIED);
    assert!(rt; copied.values.len() == COPIED.len());
    each_equals(&rt, rt.alloc(), &copied.values, COPIED);
}

/// The values of lists.
const LISTED: &[&[&[u8]]] = &[&[], COPIED];

/// The values of a list, and one more.
fn grown(rt: &impl Abort, list: Listed) -> Vec<Value> {
    let mut values = list.into_values().expect(rt, "memory");
    values.push(Value::Bool { b: true }).expect(rt, "memory");
    values
}

/// The list of these values, shared once. Where one of the two is changed the other stays.
fn is_shared_list(rt: &impl Abort, alloc: Global, all: &[&[u8]]) {
    let list = listed(values(rt, alloc, all)).expect(rt, "memory");
    let other = list.share().expect(rt, "memory");
    assert!(rt; grown(rt, list).len() == all.len() + 1);
    assert!(rt; other.as_slice().len() == all.len());
    each_equals(rt, alloc, other.as_slice(), all);
    let alone = other.into_values().expect(rt, "memory");
    each_equals(rt, alloc, &alone, all);
}

#[test]
fn a_shared_list_stays(rt: HostRuntime) {
    for &all in LISTED {
        is_shared_list(&rt, rt.alloc(), all);
    }
}

/// Whether the value of these bytes has two capabilities, of these rights.
fn has_rights(rt: &impl Abort, alloc: Global, spelled: &[u8], rights: [u16; 2]) -> bool {
    let held = value(rt, alloc, spelled);
    let found = caps(alloc, &held).expect(rt, "memory");
    let [first, second] = rights;
    found.len() == 2 && found[0].rights.bits == first && found[1].rights.bits == second
}

#[test]
fn present_capabilities_are_listed(rt: HostRuntime) {
    assert!(rt; has_rights(&rt, rt.alloc(), HELD, [2, 1]));
}

/// A value, and whether it is of the kinds of lists of integers, lists of texts, integers and capabilities.
const OF_KINDS: &[(&[u8], [bool; 4])] = &[
    (EMPTY, [true, true, false, false]),
    (NUMBERS, [true, false, false, false]),
    (ABSENT, [false, false, false, true]),
    (MIXED, [false, false, false, false]),
];

/// Whether a value is a list of items of a kind.
fn is_list_of(rt: &impl Abort, alloc: Global, value: &Value, kind: Kind) -> bool {
    let of = Box::new(alloc, kind).expect(rt, "memory");
    has_kind(value, &Kind::List { of })
}

/// Whether the value of these bytes is of the four kinds.
fn kinds_of(rt: &impl Abort, alloc: Global, spelled: &[u8]) -> [bool; 4] {
    let v = value(rt, alloc, spelled);
    [
        is_list_of(rt, alloc, &v, Kind::Int),
        is_list_of(rt, alloc, &v, Kind::Text),
        has_kind(&v, &Kind::Int),
        has_kind(&v, &Kind::Cap),
    ]
}

#[test]
fn values_are_of_their_kind(rt: HostRuntime) {
    for (i, &(spelled, wanted)) in OF_KINDS.iter().enumerate() {
        assert!(rt; kinds_of(&rt, rt.alloc(), spelled) == wanted, "at {i}");
    }
}

const PRINTED: &[(&[u8], &[u8])] = &[
    (MIXED, b"= [1, \"a\\\"b\", <none>]"),
    (b"\x01\x80\0\0\0\0\0\0\0", b"= -9223372036854775808"),
    (b"\x02\0", b"= false"),
    (b"\x03\0\x01\\", b"= \"\\\\\""),
    (b"\x05\x01\0\0\0\x01\0\0\0\x01\0\xa2", b"= <1.1.1:00a2>"),
    (b"\x06\0\x01\x06\0\x01\x06\0\0", b"= [[[]]]"),
];

/// Whether this is there once the value of these bytes is printed behind two bytes.
fn prints(rt: &impl Abort, alloc: Global, spelled: &[u8], want: &[u8]) -> bool {
    let v = value(rt, alloc, spelled);
    let mut out = Vec::from_slice(alloc, b"= ").expect(rt, "memory");
    print(alloc, &v, &mut out).expect(rt, "memory");
    out.as_slice() == want
}

#[test]
fn printed_values(rt: HostRuntime) {
    for (i, &(spelled, want)) in PRINTED.iter().enumerate() {
        assert!(rt; prints(&rt, rt.alloc(), spelled, want), "at {i}");
    }
}

const STATUSES: &[(Status, u8, &str)] = &[
    (Status::Ok, 0, "ok"),
    (Status::NoRight, 1, "no right"),
    (Status::NoOperation, 2, "no operation"),
    (Status::BadArguments, 3, "bad arguments"),
    (Status::Gone, 4, "gone"),
    (Status::Unreachable, 5, "unreachable"),
    (Status::Broken, 6, "broken"),
    (Status::StoreFault, 7, "store fault"),
    (Status::Damaged, 8, "damaged"),
    (Status::Dropped, 9, "dropped"),
    (Status::Busy, 10, "busy"),
    (Status::TooLarge, 11, "too large"),
    (Status::Full, 12, "full"),
    (Status::TooMany, 13, "too many"),
    (Status::SerialsSpent, 14, "serials spent"),
];

#[test]
fn statuses_have_numbers_and_words(rt: HostRuntime) {
    for &(status, number, word) in STATUSES {
        assert!(rt;
            status.number() == number && status.word() == word,
            "{number}"
        );
    }
}
