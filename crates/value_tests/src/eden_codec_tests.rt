use capability::Cap;
use eden_codec::*;
use eden_value::Value;
use std::alloc::Global;
use std::process::Abort;

/// A Cell of version 1 that holds the number 5.
const CELL: [u8; 18] = [1, 4, 67, 101, 108, 108, 0, 1, 1, 1, 0, 0, 0, 0, 0, 0, 0, 5];

/// The representation of these bytes.
fn read(rt: &impl Abort, alloc: Global, bytes: &[u8]) -> Box<Rep> {
    let rep = decode_rep(alloc, bytes).ok().expect(rt, "a representation");
    Box::new(alloc, rep).expect(rt, "memory")
}

/// The first bad place, or None where the bytes are read.
fn bad_place(alloc: Global, bytes: &[u8]) -> Option<u32> {
    match decode_rep(alloc, bytes).err() {
        Some(DecodeRefusal::NotRep { place }) => Some(place),
        _ => None,
    }
}

/// Whether what is read of these bytes has the same bytes.
fn is_written_again(rt: &impl Abort, alloc: Global, bytes: &[u8]) -> bool {
    let rep = read(rt, alloc, bytes);
    let body = encode_rep(alloc, &rep).ok().expect(rt, "bytes");
    body.as_slice() == bytes
}

/// Adds a text of one letter, so many times, to the bytes of a representation.
fn add_text(rt: &impl Abort, bytes: &mut Vec<u8>, letter: u8, length: u16) {
    bytes.push(3).expect(rt, "memory");
    bytes
        .extend_from_slice(&length.to_be_bytes())
        .expect(rt, "memory");
    for _ in 0..length {
        bytes.push(letter).expect(rt, "memory");
    }
}

/// A type of version 1 that holds a list of so many texts of 1,024 bytes, and one of `last` bytes.
fn texts(rt: &impl Abort, alloc: Global, name: &[u8], count: u8, last: u16) -> Vec<u8> {
    let mut bytes = Vec::from_slice(alloc, &[1, (name.len() % 256) as u8]).expect(rt, "memory");
    bytes.extend_from_slice(name).expect(rt, "memory");
    bytes.extend_from_slice(&[0, 1, 1, 6]).expect(rt, "memory");
    bytes
        .extend_from_slice(&(u16::from(count) + 1).to_be_bytes())
        .expect(rt, "memory");
    for _ in 0..count {
        add_text(rt, &mut bytes, b'x', 1024);
    }
    add_text(rt, &mut bytes, b'y', last);
    bytes
}

/// Whether these bytes are read as those of `CELL` have to be.
fn is_read_as_cell(rt: &impl Abort, alloc: Global, bytes: &[u8]) -> bool {
    let rep = read(rt, alloc, bytes);
    let is_number = matches!(rep.values.values.as_slice(), [Value::Int { n: 5 }]);
    is_number && rep.version == 1 && rep.type_name.bytes.as_slice() == b"Cell".as_slice()
}

#[test]
fn a_cell_is_read_and_written(rt: HostRuntime) {
    assert!(rt; is_read_as_cell(&rt, rt.alloc(), &CELL));
}

/// The first bad place of a Cell with another byte.
fn bad_place_with(alloc: Global, place: usize, byte: u8) -> Option<u32> {
    let mut bytes = CELL;
    if place < bytes.len() {
        bytes[place] = byte;
    }
    bad_place(alloc, &bytes)
}

/// A place, another byte there, and the first bad place.
const CHANGED: &[(usize, u8, u32)] = &[
    (0, 2, 0),
    (1, 0, 1),
    (1, 33, 1),
    (1, 3, 17),
    (2, b'c', 2),
    (3, b'-', 3),
    (7, 0, 7),
    (8, 0, 9),
    (8, 65, 8),
    (9, 0, 9),
    (9, 2, 11),
    (9, 7, 9),
];

#[test]
fn a_prefix_ends_at_its_bad_place(rt: HostRuntime) {
    for place in 0..CELL.len() {
        assert!(rt;
            bad_place(rt.alloc(), &CELL[..place]) == Some(place as u32),
            "at {place}"
        );
    }
}

/// With 255 in its place a byte of the version or of the number spells another representation.
#[test]
fn a_byte_of_255_is_found_unless_it_spells_another(rt: HostRuntime) {
    for place in 0..CELL.len() {
        let spells = place == 6 || place == 7 || place > 9;
        let want = if spells { None } else { Some(place as u32) };
        assert!(rt;
            bad_place_with(rt.alloc(), place, 255) == want,
            "at {place}"
        );
    }
}

#[test]
fn a_changed_byte_is_found_at_its_place(rt: HostRuntime) {
    for &(place, byte, want) in CHANGED {
        assert!(rt;
            bad_place_with(rt.alloc(), place, byte) == Some(want),
            "at {place}"
        );
    }
}

const SPELLED: &[&[u8]] = &[
    &CELL,
    &[1, 1, 65, 0, 1, 2, 2, 1, 3, 0, 2, 97, 126],
    &[1, 1, 65, 0, 1, 2, 4, 5, 8, 0, 0, 0, 1, 0, 0, 1, 0, 0, 162],
    &[1, 1, 65, 0, 1, 1, 6, 0, 2, 2, 0, 6, 0, 0],
    &[1, 1, 65, 0, 1, 1, 6, 0, 1, 6, 0, 1, 6, 0, 1, 6, 0, 0],
    &[1, 3, 65, 95, 57, 255, 255, 0],
];

const REFUSED: &[(&[u8], u32)] = &[
    (
        &[
            1, 4, 67, 101, 108, 108, 0, 1, 1, 1, 0, 0, 0, 0, 0, 0, 0, 5, 0,
        ],
        18,
    ),
    (&[1, 1, 65, 0, 1, 1, 2, 2], 7),
    (&[1, 1, 65, 0, 1, 1, 3, 0, 1, 31], 9),
    (&[1, 1, 65, 0, 1, 1, 3, 4, 1], 8),
    (&[1, 1, 65, 0, 1, 1, 5, 9], 7),
    (&[1, 1, 65, 0, 1, 1, 5, 1, 0, 0, 0, 0], 11),
    (&[1, 1, 65, 0, 1, 1, 6, 1, 1], 8),
    (
        &[
            1, 1, 65, 0, 1, 1, 6, 0, 1, 6, 0, 1, 6, 0, 1, 6, 0, 1, 6, 0, 0,
        ],
        18,
    ),
];

#[test]
fn values_have_their_spellings(rt: HostRuntime) {
    for &bytes in SPELLED {
        assert!(rt; is_written_again(&rt, rt.alloc(), bytes));
    }
}

#[test]
fn bytes_that_spell_no_values_are_refused(rt: HostRuntime) {
    for (i, &(bytes, want)) in REFUSED.iter().enumerate() {
        assert!(rt; bad_place(rt.alloc(), bytes) == Some(want), "at {i}");
    }
}

/// A representation of one capability.
const HELD: &[u8] = &[1, 1, 65, 0, 1, 1, 5, 8, 0, 0, 0, 2, 0, 0, 1, 0, 0, 2];

/// The capability that is first in a representation.
fn first_cap(rt: &impl Abort, alloc: Global, bytes: &[u8]) -> Cap {
    let rep = read(rt, alloc, bytes);
    match rep.values.values.first() {
        Some(Value::Cap { cap }) => cap.expect(rt, "a capability that is not absent"),
        _ => panic!(rt; "no capability"),
    }
}

#[test]
fn rights_are_kept(rt: HostRuntime) {
    let cap = first_cap(&rt, rt.alloc(), HELD);
    assert!(rt; (cap.rights.bits, cap.uid.epoch, cap.uid.serial) == (2, 2, 256));
}

/// A name, how many texts of 1,024 bytes and how long a last one stand in its list, and how many bytes it all has.
const LONG: &[(&[u8], u8, u16, usize)] = &[
    (b"Blob", 63, 821, 65_537),
    (b"Hoard", 255, 243, 262_144),
];

/// Whether a type with so many texts has so many bytes, and is read.
fn has_length(
    rt: &impl Abort,
    alloc: Global,
    name: &[u8],
    count: u8,
    last: u16,
    length: usize,
) -> bool {
    let bytes = texts(rt, alloc, name, count, last);
    bytes.len() == length && is_written_again(rt, alloc, &bytes)
}

#[test]
fn long_representations(rt: HostRuntime) {
    for &(name, count, last, length) in LONG {
        assert!(rt;
            has_length(&rt, rt.alloc(), name, count, last, length),
            "{length}"
        );
    }
}

#[test]
fn a_representation_past_the_limit(rt: HostRuntime) {
    let past = texts(&rt, rt.alloc(), b"Hoard", 255, 244);
    assert!(rt;
        matches!(
            decode_rep(rt.alloc(), &past).err(),
            Some(DecodeRefusal::TooLarge)
        )
    );
}

/// How many bytes the values of a representation take.
fn size_of(rt: &impl Abort, alloc: Global, bytes: &[u8]) -> u64 {
    let rep = read(rt, alloc, bytes);
    values_size(&rep.values)
}

#[test]
fn sizes_of_values(rt: HostRuntime) {
    // the number 1, a text of 10 bytes, and the list of the absent capability and of true
    let bytes: &[u8] =
        b"\x01\x01A\0\x01\x03\x01\0\0\0\0\0\0\0\x01\x03\0\x0axxxxxxxxxx\x06\0\x02\x04\x02\x01";
    assert!(rt; size_of(&rt, rt.alloc(), bytes) == 28);
}
