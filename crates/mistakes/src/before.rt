//! What the lines before a bad line of a command leave: the number of nodes, and the names.

use crate::cut::{begins_edentype, ends_edentype, first_line};

/// What stands behind the line of `nodes`, with the number of nodes.
#[derive(Clone, Copy)]
pub struct Before<'a> {
    pub nodes: u64,
    pub commands: &'a [u8],
}

/// The number that digits stand for, or the greatest number where it is greater.
pub fn value_of(digits: &[u8]) -> u64 {
    let mut value: u64 = 0;
    for d in digits {
        value = value
            .saturating_mul(10)
            .saturating_add(u64::from(d.saturating_sub(b'0')));
    }
    value
}

/// The line of `nodes`, if there is one, and the lines behind it.
pub fn behind_nodes(bytes: &[u8]) -> Option<Before<'_>> {
    let mut rest = bytes;
    let mut inside = false;
    while !rest.is_empty() {
        let (line, behind) = first_line(rest);
        if inside {
            inside = !ends_edentype(line);
        } else if begins_edentype(line) {
            inside = true;
        } else if line.starts_with(b"nodes ") {
            return Some(Before {
                nodes: value_of(&line[6.min(line.len())..]),
                commands: behind,
            });
        }
        rest = behind;
    }
    None
}

/// What stands behind the word of a command that introduces a name.
fn introduced(line: &[u8]) -> Option<&[u8]> {
    let words: [&[u8]; 5] = [b"create ", b"hold ", b"call ", b"restrict ", b"walk "];
    for word in words {
        if line.starts_with(word) {
            return Some(&line[word.len().min(line.len())..]);
        }
    }
    None
}

/// Whether a name stands in front, with a blank behind it.
fn has_name(bytes: &[u8], name: &[u8]) -> bool {
    bytes.starts_with(name)
        && match bytes.get(name.len()) {
            Some(b) => *b == b' ',
            None => false,
        }
}

/// Whether a line introduces a name, of those before the line with which so many bytes begin.
pub fn introduces(commands: &[u8], left: usize, name: &[u8]) -> bool {
    let mut rest = commands;
    while rest.len() > left {
        let (line, behind) = first_line(rest);
        if let Some(found) = introduced(line) {
            if has_name(found, name) {
                return true;
            }
        }
        rest = behind;
    }
    false
}
