//! The first byte of a value, which says what it is.

pub const INT: u8 = 1;

pub const BOOL: u8 = 2;

pub const TEXT: u8 = 3;

pub const ABSENT_CAP: u8 = 4;

pub const CAP: u8 = 5;

pub const LIST: u8 = 6;
