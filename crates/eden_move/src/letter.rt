//! What nodes send each other about Ejects.
use capability::Uid;
use eden_value::Value;

/// What one node sends to another about an Eject.
#[derive(Drop)]
pub enum Letter {
    /// Take it, in this generation and with this value.
    Take {
        uid: Uid,
        to: u8,
        generation: u32,
        value: Value,
    },
    /// It is known that it was taken in this generation.
    Known {
        uid: Uid,
        to: u8,
        generation: u32,
    },
}

/// What a letter led to.
#[derive(Drop)]
pub struct Took {
    /// The Eject is now here.
    pub here: bool,
    /// It is now gone.
    pub closed: bool,
    /// What is answered.
    pub reply: Option<Letter>,
}
