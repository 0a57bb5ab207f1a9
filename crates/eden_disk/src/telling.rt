//! What a disk in memory tells. It stands in proofs alone, and takes no memory.
ghost use Rattle.std.specs.Prelude.{◌≡◌};
ghost use base.Fml.{ftrue};
ghost use Rattle.eden_disk.specs.Told.{Told};

use crate::disk::ImageMode;
use std::marker::Model;

/// The image that a disk began with, and what has changed it since.
#[derive(Drop)]
pub struct Telling {
    pub ghost told: { Told },
}

impl Model for Telling {
    ghost also_owns = { λ _. ftrue };
}

/// What is told next: the image of a disk that begins, or that it is blank, or a change of its contents with the clock
/// after it.
#[derive(Clone, Copy, Drop)]
pub enum Change<'a> {
    Begun {
        image: &'a [u8],
    },
    Blank {
        size: u32,
    },
    Written {
        clock: u64,
        at: u32,
        bytes: &'a [u8],
    },
    Synced {
        clock: u64,
    },
    Cut {
        clock: u64,
        mode: ImageMode,
    },
}

impl Telling {
    ghost use Rattle.eden_disk.specs.Telling.{nothing_told, told_with};

    pub fn new() -> Telling
        ensures { result.told ≡ nothing_told }
    {
        Telling {}
    }

    /// What is told with one more change.
    pub fn then(&self, _change: &Change<'_>) -> Telling
        ensures { result.told ≡ told_with _change.now self.now.told }
    {
        Telling {}
    }
}
