//! Reading a source to its end, and writing all of some bytes.
ghost use Rattle.std.specs.Prelude.{◌≡◌, ◌≤◌, ℕ, true, OnOk, OnErr, IsErrOf};
ghost use Rattle.std.specs.Io.KnownBytes.{Appends, IsAtEnd};
ghost use Rattle.eden_io.specs.Causes.{Rose, HasCause};
ghost use Rattle.eden_io.specs.Taken.{Takes, AppendsPart};

use crate::{Failed, Sink, Source};
use std::alloc::{AllocError, Global};
use thiserror::Error;

// How many bytes one read asks for.
const CHUNK: usize = 4096;

/// Why a source was not read to its end.
#[derive(Clone, Copy, Debug, PartialEq, Eq, Error)]
pub enum ReadRefusal {
    /// A read failed.
    #[error("a read failed")]
    Failed,
    /// More bytes than the limit were taken.
    #[error("there are more bytes than are taken")]
    TooLong,
    #[error("there is no memory for the bytes")]
    OutOfMemory,
}

impl From<AllocError> for ReadRefusal {
    ghost use Rattle.eden_io.specs.declared.whole.ReadRefusal.TheVariants.{OutOfMemory};

    ghost from_gives = { λ _ e. e ≡ OutOfMemory };

    fn from(_: AllocError) -> Self {
        ReadRefusal::OutOfMemory
    }
}

impl From<Failed> for ReadRefusal {
    ghost use Rattle.eden_io.specs.declared.whole.ReadRefusal.TheVariants.{Failed};

    ghost from_gives = { λ _ e. e ≡ Failed };

    fn from(_: Failed) -> Self {
        ReadRefusal::Failed
    }
}

/// Reads a source to its end, and answers all of its bytes, of which there are at most `limit`.
///
/// Where it is refused, some bytes may have been taken.
pub fn read_all<S: Source>(
    alloc: Global,
    source: &mut S,
    limit: u32,
) -> Result<Vec<u8>, ReadRefusal>
    ensures taken { Takes (S.left source.old) (S.left source.new) limit result }
    ensures end { OnOk result (S.ended source.new ≡ true) }
    ensures all { OnOk result (IsAtEnd (S.left source.new)) }
    ensures later { S.faults source.old ≤ S.faults source.new }
    ensures failed { IsErrOf result ReadRefusal.Failed → Rose (S.faults source.old) (S.faults source.new) }
{
    let mut bytes = Vec::new(alloc);
    let mut chunk = [0u8; CHUNK];
    loop {
        let count = source.read(&mut chunk)?;
        if count == 0 {
            return Ok(bytes);
        }
        if bytes.len() + count > limit as usize {
            return Err(ReadRefusal::TooLong);
        }
        bytes.extend_from_slice(&chunk[..count])?;
    }
}

/// Writes all of the bytes. Where it fails, some of them, from the front, were written.
pub fn write_all<K: Sink>(sink: &mut K, bytes: &[u8]) -> Result<(), Failed>
    ensures all { OnOk result (Appends (K.written sink.old) (K.written sink.new) bytes.now) }
    ensures part { OnErr result (AppendsPart (K.written sink.old) (K.written sink.new) bytes.now) }
    ensures cause { HasCause (K.faults sink.old) (K.faults sink.new) result }
{
    let mut at = 0;
    while at < bytes.len() {
        at += sink.write(&bytes[at..])?;
    }
    Ok(())
}
