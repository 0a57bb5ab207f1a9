//! The standard streams as a source and a sink. They tell of the bytes what the reader and the writer tell.
use eden_io::{Failed, Sink, Source};
use std::io::{self, Read, Write};

/// A reader, with the count of its failures and the last of them.
#[derive(Drop)]
pub struct StdSource<R: Read + Drop> {
    reader: R,
    ended: bool,
    faults: u64,
    failure: Option<io::Error>,
}

impl<R: Read + Drop> StdSource<R> {
    /// The reader as it stands, with no failures.
    pub fn new(reader: R) -> StdSource<R> {
        StdSource {
            reader,
            ended: false,
            faults: 0,
            failure: None,
        }
    }

    /// Why the last read that failed did so.
    pub fn failure(&self) -> Option<io::Error> {
        self.failure
    }
}

impl<R: Read + Drop> Source for StdSource<R> {
    ghost left = { λ s. R.remaining s.reader };

    ghost ended = { λ s. s.ended };

    ghost faults = { λ s. s.faults };

    fn faults(&self) -> u64 {
        self.faults
    }

    fn read(&mut self, out: &mut [u8]) -> Result<usize, Failed> {
        match self.reader.read(out) {
            Ok(count) => {
                self.ended = self.ended || count == 0 && out.len() > 0;
                Ok(count)
            }
            Err(error) => {
                self.faults = self.faults.saturating_add(1);
                self.failure = Some(error);
                Err(Failed)
            }
        }
    }
}

/// A writer, with the count of its failures and the last of them. A write that takes nothing is a failure.
#[derive(Drop)]
pub struct StdSink<W: Write + Drop> {
    writer: W,
    faults: u64,
    failure: Option<io::Error>,
}

impl<W: Write + Drop> StdSink<W> {
    /// The writer as it stands, with no failures.
    pub fn new(writer: W) -> StdSink<W> {
        StdSink {
            writer,
            faults: 0,
            failure: None,
        }
    }

    /// Why the last write that failed did so.
    pub fn failure(&self) -> Option<io::Error> {
        self.failure
    }
}

impl<W: Write + Drop> Sink for StdSink<W> {
    ghost written = { λ s. W.contents s.writer };

    ghost faults = { λ s. s.faults };

    fn faults(&self) -> u64 {
        self.faults
    }

    fn write(&mut self, bytes: &[u8]) -> Result<usize, Failed> {
        let failure = match self.writer.write(bytes) {
            Ok(count) if count > 0 || bytes.is_empty() => return Ok(count),
            Ok(_) => io::Error::from(io::ErrorKind::WriteZero),
            Err(error) => error,
        };
        self.faults = self.faults.saturating_add(1);
        self.failure = Some(failure);
        Err(Failed)
    }
}
