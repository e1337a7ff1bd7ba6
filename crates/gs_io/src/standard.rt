//! Sources and sinks over the readers and writers of std.

ghost use Rattle.std.specs.Prelude.{◌≡◌};

use crate::{Failed, Sink, Source, count_fault};
use std::io::{Read, Write};
use std::marker::Model;

/// A reader or a writer with a count of its errors.
#[derive(Drop)]
pub struct Counted<T> {
    inner: T,
    faults: u64,
}

impl<T> Model for Counted<T> {
    ghost use Rattle.std.specs.Prelude.{ℕ};

    ghost Value = { T × ℕ };

    ghost view = { λ s. (s.inner, s.faults) };
}

impl<T> Counted<T> {
    /// Returns a source or sink over `inner`, with a count of 0.
    pub fn new(inner: T) -> Counted<T>
        ensures { result ≡ (inner, 0) }
    {
        Counted { inner, faults: 0 }
    }
}

/// A source over any reader. It reads once for each call and counts the errors, an interrupted
/// read among them. It tells the bytes that the reader tells: stdin tells none.
pub type StdSource<R> = Counted<R>;

impl<R: Read> Source for Counted<R> {
    ghost left = { λ s. R.remaining s.0 };

    ghost faults = { λ s. s.1 };

    fn take(&mut self, into: &mut [u8]) -> Result<usize, Failed> {
        match self.inner.read(into) {
            Ok(count) => Ok(count),
            Err(_) => Err(count_fault(&mut self.faults)),
        }
    }
}

/// A sink over any writer. It writes once for each call and counts the errors, an interrupted
/// write and a write that takes no byte among them. It tells the bytes that the writer tells:
/// stdout tells none.
pub type StdSink<W> = Counted<W>;

impl<W: Write> Sink for Counted<W> {
    ghost given = { λ s. W.contents s.0 };

    ghost faults = { λ s. s.1 };

    fn give(&mut self, bytes: &[u8]) -> Result<usize, Failed> {
        match self.inner.write(bytes) {
            Ok(count) if count > 0 => Ok(count),
            _ => Err(count_fault(&mut self.faults)),
        }
    }
}
