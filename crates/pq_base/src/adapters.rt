//! The real outside: any reader of std as a source, any writer as a sink. What they read and write
//! is known only if std's trait tells it, which files, sockets and terminals don't.
ghost use Rattle.std.specs.Prelude.{◌≡◌};
ghost use Rattle.pq_base.specs.Adapters.{reader_of, read_errors, writer_of, write_errors};

use crate::outside::{Gate, GatePoint, Pull, Push, Sink, Source};
use std::io::{Read, Write};

/// A reader as a source, with a count of its errors.
#[derive(Drop)]
pub struct ReadSource<R: Read + Drop> {
    inner: R,
    faults: u64,
}

impl<R: Read + Drop> ReadSource<R> {
    /// The reader, with no error so far.
    pub fn new(inner: R) -> Self
        ensures reader { reader_of result ≡ inner }
        ensures faults { read_errors result ≡ 0 }
    {
        ReadSource { inner, faults: 0 }
    }
}

impl<R: Read + Drop> Source for ReadSource<R> {
    ghost left = { λ s. R.remaining s.inner };

    ghost faults = { λ s. s.faults };

    fn read(&mut self, buf: &mut [u8]) -> Pull {
        match self.inner.read(buf) {
            Ok(count) => Pull::Got(count),
            Err(_) => {
                self.faults = self.faults.saturating_add(1);
                Pull::Failed
            }
        }
    }
}

/// A writer as a sink, with a count of its errors. A write that takes nothing of a piece is one.
#[derive(Drop)]
pub struct WriteSink<W: Write + Drop> {
    inner: W,
    faults: u64,
}

impl<W: Write + Drop> WriteSink<W> {
    /// The writer, with no error so far.
    pub fn new(inner: W) -> Self
        ensures writer { writer_of result ≡ inner }
        ensures faults { write_errors result ≡ 0 }
    {
        WriteSink { inner, faults: 0 }
    }
}

impl<W: Write + Drop> Sink for WriteSink<W> {
    ghost written = { λ s. W.contents s.inner };

    ghost faults = { λ s. s.faults };

    fn write(&mut self, piece: &[u8]) -> Push {
        match self.inner.write(piece) {
            Ok(count) if count > 0 || piece.is_empty() => Push::Took(count),
            _ => {
                self.faults = self.faults.saturating_add(1);
                Push::Failed
            }
        }
    }
}

/// A gate that holds nobody.
#[derive(Clone, Copy, Debug, PartialEq, Eq)]
pub struct OpenGate;

impl Gate for OpenGate {
    fn at(&self, _worker: u32, _point: GatePoint) {}
}

#[cfg(test)]
mod tests;
