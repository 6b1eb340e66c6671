//! Sources and sinks over readers and writers of std, each error of which is counted as a fault.

ghost use Rattle.std.specs.Prelude.{◌≡◌, ◌≤◌};
ghost use Rattle.wire_io.specs.Causes.{counted};

use crate::outside::{Failed, Sink, Source};
use std::io::{Read, Write};
use std::marker::Model;

/// A source over a reader of std, as standard input. It tells nothing of content, and each error of the reader is a fault.
#[derive(Drop)]
pub struct StdSource<R: Read + Drop> {
    reader: R,
    faults: u64,
}

// As a value it is its count of faults.
impl<R: Read + Drop> Model for StdSource<R> {
    ghost use Rattle.std.specs.Prelude.{ℕ};

    ghost Value = { ℕ };

    ghost view = { λ s. s.faults };
}

impl<R: Read + Drop> StdSource<R> {
    /// A source over `reader`, as yet without a fault.
    pub fn new(reader: R) -> StdSource<R>
        ensures { result ≡ 0 }
    {
        StdSource { reader, faults: 0 }
    }

    fn fail(&mut self) -> Failed
        ensures counted { self.new ≡ counted self.old }
        ensures later { self.old ≤ self.new }
    {
        self.faults = self.faults.saturating_add(1);
        Failed
    }
}

impl<R: Read + Drop> Source for StdSource<R> {
    ghost faults = { λ s. s };

    fn read(&mut self, buf: &mut [u8]) -> Result<usize, Failed> {
        match self.reader.read(buf) {
            Ok(count) => Ok(count),
            Err(_) => Err(self.fail()),
        }
    }
}

/// A sink over a writer of std, as standard output. It tells nothing of content, and each error of the writer is a fault,
/// as is a write that takes nothing of a piece.
#[derive(Drop)]
pub struct StdSink<W: Write + Drop> {
    writer: W,
    faults: u64,
}

// As a value it is its count of faults.
impl<W: Write + Drop> Model for StdSink<W> {
    ghost use Rattle.std.specs.Prelude.{ℕ};

    ghost Value = { ℕ };

    ghost view = { λ s. s.faults };
}

impl<W: Write + Drop> StdSink<W> {
    /// A sink over `writer`, as yet without a fault.
    pub fn new(writer: W) -> StdSink<W>
        ensures { result ≡ 0 }
    {
        StdSink { writer, faults: 0 }
    }

    fn fail(&mut self) -> Failed
        ensures counted { self.new ≡ counted self.old }
        ensures later { self.old ≤ self.new }
    {
        self.faults = self.faults.saturating_add(1);
        Failed
    }
}

impl<W: Write + Drop> Sink for StdSink<W> {
    ghost faults = { λ s. s };

    fn write(&mut self, piece: &[u8]) -> Result<usize, Failed> {
        match self.writer.write(piece) {
            Ok(count) if count > 0 || piece.is_empty() => Ok(count),
            _ => Err(self.fail()),
        }
    }
}
