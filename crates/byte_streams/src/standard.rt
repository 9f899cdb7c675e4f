//! Readers and writers as sources and sinks: the trusted edge. What they give and take is told by no clause.
ghost use Rattle.std.specs.Prelude.{None};

use crate::sink::ByteSink;
use crate::source::{ByteSource, Failed};
use std::io::{Read, Write};

/// A reader as a source, which counts its failures.
#[derive(Drop)]
pub struct ReadSource<R: Read + Drop> {
    reader: R,
    faults: u64,
}

impl<R: Read + Drop> ReadSource<R> {
    /// A source that gives what the reader gives.
    pub fn new(reader: R) -> ReadSource<R> {
        ReadSource { reader, faults: 0 }
    }
}

impl<R: Read + Drop> ByteSource for ReadSource<R> {
    ghost left = { λ _. None };

    ghost faults = { λ s. s.faults };

    fn read(&mut self, into: &mut [u8]) -> Result<usize, Failed> {
        match self.reader.read(into) {
            Ok(n) => Ok(n),
            Err(_) => {
                self.faults = self.faults.saturating_add(1);
                Err(Failed)
            }
        }
    }
}

/// A writer as a sink, which counts its failures.
#[derive(Drop)]
pub struct WriteSink<W: Write + Drop> {
    writer: W,
    faults: u64,
}

impl<W: Write + Drop> WriteSink<W> {
    /// A sink that hands on what it takes.
    pub fn new(writer: W) -> WriteSink<W> {
        WriteSink { writer, faults: 0 }
    }
}

impl<W: Write + Drop> ByteSink for WriteSink<W> {
    ghost taken = { λ _. None };

    ghost faults = { λ s. s.faults };

    fn write(&mut self, from: &[u8]) -> Result<usize, Failed> {
        match self.writer.write(from) {
            Ok(n) if n > 0 || from.is_empty() => Ok(n),
            _ => {
                self.faults = self.faults.saturating_add(1);
                Err(Failed)
            }
        }
    }
}
