//! A reader as a source and a writer as a sink.

use byte_streams::{ByteSink, ByteSource, ReadSource, WriteSink};
use std::io::{self, Read, Write};

// It fails at every call, or takes nothing.
#[derive(Drop)]
struct Broken {
    takes_nothing: bool,
}

impl Read for Broken {
    fn read(&mut self, _into: &mut [u8]) -> io::Result<usize> {
        Err(io::Error::from(io::ErrorKind::Other))
    }
}

impl Write for Broken {
    fn write(&mut self, _from: &[u8]) -> io::Result<usize> {
        if self.takes_nothing {
            Ok(0)
        } else {
            Err(io::Error::from(io::ErrorKind::Other))
        }
    }

    fn flush(&mut self) -> io::Result<()> {
        Ok(())
    }
}

// A writer that takes two bytes at most, and lends where they go.
#[derive(Drop)]
struct Pair<'a> {
    bytes: &'a mut [u8; 2],
}

impl Write for Pair<'_> {
    fn write(&mut self, from: &[u8]) -> io::Result<usize> {
        if from.len() < 2 {
            return Ok(0);
        }
        self.bytes.copy_from_slice(&from[..2]);
        Ok(2)
    }

    fn flush(&mut self) -> io::Result<()> {
        Ok(())
    }
}

#[test]
fn gives_what_the_reader_gives(rt: HostRuntime) {
    let mut room = [0u8; 4];
    let mut source = ReadSource::new(b"ab".as_slice());
    assert!(rt; matches!(source.read(&mut room), Ok(2)));
    assert_eq!(rt; &room[..2], b"ab".as_slice());
    assert!(rt; matches!(source.read(&mut room), Ok(0)));
}

#[test]
fn fails_where_the_reader_does(rt: HostRuntime) {
    let mut room = [0u8; 4];
    let mut source = ReadSource::new(Broken {
        takes_nothing: false,
    });
    assert!(rt; source.read(&mut room).is_err());
}

#[test]
fn hands_on_to_the_writer(rt: HostRuntime) {
    let mut bytes = [0u8; 2];
    let mut sink = WriteSink::new(Pair { bytes: &mut bytes });
    assert!(rt; matches!(sink.write(b"abc"), Ok(2)));
    drop(sink);
    assert_eq!(rt; bytes, *b"ab");
}

#[test]
fn fails_where_the_writer_takes_nothing(rt: HostRuntime) {
    for takes_nothing in [true, false] {
        let mut sink = WriteSink::new(Broken { takes_nothing });
        assert!(rt; sink.write(b"ab").is_err());
    }
}
