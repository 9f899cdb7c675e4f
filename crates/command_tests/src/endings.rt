//! How a command ends over a source and a sink in memory.

use byte_streams::{MemorySink, MemorySource};
use capture::run;
use data_core::{Names, Text};
use std::alloc::{AllocError, Global};

/// A number as a document, and the line that it is answered with.
pub const NUMBER: &[u8] = b"{\"shape\":\"u8\",\"kind\":\"tree\",\"input\":{\"U8\":7}}";

pub const ANSWER: &[u8] = b"{\"value\":7}\n";

/// Whether the command of one word ends with a status, and has then written these bytes.
pub fn ends(
    alloc: Global,
    word: &str,
    source: &mut MemorySource,
    sink: &mut MemorySink,
    want: (u8, &[u8]),
) -> Result<bool, AllocError> {
    let word = Text::new(alloc, word)?;
    let mut words = Names::new(alloc);
    if words.push(word).is_err() {
        return Err(AllocError);
    }
    let status = run(alloc, &words, source, sink);
    let (number, written) = want;
    Ok(status.code() == number && sink.bytes() == written)
}

/// Whether `read` ends so over these bytes, with a source and a sink that never fail.
pub fn reads(alloc: Global, bytes: &[u8], status: u8, line: &[u8]) -> Result<bool, AllocError> {
    let mut source = MemorySource::new(alloc, bytes, 1 << 20, &[])?;
    let mut sink = MemorySink::new(alloc, 1024, 1024, &[])?;
    ends(alloc, "read", &mut source, &mut sink, (status, line))
}
