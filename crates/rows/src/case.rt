//! A case: the words of a command line, a tab and the document. In a line without a tab there are no
//! words, and the whole line is the document.

use crate::ending::write_ending;
use byte_streams::{MemorySink, SteadySource};
use capture::run;
use data_core::{Names, Text};
use std::alloc::{AllocError, Global};
use std::io::{self, Write};

// How many bytes a command may write. One that writes more ends as where its sink fails.
const ROOM: usize = 1 << 20;

// How many bytes the source gives and the sink takes in a call.
const STEP: usize = 1 << 12;

/// Runs the command of a case, and writes its ending.
pub fn answer<W: Write + Drop>(alloc: Global, line: &str, output: &mut W) -> io::Result<()> {
    let (words, document) = line.split_once('\t').unwrap_or(("", line));
    let words = words_of(alloc, words)?;
    let mut source = SteadySource::new(alloc, document.as_bytes(), STEP)?;
    let mut sink = MemorySink::new(alloc, ROOM, STEP, &[])?;
    let status = run(alloc, &words, &mut source, &mut sink);
    write_ending(output, status, sink.bytes())
}

// The words of a text, which are separated by spaces.
fn words_of(alloc: Global, text: &str) -> Result<Names, AllocError> {
    let mut words = Names::new(alloc);
    for word in text.split_whitespace() {
        if words.push(Text::new(alloc, word)?).is_err() {
            return Err(AllocError);
        }
    }
    Ok(words)
}
