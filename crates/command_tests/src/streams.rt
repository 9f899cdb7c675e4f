//! Streams that come byte by byte, have a newline or are no text.

use crate::endings::{ANSWER, NUMBER, ends, reads};
use byte_streams::{MemorySink, MemorySource};
use std::alloc::{AllocError, Global};
use std::test::Fail;

// Whether a number is answered where each call moves one byte.
fn is_answered_by_bytes(alloc: Global) -> Result<bool, AllocError> {
    let mut source = MemorySource::new(alloc, NUMBER, 1, &[])?;
    let mut sink = MemorySink::new(alloc, 12, 1, &[])?;
    ends(alloc, "read", &mut source, &mut sink, (0, ANSWER))
}

#[test]
fn answers_byte_by_byte(rt: HostRuntime) -> Result<(), Fail> {
    assert!(rt; is_answered_by_bytes(rt.alloc())?);
    Ok(())
}

#[test]
fn newlines_stand_between_words_alone(rt: HostRuntime) -> Result<(), Fail> {
    let between =
        b"\n{\"shape\":\r\n\"text\",\n\"kind\":\"tree\",\"input\":{\"String\":\"a\"}\n}\n";
    assert!(rt; reads(rt.alloc(), between, 0, b"{\"value\":\"a\"}\n")?);
    let within = b"{\"shape\":\"text\",\"kind\":\"tree\",\"input\":{\"String\":\"a\nb\"}}";
    assert!(rt; reads(rt.alloc(), within, 3, b"")?);
    Ok(())
}

#[test]
fn bytes_that_are_no_text_are_no_document(rt: HostRuntime) -> Result<(), Fail> {
    assert!(rt; reads(rt.alloc(), b"\xff", 3, b"")?);
    let within = b"{\"shape\":\"text\",\"kind\":\"tree\",\"input\":{\"String\":\"\xff\"}}";
    assert!(rt; reads(rt.alloc(), within, 3, b"")?);
    Ok(())
}
