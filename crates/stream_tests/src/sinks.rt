//! Sinks in memory, and the one that keeps nothing.

use byte_streams::{ByteSink, MemorySink, NullSink};
use std::test::Fail;

// How many bytes a call takes, and none where it fails.
fn took<O: ByteSink>(out: &mut O, piece: &str) -> Option<usize> {
    out.write(piece.as_bytes()).ok()
}

#[test]
fn goes_on_after_a_failure(rt: HostRuntime) -> Result<(), Fail> {
    let mut out = MemorySink::new(rt.alloc(), 12, 5, &[2])?;
    let calls = [
        ("abcdef", Some(5)),
        ("abcdef", None),
        ("ghi", Some(3)),
        ("jklmno", Some(4)),
        ("pqr", None),
        ("", Some(0)),
    ];
    for (piece, want) in calls {
        assert_eq!(rt; took(&mut out, piece), want, "{piece}");
    }
    assert_eq!(rt; out.bytes(), b"abcdeghijklm".as_slice());
    Ok(())
}

#[test]
fn takes_each_piece_whole(rt: HostRuntime) {
    let mut out = NullSink::new();
    for (piece, want) in [("", 0), ("abc", 3)] {
        assert_eq!(rt; took(&mut out, piece), Some(want));
    }
}
