//! Sources in memory.

use byte_streams::{ByteSource, Failed, MemorySource, SteadySource};
use std::process::Abort;
use std::test::Fail;

// Each call has room for six bytes, and gives what is wanted, or fails where nothing is.
fn assert_gives<S: ByteSource>(rt: &impl Abort, source: &mut S, wanted: &[Option<&str>]) {
    for want in wanted {
        let mut room = [0; 6];
        let given = match source.read(&mut room) {
            Ok(n) => Some(&room[..n]),
            Err(Failed) => None,
        };
        assert_eq!(rt; given, want.map(|text| text.as_bytes()));
    }
}

#[test]
fn gives_a_byte_in_a_call(rt: HostRuntime) -> Result<(), Fail> {
    let mut source = SteadySource::new(rt.alloc(), b"abc", 1)?;
    assert_gives(
        &rt,
        &mut source,
        &[Some("a"), Some("b"), Some("c"), Some("")],
    );
    Ok(())
}

#[test]
fn goes_on_after_a_failure(rt: HostRuntime) -> Result<(), Fail> {
    let mut source = MemorySource::new(rt.alloc(), b"abcdefghij", 4, &[2])?;
    let wanted = [Some("abcd"), None, Some("efgh"), Some("ij"), Some("")];
    assert_gives(&rt, &mut source, &wanted);
    Ok(())
}
