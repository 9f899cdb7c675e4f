//! Whole streams: from a source, and into a sink.
ghost use Rattle.std.specs.Prelude.{◌≡◌, ◌≢◌, ◌<◌, ◌≤◌, [], Err, IsErrOf, OnOk, OnErr, vec_len};
ghost use Rattle.byte_streams.specs.Course.{Spared};
ghost use Rattle.byte_streams.specs.Outside.{with_front, with_more, IsAtEnd, HasFailed, Counts};
ghost use Rattle.capture.specs.Run.{most_bytes, TookFront};

use byte_streams::{ByteSink, ByteSource, Failed};

/// The most bytes that a stream may have.
const MOST_BYTES: usize = 16_777_216;

/// How many bytes are read in a call.
const ROOM: usize = 8192;

/// Why a stream was not read whole.
#[derive(Clone, Copy)]
pub enum StreamError {
    Memory,
    ReadFault,
    TooLong,
}

/// Reads a stream to its end, to its first failure, or until it is too long.
pub fn read_stream<S: ByteSource>(source: &mut S, bytes: &mut Vec<u8>) -> Result<(), StreamError>
    requires { bytes.old.items ≡ [] }
    ensures taken { result ≢ Err StreamError.Memory
        → S.left source.old ≡ with_front bytes.new.items (S.left source.new) }
    ensures end { OnOk result (IsAtEnd (S.left source.new)) }
    ensures short { OnOk result (vec_len bytes.new ≤ most_bytes) }
    ensures failed { IsErrOf result StreamError.ReadFault → HasFailed (S.faults source.old) (S.faults source.new) }
    ensures failed_short { IsErrOf result StreamError.ReadFault → vec_len bytes.new ≤ most_bytes }
    ensures too_long { IsErrOf result StreamError.TooLong → most_bytes < vec_len bytes.new }
    ensures faults { result ≢ Err StreamError.ReadFault → S.faults source.new ≡ S.faults source.old }
    ensures spared { Spared (S.course source.old) (S.course source.new) }
{
    let mut room = [0u8; ROOM];
    'reads: while bytes.len() <= MOST_BYTES {
        match source.read(&mut room) {
            Ok(0) => return Ok(()),
            Ok(n) => {
                if bytes.extend_from_slice(&room[..n]).is_err() {
                    return Err(StreamError::Memory);
                }
            }
            Err(Failed) => return Err(StreamError::ReadFault),
        }
    }
    Err(StreamError::TooLong)
}

/// Writes a line whole, up to the first failure.
pub fn write_line<O: ByteSink>(out: &mut O, line: &[u8]) -> Result<(), Failed>
    ensures ok { OnOk result (O.taken out.new ≡ with_more (O.taken out.old) line.now) }
    ensures front { OnErr result (TookFront line.now (O.taken out.old) (O.taken out.new)) }
    ensures counts { Counts result (O.faults out.old) (O.faults out.new) }
    ensures never_falls { O.faults out.old ≤ O.faults out.new }
    ensures spared { Spared (O.course out.old) (O.course out.new) }
{
    let mut at = 0;
    'writes: while at < line.len() {
        at += out.write(&line[at..])?;
    }
    Ok(())
}
