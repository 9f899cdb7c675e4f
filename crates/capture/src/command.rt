//! The command line.
ghost use Rattle.std.specs.Prelude.{◌≡◌, ◌≢◌, ◌<◌, ◌≤◌, ◌↔◌, None, IfSome, IsSomeAnd, IsTrue, length};
ghost use Rattle.byte_streams.specs.Course.{Spared};
ghost use Rattle.byte_streams.specs.Outside.{IsAtEnd, HasFailed};
ghost use Rattle.document.specs.Document.{document};
ghost use Rattle.answer.specs.Line.{line};
ghost use Rattle.capture.specs.Status.{OnAnswer, OnWholeStream, OnSilence};
ghost use Rattle.capture.specs.Run.{IsCommand, most_bytes, TookMore, TookAtMost, line_of, IsAnswer, TookFront, Concludes, IsReply};

use crate::response::respond;
use crate::status::Status;
use crate::stream::{StreamError, read_stream, write_line};
use byte_streams::{ByteSink, ByteSource, Failed};
use data_core::Names;
use std::alloc::Global;

/// Runs a command: `words` are the arguments behind the program's name. `read` reads a document
/// from the source and writes the line of its answer to the sink. Want of memory may stand in the
/// place of every status but `Usage`.
#[tactic(auto, using(crate::proofs::Courses::spared))]
pub fn run<S: ByteSource, O: ByteSink>(
    alloc: Global,
    words: &Names,
    source: &mut S,
    out: &mut O,
) -> Status
    // The words are settled first, and nothing else happens where they are no command line.
    ensures usage { (result ≡ Status.Usage) ↔ ¬ IsCommand words.now }
    ensures untouched { result ≡ Status.Usage → (source.new ≡ source.old) × (out.new ≡ out.old) }

    // A fault of the source is told exactly where there was one.
    ensures read_fault { result ≡ Status.ReadFault → HasFailed (S.faults source.old) (S.faults source.new) }
    ensures read_failed { S.faults source.old < S.faults source.new → result ≡ Status.ReadFault }

    // So is a stream that is too long.
    ensures too_long { result ≡ Status.TooLong → TookMore most_bytes (S.left source.old) (S.left source.new) }
    ensures not_too_long { result ≢ Status.TooLong → result ≢ Status.Memory
        → TookAtMost most_bytes (S.left source.old) (S.left source.new) }

    // The other statuses come once the stream was read to its end.
    ensures whole { OnWholeStream result (IsAtEnd (S.left source.new)) }
    ensures bad_document { result ≡ Status.BadDocument
        → IfSome (S.left source.old) (λ stream. document stream ≡ None) }

    // The answer to a document is its outcome's line, whole and nothing else.
    ensures answer { OnAnswer result (IfSome (S.left source.old) (λ stream. IsSomeAnd (document stream)
        (λ d. IsAnswer result d (O.taken out.old) (O.taken out.new)))) }

    // A fault of the sink is told exactly where there was one, and leaves a front of the line.
    ensures write_fault { result ≡ Status.WriteFault → HasFailed (O.faults out.old) (O.faults out.new) }
    ensures write_failed { O.faults out.old < O.faults out.new → result ≡ Status.WriteFault }
    ensures front { result ≡ Status.WriteFault → IfSome (S.left source.old) (λ stream. IsSomeAnd (document stream)
        (λ d. TookFront (line_of d) (O.taken out.old) (O.taken out.new))) }
    ensures silent { OnSilence result (O.taken out.new ≡ O.taken out.old) }

    // The source is called no more once it gave its end or failed, and the sink once it failed or took the line.
    ensures source_spared { Spared (S.course source.old) (S.course source.new) }
    ensures sink_spared { Spared (O.course out.old) (O.course out.new) }

    // Where nothing failed, each stream has its answer.
    ensures complete { IsCommand words.now → IfSome (S.left source.old) (λ stream. length stream ≤ most_bytes
        → ¬ HasFailed (S.faults source.old) (S.faults source.new)
        → ¬ HasFailed (O.faults out.old) (O.faults out.new) → result ≢ Status.Memory
        → Concludes (document stream) result (O.taken out.old) (O.taken out.new)) }
    ensures complete_long { IsCommand words.now → IfSome (S.left source.old) (λ stream. most_bytes < length stream
        → ¬ HasFailed (S.faults source.old) (S.faults source.new) → result ≢ Status.Memory
        → result ≡ Status.TooLong) }
{
    if !is_read(words) {
        return Status::Usage;
    }
    let mut bytes = Vec::new(alloc);
    match read_stream(source, &mut bytes) {
        Ok(()) => reply(alloc, &bytes, out),
        Err(StreamError::Memory) => Status::Memory,
        Err(StreamError::ReadFault) => Status::ReadFault,
        Err(StreamError::TooLong) => Status::TooLong,
    }
}

fn is_read(words: &Names) -> bool
    ensures { IsTrue result ↔ IsCommand words.now }
{
    words.len() == 1 && matches!(words.get(0), Some("read"))
}

// Replies to a whole stream.
#[tactic(auto, using(crate::proofs::Courses::spared))]
fn reply<O: ByteSink>(alloc: Global, bytes: &[u8], out: &mut O) -> Status
    ensures kind { IsReply result }
    ensures bad_document { result ≡ Status.BadDocument → document bytes.now ≡ None }
    ensures answer { OnAnswer result (IsSomeAnd (document bytes.now)
        (λ d. IsAnswer result d (O.taken out.old) (O.taken out.new))) }
    ensures write_fault { result ≡ Status.WriteFault → HasFailed (O.faults out.old) (O.faults out.new) }
    ensures write_failed { O.faults out.old < O.faults out.new → result ≡ Status.WriteFault }
    ensures front { result ≡ Status.WriteFault → IsSomeAnd (document bytes.now)
        (λ d. TookFront (line_of d) (O.taken out.old) (O.taken out.new)) }
    ensures silent { OnSilence result (O.taken out.new ≡ O.taken out.old) }
    ensures spared { Spared (O.course out.old) (O.course out.new) }
    ensures complete { ¬ HasFailed (O.faults out.old) (O.faults out.new) → result ≢ Status.Memory
        → Concludes (document bytes.now) result (O.taken out.old) (O.taken out.new) }
{
    match respond(alloc, bytes) {
        Ok(Some(answer)) => match write_line(out, answer.line.as_bytes()) {
            Ok(()) => answer.status,
            Err(Failed) => Status::WriteFault,
        },
        Ok(None) => Status::BadDocument,
        Err(_) => Status::Memory,
    }
}
