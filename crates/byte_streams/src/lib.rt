//! Streams of bytes from and to the outside, whose failures are counted.
#![tactic(auto)]

mod calls;
mod course;
mod sink;
mod source;
mod standard;

pub use course::Course;
pub use sink::{ByteSink, MemorySink, NullSink};
pub use source::{ByteSource, Failed, MemorySource, SteadySource};
pub use standard::{ReadSource, WriteSink};
