//! The program: a command over standard input and output. It ends with the number of the status,
//! and writes nothing to standard error.
#![tactic(auto)]

use byte_streams::{ReadSource, WriteSink};
use capture::{Status, run};
use data_core::{Names, Text};
use std::env;
use std::io::ErrorKind;
use std::process::ExitCode;
use std::rt::Env;

fn main(rt: HostRuntime) -> ExitCode {
    let status = match words(&rt) {
        Ok(words) => {
            let mut source = ReadSource::new(rt.stdin());
            let mut out = WriteSink::new(rt.stdout());
            run(rt.alloc(), &words, &mut source, &mut out)
        }
        Err(status) => status,
    };
    ExitCode::from(status.code())
}

// The arguments behind the program's name. Those that are no texts are no command line.
fn words(rt: &(impl Env + AllocGlobal)) -> Result<Names, Status> {
    let args = match env::args(rt) {
        Ok(args) => args,
        Err(error) if error.kind() == ErrorKind::OutOfMemory => return Err(Status::Memory),
        Err(_) => return Err(Status::Usage),
    };
    let mut words = Names::new(rt.alloc());
    for arg in args.skip(1) {
        if words.push(Text::from_string(arg)).is_err() {
            return Err(Status::Memory);
        }
    }
    Ok(words)
}
