//! The worked rows as data: each line of standard input is a case, the words of a command line and,
//! behind a tab, the document on its standard input; each line of standard output says how the command
//! of that case ended and what it wrote.
#![tactic(auto)]

mod case;
mod ending;

use std::io::{self, BufRead, BufReader, BufWriter, Write};

fn main(rt: HostRuntime) -> io::Result<()> {
    let alloc = rt.alloc();
    let mut output = BufWriter::new(alloc, io::writer(&rt))?;
    for line in BufReader::new(alloc, rt.reader())?.lines(alloc) {
        case::answer(alloc, line?.as_str(), &mut output)?;
    }
    output.flush()
}
