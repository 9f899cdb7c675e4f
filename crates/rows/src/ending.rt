//! How a command ended: its status, and behind a space the line that it wrote, if it wrote any.

use capture::Status;
use std::io::{self, Write};

/// Writes an ending as a line. What the command wrote stands in it without the newline at its end.
pub fn write_ending<W: Write>(output: &mut W, status: Status, written: &[u8]) -> io::Result<()> {
    write!(output, "{}", status.code())?;
    if !written.is_empty() {
        output.write_all(b" ")?;
        output.write_all(written.strip_suffix(b"\n").unwrap_or(written))?;
    }
    output.write_all(b"\n")
}
