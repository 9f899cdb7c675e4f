//! What is told of a value.

use std::alloc::AllocError;
use std::process::Abort;
use std::test::Fail;

/// States that a text is the wanted one.
pub fn says(rt: &impl Abort, text: Result<String, AllocError>, want: &str) -> Result<(), Fail> {
    assert_eq!(rt; text?.as_str(), want);
    Ok(())
}
