//! What is told of a value that was read, and of a refusal.

use data_core::{DeError, Fault, Path};
use data_items::Error;
use std::alloc::{AllocError, Global};
use std::process::Abort;
use std::test::Fail;

/// The path of a refusal and its fault, as a text. Want of memory stays one.
pub fn refusal(alloc: Global, error: path_core::Error<Error>) -> Result<String, AllocError> {
    let (path, error) = error.into_parts();
    match error.into_fault() {
        Some(fault) => fault_at(alloc, &path, fault),
        None => Err(AllocError),
    }
}

fn fault_at(alloc: Global, path: &Path, fault: Fault) -> Result<String, AllocError> {
    match fault {
        Fault::InvalidType(kind) => format!(in alloc; "{path}: InvalidType {}", kind.as_str()),
        Fault::InvalidLength(len) => format!(in alloc; "{path}: InvalidLength {len}"),
        Fault::UnknownVariant(name) => {
            format!(in alloc; "{path}: UnknownVariant {}", name.as_str())
        }
        Fault::MissingField(name) => format!(in alloc; "{path}: MissingField {}", name.as_str()),
        Fault::Custom => format!(in alloc; "{path}: Custom"),
        _ => format!(in alloc; "{path}: another fault"),
    }
}

/// States that a text is the wanted one.
pub fn says(rt: &impl Abort, text: Result<String, AllocError>, want: &str) -> Result<(), Fail> {
    assert_eq!(rt; text?.as_str(), want);
    Ok(())
}
