//! How texts are compared, and what is made for it.

use data_core::{Names, Path, Segment, Text};
use std::alloc::{AllocError, Global};
use std::process::Abort;
use std::test::Fail;

// A text that was made is the wanted one.
pub(crate) fn says(
    rt: &impl Abort,
    text: Result<String, AllocError>,
    want: &str,
) -> Result<(), Fail> {
    let text = text?;
    assert_eq!(rt; text.as_str(), want);
    Ok(())
}

// The names, and one more.
pub(crate) fn named(alloc: Global, names: Names, name: &str) -> Result<Names, AllocError> {
    let mut names = names;
    match names.push(Text::new(alloc, name)?) {
        Ok(()) => Ok(names),
        Err(_) => Err(AllocError),
    }
}

// The path, and one step more.
pub(crate) fn then(path: Path, segment: Segment) -> Result<Path, AllocError> {
    let mut path = path;
    match path.push(segment) {
        Ok(()) => Ok(path),
        Err(_) => Err(AllocError),
    }
}

// The step to an entry.
pub(crate) fn entry(alloc: Global, key: &str) -> Result<Segment, AllocError> {
    Ok(Segment::Map {
        key: Text::new(alloc, key)?,
    })
}

// The step to a payload.
pub(crate) fn payload(alloc: Global, variant: &str) -> Result<Segment, AllocError> {
    Ok(Segment::Enum {
        variant: Text::new(alloc, variant)?,
    })
}
