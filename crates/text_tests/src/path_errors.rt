//! Errors at a path, shown.
ghost use Rattle.std.specs.Prelude.{◌≡◌, Some, IfOk, string_bytes};
ghost use Rattle.path_core.specs.Error.{path_of, original_of};
ghost use Rattle.path_core.specs.ErrorText.{with_place};

use crate::checks::{entry, says, then};
use data_core::{Path, Segment};
use path_core::Error;
use std::alloc::{AllocError, Global};
use std::fmt;
use std::test::Fail;

// An error that is only a text.
#[derive(Drop)]
struct Message(&'static str);

impl fmt::Display for Message {
    ghost use Rattle.std.specs.Prelude.{Some};

    ghost output = { λ m. Some m.0.now };

    fn fmt<W: fmt::Write>(&self, f: &mut fmt::Formatter<W>) -> fmt::Result {
        f.write_str(self.0)
    }
}

// What a caller of `to_string` knows.
fn shown(alloc: Global, error: &Error<Message>) -> Result<String, AllocError>
    ensures { IfOk result (λ s. Some (string_bytes s) ≡ with_place (path_of error.now) (Some (original_of error.now).0.now)) }
{
    error.to_string(alloc)
}

// An error at a path, shown.
fn boom(alloc: Global, path: Result<Path, AllocError>) -> Result<String, AllocError> {
    shown(alloc, &Error::new(path?, Message("boom")))
}

fn unknown(alloc: Global) -> Result<Path, AllocError> {
    then(Path::new(alloc), Segment::Unknown)
}

fn entry_of_unknown(alloc: Global) -> Result<Path, AllocError> {
    let last = entry(alloc, "a")?;
    then(unknown(alloc)?, last)
}

#[test]
fn shows_its_place_where_it_has_one(rt: HostRuntime) -> Result<(), Fail> {
    let alloc = rt.alloc();
    says(&rt, boom(alloc, Ok(Path::new(alloc))), "boom")?;
    says(&rt, boom(alloc, unknown(alloc)), "boom")?;
    says(&rt, boom(alloc, entry_of_unknown(alloc)), "?.a: boom")
}

#[test]
fn hands_out_its_parts(rt: HostRuntime) -> Result<(), Fail> {
    let error = Error::new(unknown(rt.alloc())?, Message("boom"));
    assert_eq!(rt; error.path().len(), 1);
    assert_eq!(rt; error.inner().0, "boom");
    let (path, inner) = error.into_parts();
    assert_eq!(rt; path.len(), 1);
    assert_eq!(rt; Error::new(path, inner).into_inner().0, "boom");
    Ok(())
}
