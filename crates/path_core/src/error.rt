//! An error and its path.
ghost use Rattle.std.specs.Prelude.{◌≡◌};
ghost use Rattle.path_core.specs.ErrorText.{has_place};

use data_core::{Path, Segment};
use std::fmt;

/// An error and the path of the part that it is about: serde_path_to_error's `Error`.
#[derive(Drop)]
pub struct Error<E> {
    path: Path,
    original: E,
}

impl<E> Error<E> {
    ghost use Rattle.path_core.specs.Error.{path_of, original_of};

    /// An error at a path. Takes no memory.
    pub fn new(path: Path, inner: E) -> Error<E>
        ensures path { path_of result ≡ path }
        ensures original { original_of result ≡ inner }
    {
        Error {
            path,
            original: inner,
        }
    }

    /// The path.
    pub fn path(&self) -> &Path
        ensures { result.now ≡ path_of self.now }
    {
        &self.path
    }

    /// The error without its path.
    pub fn inner(&self) -> &E
        ensures { result.now ≡ original_of self.now }
    {
        &self.original
    }

    /// The error without its path, which is moved.
    pub fn into_inner(self) -> E
        ensures { result ≡ original_of self }
    {
        self.original
    }

    /// The path and the error, which are moved. It is this project's own.
    pub fn into_parts(self) -> (Path, E)
        ensures path { result.0 ≡ path_of self }
        ensures original { result.1 ≡ original_of self }
    {
        (self.path, self.original)
    }
}

/// The path, a colon and the error. The error alone where no segment of the path is known.
impl<E: fmt::Display> fmt::Display for Error<E> {
    ghost use Rattle.path_core.specs.Error.{path_of, original_of};
    ghost use Rattle.path_core.specs.ErrorText.{with_place};

    ghost output = { λ e. with_place (path_of e) (E.Display.output (original_of e)) };

    fn fmt<W: fmt::Write>(&self, f: &mut fmt::Formatter<W>) -> fmt::Result {
        if says_where(&self.path) {
            write!(f, "{}: ", self.path)?;
        }
        write!(f, "{}", self.original)
    }
}

// Whether some segment of the path is known.
fn says_where(path: &Path) -> bool
    ensures { result ≡ has_place path.now }
{
    for segment in path {
        if !matches!(segment, Segment::Unknown) {
            return true;
        }
    }
    false
}
