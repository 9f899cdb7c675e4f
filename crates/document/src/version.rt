//! Versions of documents.

/// The version of a document. It is this project's own.
#[derive(Clone, Copy)]
pub enum Version {
    /// Tuples pass over the elements that they have too many of.
    First,
    /// Tuples refuse them, and prefixes pass over them.
    Second,
}
