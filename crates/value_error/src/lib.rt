//! The error of reading a tree, and what a reader saw, owned.
#![tactic(auto)]

mod error;
mod unexpected;

pub use error::DeserializerError;
pub use unexpected::Unexpected;
