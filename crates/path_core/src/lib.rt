//! Errors that know the path of what they are about, of `serde_path_to_error`.
#![tactic(auto)]

mod error;

pub use data_core::{Path, Segment, Segments, Track};
pub use error::Error;
