//! Reading that tells where it was refused: a port of `serde_path_to_error`.
#![tactic(auto)]

mod de;

pub use de::{deserialize, deserialize_seed, deserialize_told};
pub use path_core::{Error, Path, Segment, Segments, Track};
pub use path_read::Deserializer;
