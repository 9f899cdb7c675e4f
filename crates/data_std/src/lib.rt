//! Readers of standard types.
#![tactic(auto)]

mod boxes;
mod ignored;
mod integers;
mod lists;
mod maps;
mod options;
mod reading;
mod scalars;
mod told;
mod told_maps;
mod tuples;
mod types;
mod variants;

pub use boxes::BoxSeed;
pub use ignored::{IgnoredAny, ignore_entries, ignore_rest, ignore_value};
pub use lists::VecSeed;
pub use maps::MapSeed;
pub use options::OptionSeed;
pub use reading::{deserialize, next_element, next_entry, next_key, next_value};
pub use told::{Told, deserialize_told};
pub use told_maps::ToldKey;
pub use tuples::{Tuple1Seed, Tuple2Seed, Tuple3Seed, Tuple4Seed};
pub use types::Deserialize;
pub use variants::{newtype_variant, variant};
