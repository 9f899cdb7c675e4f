//! Shapes, which say what is to be read, and the data that is read by them.
#![tactic(auto)]

mod data;
mod fields;
mod iter;
mod map;
mod names;
mod order;
mod parts;
mod shapes;
mod traits;
mod variants;
mod version;

pub use data::{Data, DataHeld, DataItems, DataMap, Payload};
pub use iter::DataMapIter;
pub use map::DataUnplaced;
pub use shapes::{Fields, MapShape, Shape, VariantShape, Variants};
pub use version::upgrade;
