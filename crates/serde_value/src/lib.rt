//! Trees that capture what a value writes, and the reading of them: a port of `serde_value`.
#![tactic(auto)]

mod copy;
mod de;
mod hash;
mod held;
mod into;
mod items;
mod map;
mod map_iter;
mod order;
mod reading;
mod seen;
mod show;
mod told;
mod traits;
mod value;
mod variant;
mod visitor;

pub use de::{ValueDeserializer, ValueElements, ValueEntries};
pub use map::Unplaced;
pub use map_iter::ValueMapIter;
pub use value::{Held, Items, Value, ValueMap};
pub use value_error::{DeserializerError, Unexpected};
pub use variant::ValueVariant;
pub use visitor::ValueVisitor;
