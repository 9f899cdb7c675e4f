//! The traits of reading in pulled form, and the plain types that readers, deserializers and the
//! outside share.
#![tactic(auto)]

mod de;
mod error;
mod fault;
mod hint;
mod names;
mod path;
mod reading;
mod refusal;
mod seed;
mod segments;
mod text;
mod track;
mod unexpected;
mod variants;

pub use de::{Deserializer, Scalar, Shown};
pub use error::DeError;
pub use fault::{Fault, Kind, Word};
pub use hint::Hint;
pub use names::Names;
pub use path::{Path, Segment};
pub use reading::{next_element_seed, next_key_seed, next_value_seed};
pub use refusal::refused;
pub use seed::DeserializeSeed;
pub use segments::Segments;
pub use text::{BytesLike, Text, TextLike, only_char};
pub use track::Track;
pub use unexpected::Unexpected;
pub use variants::{
    newtype_variant_seed, struct_variant, tuple_variant, unit_variant, variant_seed,
};
