//! Deserializers over items, pairs and texts that are at hand, and their error: what serde has in
//! `de::value`.
#![tactic(auto)]

mod empty;
mod ends;
mod error;
mod into;
mod into_plain;
mod pairs;
mod part_variant;
mod plain;
mod plain_deserializer;
mod sequences;
mod waiting;

pub use empty::{NoElements, NoEntries, UnitOnly};
pub use error::Error;
pub use into::IntoDeserializer;
pub use pairs::{MapDeserializer, MapElements, MapEntries};
pub use part_variant::PartVariant;
pub use plain::Plain;
pub use plain_deserializer::{
    BoolDeserializer, CowStrDeserializer, I8Deserializer, I16Deserializer, I32Deserializer,
    I64Deserializer, PlainDeserializer, StrDeserializer, StringDeserializer, U8Deserializer,
    U16Deserializer, U32Deserializer, U64Deserializer,
};
pub use sequences::{SeqDeserializer, SeqElements, SeqEntries};
