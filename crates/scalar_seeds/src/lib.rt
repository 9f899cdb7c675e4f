//! Readers of booleans, integers, characters, texts and units.
#![tactic(auto)]

mod integers;
mod scalars;
mod wide_integers;

pub use integers::{Integer, IntegerSeed};
pub use scalars::{BoolSeed, CharSeed, StringSeed, UnitSeed};
pub use wide_integers::{WideInteger, WideIntegerSeed};
