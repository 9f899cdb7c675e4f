//! Readers of data whose shape is known only as the program runs.
#![tactic(auto)]

mod entries;
mod enums;
mod reader;
mod rows;
mod scalars;
mod seed;
mod structs;

pub use reader::{hint, visit};
pub use seed::ShapeSeed;
