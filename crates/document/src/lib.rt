//! What bytes name: the words of a document for shapes and trees, and the parsing of a document.
#![tactic(auto)]

mod input;
mod members;
mod named;
mod parser;
mod scalar_words;
mod shape_words;
mod tree_words;
mod twos;
mod variant_words;
mod version;

pub use input::Input;
pub use parser::{Document, parse};
pub use version::Version;
