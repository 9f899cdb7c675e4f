//! What is read.

use serde_value::Value;

/// What is read under a shape. It is this project's own.
#[derive(Drop)]
pub enum Input {
    /// A tree of values.
    Tree(Value),
}
