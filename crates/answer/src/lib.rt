//! What is printed: values by their shapes, faults, paths, and the line of an answer.
#![tactic(auto)]

mod faults;
mod line;
mod paths;
mod payload_parts;
mod shape_parts;
mod values;

pub use faults::print_fault;
pub use line::{refusal_line, value_line};
pub use paths::print_path;
pub use values::print;
