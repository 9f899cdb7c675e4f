//! Reading under a shape, and the command line that reads a document and writes the answer.
#![tactic(auto)]

mod command;
mod reader;
mod response;
mod status;
mod stream;

pub use command::run;
pub use document::Input;
pub use reader::{ReadError, read, read_any};
pub use status::Status;
