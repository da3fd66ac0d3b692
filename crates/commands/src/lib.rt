// Commands read from bytes, and written as bytes.
#![tactic(auto)]

mod reader;
mod writer;

pub use reader::read;
pub use writer::write;
