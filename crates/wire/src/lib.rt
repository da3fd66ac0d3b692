// The commands of a stream and what their bytes are, the lines of a release list and what their text is, and the laws of
// both.
#![tactic(auto)]

pub mod commands;
pub mod faults;
pub mod lines;

pub use commands::{Command, Found, stream_laws};
pub use faults::WireFault;
pub use lines::{Layer, Line, line_laws};
