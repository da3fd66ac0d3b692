// The release list of a hall cabinet: its queues, the run of a stream over them, and the text (docs/LIST.md).
#![tactic(auto)]

mod empty;
mod source;
mod text;

pub use source::list_from;
pub use text::list_of;
