// Lines written as text, and a whole list as text.
#![tactic(auto)]

mod fields;
mod list;
mod text;
mod writer;

pub use list::list_text;
pub use writer::write_line;
