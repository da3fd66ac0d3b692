// What a command stream does to a show and a panel: its events and runs, its release list, and the law of both
// (docs/STREAM.md, docs/LIST.md).
#![tactic(auto)]

pub mod fault;
pub mod law;
