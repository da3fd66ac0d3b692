// A panel over any queue of readings (docs/SHOW.md).
#![tactic(auto)]

pub mod panel;
