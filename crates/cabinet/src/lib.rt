// A show over any queue of telegrams, in its stages (docs/SHOW.md).
#![tactic(auto)]

pub mod rigged;
pub mod running;
