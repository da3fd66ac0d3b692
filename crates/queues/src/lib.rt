// What a queue means (docs/QUEUES.md).
#![tactic(auto)]

pub mod fault;
pub mod queue;
