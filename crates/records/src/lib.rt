// Record kinds: what a queue holds. Values in a fixed total order, with a blank that stands last (docs/QUEUES.md).
#![tactic(auto)]

pub mod reading;
pub mod record;
pub mod telegram;
