// Cells of a shape that a queue can be made from. Taking the cells and testing their shape is the first
// call of two: making a queue from what it passed refuses nothing (docs/QUEUES.md).
#![tactic(auto)]

mod groups;
mod shape;
mod sorted;

pub use groups::GroupCells;
pub use shape::Shape;
pub use sorted::SortedCells;
