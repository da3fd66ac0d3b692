mod numbers;

use thiserror::Error;

// Why a queue refuses, with the number under which that is reported (docs/REFUSALS.md).
#[derive(Clone, Copy, PartialEq, Eq, Debug, Error)]
pub enum QueueFault {
    #[error("nothing is held")]
    Empty = 8,
    #[error("the record is the blank")]
    Blank = 11,
    #[error("the cells do not have the shape that is asked for")]
    Shape = 12,
}
