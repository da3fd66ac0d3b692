mod numbers;

use queues::fault::QueueFault;
use thiserror::Error;

// Why a show refuses (docs/REFUSALS.md).
#[derive(Clone, Copy, PartialEq, Eq, Debug, Error)]
pub enum ShowFault {
    #[error("the time is below the clock or past the last tick")]
    Time,
    // in a setting, there is no such row
    #[error("the row is not set")]
    Row,
    #[error("the length is below 64 or above 1,518 bytes")]
    Length,
    #[error("1,000,000 telegrams are accepted already")]
    Count,
    #[error("the row would be busy past the last tick")]
    Overrun,
    #[error("yellow, and the row is further ahead than its burst")]
    Yellow,
    #[error("red, and the row is ahead")]
    Red,
    #[error("the queue refuses: {0}")]
    Queue(QueueFault),
    #[error("the first telegram is not due yet")]
    Early,
    #[error("pace or burst out of bounds")]
    Card,
    #[error("fewer times than lengths")]
    Times,
}

// Why a forecast is refused: as a whole, or by the length at a place.
#[derive(Clone, Copy, PartialEq, Eq, Debug)]
pub enum ForecastFault {
    // nothing is written
    Whole(ShowFault),
    // the times before the place, counted from 0, are written
    At { place: usize, fault: ShowFault },
}
