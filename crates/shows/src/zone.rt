mod fill;

pub use fill::zone_of;

// How full the queue is.
#[derive(Clone, Copy, PartialEq, Eq, Debug)]
pub enum Zone {
    Green,
    Yellow,
    Red,
}
