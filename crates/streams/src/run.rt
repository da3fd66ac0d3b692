// The run of a stream.
mod whole;

pub use whole::run;
use wire::lines::Line;

// What a run leaves: its release list, and the queues with what they still hold.
#[derive(Drop)]
pub struct Listed<Q, P> {
    // the heading first
    pub lines: Vec<Line>,
    // the show's
    pub queue: Q,
    // the panel's
    pub readings: P,
}
