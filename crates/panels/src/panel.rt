mod fault;

ghost use Rattle.std.specs.Prelude.{◌≡◌, false, is_ok};
ghost use Rattle.panels.specs.Panels.{within_reach, in_bounds, Offers, Shows};

pub use fault::PanelFault;
use queues::queue::Queue;
use records::reading::Reading;

// A panel over a queue of readings: it shows the position of the row that is farthest from its target.
pub struct Panel<Q> {
    queue: Q,
}

// Whether a position or target, in millimetres, lies in the hall.
fn is_within_reach(x: i32) -> bool
    ensures { result ≡ within_reach x }
{
    (-20_000..=20_000).contains(&x)
}

// Whether a reading is of one of the 64 rows, with its position and target in the hall.
fn is_in_bounds(reading: &Reading) -> bool
    ensures { result ≡ in_bounds reading.now }
{
    reading.row <= 63 && is_within_reach(reading.position) && is_within_reach(reading.target)
}

impl<Q: Queue<Reading>> Panel<Q> {
    // A panel over a queue, with what it holds.
    pub fn new(queue: Q) -> Panel<Q>
        ensures { result.queue ≡ queue }
    {
        Panel { queue }
    }

    // Takes a reading in, and answers the one that left for it. Refuses one out of bounds (16).
    pub fn offer(&mut self, reading: Reading) -> Result<Option<Reading>, PanelFault>
        ensures offers { Offers Q.Queue.held Q.Queue.room Q.Queue.slack self.old.queue reading result self.new.queue }
        ensures stays { is_ok result ≡ false → self.new ≡ self.old }
    {
        if !is_in_bounds(&reading) {
            return Err(PanelFault::Reading);
        }
        let put = self.queue.put(reading)?;
        Ok(put.displaced())
    }

    // Takes the first reading out and answers its position, in millimetres. Refuses where there is
    // none (8, the queue's own).
    pub fn show(&mut self) -> Result<i32, PanelFault>
        ensures shows { Shows Q.Queue.held Q.Queue.room Q.Queue.slack self.old.queue result self.new.queue }
        ensures stays { is_ok result ≡ false → self.new ≡ self.old }
    {
        let reading = self.queue.take()?;
        Ok(reading.position)
    }

    // The queue, with what it still holds.
    pub fn into_queue(self) -> Q
        ensures { result ≡ self.queue }
    {
        let Panel { queue } = self;
        queue
    }
}
