ghost use Rattle.std.specs.Prelude.{◌≡◌, ◌<◌, length, IfOk};
ghost use Rattle.runs.specs.Lists.{longest, Lists};
ghost use Rattle.streams.specs.Stages.{limits_at};

use super::Listed;
use crate::play::play;
use crate::playing::Playing;
use queues::queue::Queue;
use records::reading::Reading;
use records::telegram::Telegram;
use runs::fault::{Placed, StreamFault};
use std::alloc::{AllocError, Global};
use wire::lines::Line;

// The most bytes that a stream may have.
const LONGEST: usize = 65_536;

// Runs the commands of a stream over a show with this queue and a panel with these readings, and
// lists what they print. Refuses a stream of more than 65,536 bytes (18), which reads none of it and
// leaves both queues as they were. The memory of the list is all that may be wanting, before anything
// is done.
pub fn run<Q: Queue<Telegram> + Drop, P: Queue<Reading> + Drop>(
    heap: Global,
    bytes: &[u8],
    queue: Q,
    readings: P,
) -> Result<Listed<Q, P>, AllocError>
    ensures lists { IfOk result (λ x. Lists (limits_at Q.Queue.room Q.Queue.slack queue) (limits_at P.Queue.room P.Queue.slack readings) bytes.now (Q.Queue.held queue) (P.Queue.held readings) x.lines.items (Q.Queue.held x.queue) (P.Queue.held x.readings)) }
    ensures limits { IfOk result (λ x. (limits_at Q.Queue.room Q.Queue.slack x.queue ≡ limits_at Q.Queue.room Q.Queue.slack queue) × (limits_at P.Queue.room P.Queue.slack x.readings ≡ limits_at P.Queue.room P.Queue.slack readings)) }
    ensures untouched { IfOk result (λ x. (longest < length bytes.now → (x.queue ≡ queue) × (x.readings ≡ readings))) }
{
    if bytes.len() > LONGEST {
        let mut lines = Vec::with_capacity(heap, 2)?;
        lines.push_reserved(Line::Heading);
        let placed = Placed {
            fault: StreamFault::Long,
            place: 65_536,
        };
        lines.push_reserved(placed.line());
        return Ok(Listed {
            lines,
            queue,
            readings,
        });
    }
    let playing = Playing::new(heap, bytes, readings)?;
    Ok(play(playing, queue))
}
