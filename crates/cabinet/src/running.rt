mod admit;
mod close;
mod enter;
mod exchange;
mod forecast;
mod release;

ghost use Rattle.std.specs.Prelude.{◌≡◌, ◌<◌};
ghost use Rattle.shows.specs.Calls.{early, one_more};
ghost use Rattle.cabinet.specs.States.{begun, moved_on};

use queues::queue::Queue;
use records::telegram::Telegram;
use shows::row::Row;
use slots::book::{Book, COUNT_LIMIT};

// A show that runs. It cannot be let go: it is closed. Each call has a clause `limits`, that the limits of
// the queue stay: it relates before and after, so no ghost field can say it.
pub struct RunningShow<Q> {
    // what it keeps of the telegrams that it accepted
    book: Book,
    // the telegrams departed and displaced, each at most 1,000,000
    departed: u32,
    displaced: u32,
    queue: Q,
}

impl<Q: Queue<Telegram>> RunningShow<Q> {
    // A show that has just started.
    pub(crate) fn begin(rows: [Row; 64], queue: Q) -> RunningShow<Q>
        ensures { result ≡ begun rows queue }
    {
        RunningShow {
            book: Book {
                clock: 0,
                accepted: 0,
                rows,
            },
            departed: 0,
            displaced: 0,
            queue,
        }
    }

    // Whether the first telegram held is not due at a tick.
    fn is_early(&self, at: u64) -> bool
        ensures { result ≡ early at (Q.Queue.held self.now.queue) }
    {
        self.queue.first().is_some_and(|first| at < first.release)
    }

    // Moves the clock, the count and the row of a telegram on.
    fn move_on(&mut self, at: u64, row: u8, after: Row)
        requires within { row < 64 }
        requires counted { self.old.book.accepted < 1000000 }
        ensures { self.new ≡ moved_on self.old at row after }
    {
        self.book.clock = at;
        self.book.accepted += 1;
        self.book.rows[usize::from(row)] = after;
    }
}

// A count with one more, up to where it stops.
fn one_more(count: u32) -> u32
    ensures { result ≡ one_more count }
{
    count.saturating_add(1).min(COUNT_LIMIT)
}
