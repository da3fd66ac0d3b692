// A telegram that is to enter.
ghost use Rattle.std.specs.Prelude.{◌≡◌};
ghost use Rattle.records.specs.Telegrams.{key};
ghost use Rattle.shows.specs.Calls.{zone_at};
ghost use Rattle.cabinet.specs.Entering.{Passes};
ghost use Rattle.cabinet.specs.States.{state_of, limits_of};

use super::RunningShow;
use queues::queue::Queue;
use records::telegram::Telegram;
use shows::fault::ShowFault;
use shows::request::Request;
use shows::zone::{Zone, zone_of};
use slots::slot::Slot;

// A telegram under its number, with its release.
pub(super) fn stamp(release: u64, number: u32, request: Request) -> Telegram
    ensures { key result ≡ (release, (number, (request.row, (request.length, request.handle)))) }
{
    Telegram {
        release,
        number,
        row: request.row,
        length: request.length,
        handle: request.handle,
    }
}

impl<Q: Queue<Telegram>> RunningShow<Q> {
    // How full the queue is before the call.
    fn zone(&self) -> Zone
        ensures { result ≡ zone_at (limits_of Q.Queue.room Q.Queue.slack self.now) (state_of Q.Queue.held self.now) }
    {
        zone_of(self.queue.len(), self.queue.capacity())
    }

    // The slot of a telegram that may enter, or the first test that refuses it.
    pub(super) fn passes(&self, at: u64, request: Request) -> Result<Slot, ShowFault>
        ensures { Passes (limits_of Q.Queue.room Q.Queue.slack self.now) (state_of Q.Queue.held self.now) at request.row request.length result }
    {
        self.book.slot_for(self.zone(), at, request)
    }
}
