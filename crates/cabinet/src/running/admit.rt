ghost use Rattle.std.specs.Prelude.{◌≡◌, false, is_ok};
ghost use Rattle.shows.specs.Calls.{Admits, counted};
ghost use Rattle.shows.specs.Histories.{admit};
ghost use Rattle.cabinet.specs.States.{state_of, limits_of, Extends};

use super::enter::stamp;
use super::{RunningShow, one_more};
use queues::queue::Queue;
use records::telegram::Telegram;
use shows::answer::Admission;
use shows::fault::ShowFault;
use shows::request::Request;

// The displaced telegrams, with this one.
fn count_displaced(displaced: Option<Telegram>, count: u32) -> u32
    ensures { result ≡ counted displaced count }
{
    displaced.map_or(count, |_telegram| one_more(count))
}

impl<Q: Queue<Telegram>> RunningShow<Q> {
    // Takes a telegram in at a tick. Refuses a bad time (1), a row that is
    // not set (2), a bad length (3), the telegram past the last number (4), a row that would be busy
    // past the last tick (5), and a row too far ahead for the zone (6 yellow, 7 red).
    pub fn admit(&mut self, at: u64, request: Request) -> Result<Admission, ShowFault>
        ensures step { Admits (limits_of Q.Queue.room Q.Queue.slack self.old) (state_of Q.Queue.held self.old) at request.row request.length request.handle result (state_of Q.Queue.held self.new) }
        ensures stays { is_ok result ≡ false → self.new ≡ self.old }
        ensures limits { limits_of Q.Queue.room Q.Queue.slack self.new ≡ limits_of Q.Queue.room Q.Queue.slack self.old }
        ensures history { Extends (limits_of Q.Queue.room Q.Queue.slack self.old) (state_of Q.Queue.held self.old) (admit at request.row request.length request.handle result) (state_of Q.Queue.held self.new) }
    {
        let slot = self.passes(at, request)?;
        let telegram = stamp(slot.release, self.book.accepted, request);
        let put = self.queue.put(telegram)?;
        let displaced = put.displaced();
        self.move_on(at, request.row, slot.after);
        self.displaced = count_displaced(displaced, self.displaced);
        Ok(Admission {
            telegram,
            displaced,
        })
    }
}
