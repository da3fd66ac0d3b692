ghost use Rattle.std.specs.Prelude.{◌≡◌, false, is_ok};
ghost use Rattle.shows.specs.Calls.{Trades};
ghost use Rattle.shows.specs.Histories.{exchange};
ghost use Rattle.cabinet.specs.States.{state_of, limits_of, Extends};

use super::enter::stamp;
use super::{RunningShow, one_more};
use queues::queue::Queue;
use records::telegram::Telegram;
use shows::answer::Exchange;
use shows::fault::ShowFault;
use shows::request::Request;

impl<Q: Queue<Telegram>> RunningShow<Q> {
    // Lets the first telegram depart and takes another in, at one tick. Refuses as an admit does, in
    // the zone before the departure, and then as a release does (8, 9).
    pub fn exchange(&mut self, at: u64, request: Request) -> Result<Exchange, ShowFault>
        ensures step { Trades (limits_of Q.Queue.room Q.Queue.slack self.old) (state_of Q.Queue.held self.old) at request.row request.length request.handle result (state_of Q.Queue.held self.new) }
        ensures stays { is_ok result ≡ false → self.new ≡ self.old }
        ensures limits { limits_of Q.Queue.room Q.Queue.slack self.new ≡ limits_of Q.Queue.room Q.Queue.slack self.old }
        ensures history { Extends (limits_of Q.Queue.room Q.Queue.slack self.old) (state_of Q.Queue.held self.old) (exchange at request.row request.length request.handle result) (state_of Q.Queue.held self.new) }
    {
        let slot = self.passes(at, request)?;
        if self.is_early(at) {
            return Err(ShowFault::Early);
        }
        let telegram = stamp(slot.release, self.book.accepted, request);
        let departed = self.queue.exchange(telegram)?;
        self.move_on(at, request.row, slot.after);
        self.departed = one_more(self.departed);
        Ok(Exchange { telegram, departed })
    }
}
