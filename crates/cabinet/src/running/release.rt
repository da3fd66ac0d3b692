ghost use Rattle.std.specs.Prelude.{◌≡◌, false, is_ok};
ghost use Rattle.shows.specs.Calls.{Releases};
ghost use Rattle.shows.specs.Histories.{release};
ghost use Rattle.cabinet.specs.States.{state_of, limits_of, Extends};

use super::{RunningShow, one_more};
use queues::queue::Queue;
use records::telegram::Telegram;
use shows::fault::ShowFault;

impl<Q: Queue<Telegram>> RunningShow<Q> {
    // Lets the first telegram depart at a tick. Refuses a bad time (1), where nothing is held (8, the
    // queue's own), and where the first telegram is not due yet (9).
    pub fn release(&mut self, at: u64) -> Result<Telegram, ShowFault>
        ensures step { Releases (limits_of Q.Queue.room Q.Queue.slack self.old) (state_of Q.Queue.held self.old) at result (state_of Q.Queue.held self.new) }
        ensures stays { is_ok result ≡ false → self.new ≡ self.old }
        ensures limits { limits_of Q.Queue.room Q.Queue.slack self.new ≡ limits_of Q.Queue.room Q.Queue.slack self.old }
        ensures history { Extends (limits_of Q.Queue.room Q.Queue.slack self.old) (state_of Q.Queue.held self.old) (release at result) (state_of Q.Queue.held self.new) }
    {
        if self.book.bad_time(at) {
            return Err(ShowFault::Time);
        }
        if self.is_early(at) {
            return Err(ShowFault::Early);
        }
        let telegram = self.queue.take()?;
        self.book.clock = at;
        self.departed = one_more(self.departed);
        Ok(telegram)
    }
}
