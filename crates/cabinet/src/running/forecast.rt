ghost use Rattle.std.specs.Prelude.{◌≡◌};
ghost use Rattle.shows.specs.Calls.{Forecasts};
ghost use Rattle.shows.specs.Histories.{forecast};
ghost use Rattle.cabinet.specs.States.{state_of, limits_of, Extends};

use super::RunningShow;
use queues::queue::Queue;
use records::telegram::Telegram;
use shows::fault::{ForecastFault, ShowFault};
use slots::trial::tell;

impl<Q: Queue<Telegram>> RunningShow<Q> {
    // Writes into `times` the ticks at which telegrams of these lengths to a row would be released, if
    // they were admitted one after another at a tick, and answers how many. Nothing of the show changes.
    // Refuses fewer times than lengths (17), a bad time (1), a row that is not set (2), and then at the
    // place of the first such length a bad length (3) or a row that would be busy past the last tick (5).
    pub fn forecast(
        &mut self,
        at: u64,
        row: u8,
        lengths: &[u16],
        times: &mut [u64],
    ) -> Result<usize, ForecastFault>
        ensures step { Forecasts (state_of Q.Queue.held self.old) at row lengths.now times.old result times.new (state_of Q.Queue.held self.new) }
        ensures stays { self.new ≡ self.old }
        ensures history { Extends (limits_of Q.Queue.room Q.Queue.slack self.old) (state_of Q.Queue.held self.old) (forecast at row lengths.now times.old result times.new) (state_of Q.Queue.held self.new) }
    {
        if times.len() < lengths.len() {
            return Err(ShowFault::Times.into());
        }
        if self.book.bad_time(at) {
            return Err(ShowFault::Time.into());
        }
        // tested here and lent by its number: the check learns nothing of an array that was lent and left at a `?`
        let _found = self.book.find_row(row).ok_or(ShowFault::Row)?;
        let lent = &mut self.book.rows[usize::from(row)];
        tell(lent, at, lengths, times)
    }
}
