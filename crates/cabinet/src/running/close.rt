ghost use Rattle.std.specs.Prelude.{◌≡◌, List};
ghost use Rattle.shows.specs.Accounts.{Accounts, report_of};
ghost use Rattle.shows.specs.Histories.{Setting, Entry, History};
ghost use Rattle.cabinet.specs.States.{state_of, limits_of};

use super::RunningShow;
use queues::queue::Queue;
use records::telegram::Telegram;
use shows::answer::Report;

impl<Q: Queue<Telegram>> RunningShow<Q> {
    // Ends the show: its report, and its queue with what it still holds. Whatever the settings and
    // the calls that led here, the report and the queue account for every telegram.
    pub fn close(self) -> (Report, Q)
        ensures report { result.0 ≡ report_of (state_of Q.Queue.held self) }
        ensures queue { result.1 ≡ self.queue }
        ensures law { (settings : List Setting) (es : List Entry) → History (limits_of Q.Queue.room Q.Queue.slack self) settings es (state_of Q.Queue.held self) → Accounts (limits_of Q.Queue.room Q.Queue.slack self) settings es (state_of Q.Queue.held self) result.0 }
    {
        let RunningShow {
            book,
            departed,
            displaced,
            queue,
        } = self;
        let held = queue.len();
        let report = Report {
            accepted: book.accepted,
            departed,
            displaced,
            held,
        };
        (report, queue)
    }
}
