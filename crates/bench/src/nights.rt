// An evening from rigging to close, over any queue of telegrams.
use cabinet::rigged::RiggedShow;
use queues::queue::Queue;
use records::telegram::Telegram;
use shows::answer::{Admission, Report};
use shows::card::RowCard;
use shows::fault::ShowFault;
use shows::request::Request;
use std::fmt;

// What a call of a show answered.
#[derive(Drop)]
pub(crate) enum Answer {
    Admit(Result<Admission, ShowFault>),
    Release(Result<Telegram, ShowFault>),
}

// Each kind of answer has words of its own, accepted or refused.
impl fmt::Display for Answer {
    fn fmt<W: fmt::Write>(&self, f: &mut fmt::Formatter<W>) -> fmt::Result {
        match self {
            Answer::Admit(Ok(admission)) => {
                let telegram = admission.telegram;
                write!(
                    f,
                    "admit: telegram {} is released at {}",
                    telegram.number, telegram.release
                )
            }
            Answer::Admit(Err(fault)) => write!(f, "admit: refused by {}", fault.number()),
            Answer::Release(Ok(telegram)) => write!(
                f,
                "release: telegram {} departs",
                telegram.number
            ),
            Answer::Release(Err(fault)) => write!(f, "release: refused by {}", fault.number()),
        }
    }
}

// What the calls of an evening answered. A show cannot be let go, so it is closed before anything is
// printed.
#[derive(Drop)]
pub(crate) struct Evening {
    // all of them, so no length stands beside
    answers: [Answer; 5],
    report: Report,
}

// The answers, one to a line.
impl fmt::Display for Evening {
    fn fmt<W: fmt::Write>(&self, f: &mut fmt::Formatter<W>) -> fmt::Result {
        for answer in self.answers.iter() {
            writeln!(f, "{answer}")?;
        }
        let report = self.report;
        writeln!(
            f,
            "close: accepted {}, departed {}, displaced {}, held {}",
            report.accepted, report.departed, report.displaced, report.held
        )
    }
}

// Row 5 at pace 20 and burst 3,000: two telegrams, and three releases of which one comes early.
pub(crate) fn play<Q: Queue<Telegram> + Drop>(card: RowCard, queue: Q) -> Evening {
    let mut rigged = RiggedShow::new(queue);
    let _ = rigged.set(5, card);
    let mut show = rigged.start();
    let first = Request {
        row: 5,
        length: 100,
        handle: 7,
    };
    let second = Request {
        row: 5,
        length: 64,
        handle: 8,
    };
    let answers = [
        Answer::Admit(show.admit(1000, first)),
        Answer::Admit(show.admit(1000, second)),
        Answer::Release(show.release(1000)),
        Answer::Release(show.release(2999)),
        Answer::Release(show.release(3000)),
    ];
    let (report, _queue) = show.close();
    Evening { answers, report }
}

// A row at pace 1: 64 bytes that are over with the last tick, and 64 bytes that would be over past it.
pub(crate) fn last_ticks<Q: Queue<Telegram> + Drop>(card: RowCard, queue: Q) -> [Answer; 2] {
    const LAST_TICK: u64 = 281_474_976_710_655;
    let mut rigged = RiggedShow::new(queue);
    let _ = rigged.set(0, card);
    let mut show = rigged.start();
    let request = Request {
        row: 0,
        length: 64,
        handle: 0,
    };
    let late = Answer::Admit(show.admit(LAST_TICK - 63, request));
    let in_time = Answer::Admit(show.admit(LAST_TICK - 64, request));
    let (_report, _queue) = show.close();
    [in_time, late]
}
