// A stream that is not too long, stage by stage to its end.
ghost use Rattle.std.specs.Prelude.{◌≡◌};
ghost use Rattle.shows.specs.Calls.{State};
ghost use Rattle.shows.specs.Histories.{unset_rows};
ghost use Rattle.cabinet.specs.States.{state_of, limits_of};
ghost use Rattle.runs.specs.Events.{totals_line};
ghost use Rattle.runs.specs.Runs.{rigging, running};
ghost use Rattle.streams.specs.Stages.{limits_at, closed_of};
ghost use Rattle.streams.specs.Playing.{Leaves};

use crate::closed::ClosedShow;
use crate::playing::Playing;
use crate::printed::Printed;
use crate::run::Listed;
use cabinet::rigged::RiggedShow;
use cabinet::running::RunningShow;
use queues::queue::Queue;
use records::reading::Reading;
use records::telegram::Telegram;
use shows::answer::Report;
use wire::lines::Line;

// The line of a report.
fn totals(report: Report) -> Line
    ensures { result ≡ totals_line report }
{
    Line::Totals {
        accepted: report.accepted,
        departed: report.departed,
        displaced: report.displaced,
        held: report.held,
    }
}

// The stream from the close of the show on.
fn outlast<Q: Queue<Telegram>, P: Queue<Reading>>(
    mut playing: Playing<P>,
    mut show: ClosedShow<Q>,
) -> Listed<Q, P>
    ensures { (s : State) → Leaves Q.Queue.held Q.Queue.room Q.Queue.slack P.Queue.held P.Queue.room P.Queue.slack (limits_at Q.Queue.room Q.Queue.slack show.queue) playing.entry (closed_of Q.Queue.held show s) result }
{
    let Err(fault) = playing.stage(&mut show) else {
        unreachable()
    };
    let ClosedShow { queue } = show;
    playing.finish(fault, queue)
}

// The stream from the start of the show on. A show that is still running at the end is closed
// without a line.
fn play_on<Q: Queue<Telegram>, P: Queue<Reading>>(
    mut playing: Playing<P>,
    mut show: RunningShow<Q>,
) -> Listed<Q, P>
    ensures { Leaves Q.Queue.held Q.Queue.room Q.Queue.slack P.Queue.held P.Queue.room P.Queue.slack (limits_of Q.Queue.room Q.Queue.slack show) playing.entry (running (state_of Q.Queue.held show)) result }
{
    let ended = playing.stage(&mut show);
    let (report, queue) = show.close();
    // a show cannot be let go, so it is closed before the ways part, and no `?` leaves it behind
    match ended {
        Ok(found) => {
            playing.go_on(found, Ok(Printed::One(totals(report))));
            outlast(playing, ClosedShow { queue })
        }
        Err(fault) => playing.finish(fault, queue),
    }
}

// The whole stream, with the queue of a show that is to be rigged.
pub(crate) fn play<Q: Queue<Telegram>, P: Queue<Reading>>(
    mut playing: Playing<P>,
    queue: Q,
) -> Listed<Q, P>
    ensures { Leaves Q.Queue.held Q.Queue.room Q.Queue.slack P.Queue.held P.Queue.room P.Queue.slack (limits_at Q.Queue.room Q.Queue.slack queue) playing.entry (rigging unset_rows (Q.Queue.held queue)) result }
{
    let mut show = RiggedShow::new(queue);
    let ended = playing.stage(&mut show);
    let started = show.start();
    // as above: the show goes on or is closed before anything is left
    match ended {
        Ok(found) => {
            playing.go_on(found, Ok(Printed::Nothing));
            play_on(playing, started)
        }
        Err(fault) => {
            let (_report, queue) = started.close();
            playing.finish(fault, queue)
        }
    }
}
