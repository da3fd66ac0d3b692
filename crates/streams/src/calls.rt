// The commands of a show that runs.
ghost use Rattle.std.specs.Prelude.{◌≡◌, List, ◌∷◌, Some};
ghost use Rattle.records.specs.declared.reading.Reading.{Reading as AReading};
ghost use Rattle.shows.specs.Calls.{Limits};
ghost use Rattle.cabinet.specs.States.{state_of, limits_of};
ghost use Rattle.wire.specs.declared.commands.Command.TheVariants as commands;
ghost use Rattle.wire.specs.declared.lines.Line.TheVariants.{Departed};
ghost use Rattle.runs.specs.Events.{accepted_line, displaced_line};
ghost use Rattle.runs.specs.Runs.{running};
ghost use Rattle.streams.specs.Printing.{lines_in};
ghost use Rattle.streams.specs.Stages.{Did};

use crate::figures::to_panel;
use crate::printed::{Answer, Printed};
use crate::stage::Stage;
use cabinet::running::RunningShow;
use panels::panel::Panel;
use queues::queue::Queue;
use records::reading::Reading;
use records::telegram::Telegram;
use shows::answer::Admission;
use shows::request::Request;
use wire::commands::Command;
use wire::lines::Line;

// The line of an accepted telegram.
fn accepted(telegram: Telegram) -> Line
    ensures { result ≡ accepted_line telegram }
{
    Line::Accepted {
        number: telegram.number,
        row: telegram.row,
        release: telegram.release,
    }
}

// The line of a telegram that departs.
fn departed(telegram: Telegram, at: u64) -> Line
    ensures { result ≡ Departed telegram.number telegram.row at }
{
    Line::Departed {
        number: telegram.number,
        row: telegram.row,
        at,
    }
}

// The lines of an accepted admit: its telegram, then the one that it displaced. Each case is a variant of its own,
// so `map_or` would be no plainer.
impl From<Admission> for Printed {
    ghost from_gives = { λ admission printed. lines_in printed ≡ accepted_line admission.telegram ∷ displaced_line admission.displaced };

    fn from(admission: Admission) -> Printed {
        let line = accepted(admission.telegram);
        match admission.displaced {
            None => Printed::One(line),
            Some(other) => Printed::Two(
                line,
                Line::Displaced {
                    number: other.number,
                    row: other.row,
                },
            ),
        }
    }
}

fn admit<Q: Queue<Telegram>>(show: &mut RunningShow<Q>, at: u64, request: Request) -> Answer
    ensures did { (pl : Limits) (readings : List AReading) → Did (limits_of Q.Queue.room Q.Queue.slack show.old) pl (running (state_of Q.Queue.held show.old)) readings (commands.Admit at request.row request.length request.handle) result (running (state_of Q.Queue.held show.new)) readings }
    ensures limits { limits_of Q.Queue.room Q.Queue.slack show.new ≡ limits_of Q.Queue.room Q.Queue.slack show.old }
{
    let admission = show.admit(at, request)?;
    Ok(Printed::from(admission))
}

fn release<Q: Queue<Telegram>>(show: &mut RunningShow<Q>, at: u64) -> Answer
    ensures did { (pl : Limits) (readings : List AReading) → Did (limits_of Q.Queue.room Q.Queue.slack show.old) pl (running (state_of Q.Queue.held show.old)) readings (commands.Release at) result (running (state_of Q.Queue.held show.new)) readings }
    ensures limits { limits_of Q.Queue.room Q.Queue.slack show.new ≡ limits_of Q.Queue.room Q.Queue.slack show.old }
{
    let telegram = show.release(at)?;
    Ok(Printed::One(departed(telegram, at)))
}

fn exchange<Q: Queue<Telegram>>(show: &mut RunningShow<Q>, at: u64, request: Request) -> Answer
    ensures did { (pl : Limits) (readings : List AReading) → Did (limits_of Q.Queue.room Q.Queue.slack show.old) pl (running (state_of Q.Queue.held show.old)) readings (commands.Exchange at request.row request.length request.handle) result (running (state_of Q.Queue.held show.new)) readings }
    ensures limits { limits_of Q.Queue.room Q.Queue.slack show.new ≡ limits_of Q.Queue.room Q.Queue.slack show.old }
{
    let exchange = show.exchange(at, request)?;
    let departed = departed(exchange.departed, at);
    Ok(Printed::Two(departed, accepted(exchange.telegram)))
}

// The close ends this stage.
impl<Q: Queue<Telegram>> Stage for RunningShow<Q> {
    ghost phase = { λ show s. running (state_of Q.Queue.held show) };

    ghost limits = { limits_of Q.Queue.room Q.Queue.slack };

    ghost ending = { Some commands.Close };

    fn handle<P: Queue<Reading>>(
        &mut self,
        panel: &mut Panel<P>,
        command: Command,
    ) -> Option<Answer> {
        // each command has operands of its own, which a match takes apart
        match command {
            Command::Admit {
                at,
                row,
                length,
                handle,
            } => {
                let request = Request {
                    row,
                    length,
                    handle,
                };
                Some(admit(self, at, request))
            }
            Command::Release { at } => Some(release(self, at)),
            Command::Exchange {
                at,
                row,
                length,
                handle,
            } => {
                let request = Request {
                    row,
                    length,
                    handle,
                };
                Some(exchange(self, at, request))
            }
            Command::Close => None,
            other => Some(to_panel(panel, other)),
        }
    }
}
