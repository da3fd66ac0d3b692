// The commands of a panel. They suit every stage of a show.
ghost use Rattle.std.specs.Prelude.{◌≡◌};
ghost use Rattle.shows.specs.Calls.{Limits, State};
ghost use Rattle.wire.specs.declared.commands.Command.TheVariants as commands;
ghost use Rattle.runs.specs.Runs.{Phase, closed, suits};
ghost use Rattle.streams.specs.Stages.{limits_at, Did};

use crate::printed::{Answer, Printed};
use panels::panel::Panel;
use queues::queue::Queue;
use records::reading::Reading;
use runs::fault::StreamFault;
use wire::commands::Command;
use wire::lines::Line;

// Offers a reading. What left the panel for it is not listed.
fn offer<P: Queue<Reading>>(panel: &mut Panel<P>, reading: Reading) -> Answer
    ensures did { (l : Limits) (phase : Phase) → Did l (limits_at P.Queue.room P.Queue.slack panel.old.queue) phase (P.Queue.held panel.old.queue) (commands.Reading reading.row reading.position reading.target) result phase (P.Queue.held panel.new.queue) }
    ensures limits { limits_at P.Queue.room P.Queue.slack panel.new.queue ≡ limits_at P.Queue.room P.Queue.slack panel.old.queue }
{
    let _left = panel.offer(reading)?;
    Ok(Printed::Nothing)
}

// Prints the figure of the first reading.
fn show_figure<P: Queue<Reading>>(panel: &mut Panel<P>) -> Answer
    ensures did { (l : Limits) (phase : Phase) → Did l (limits_at P.Queue.room P.Queue.slack panel.old.queue) phase (P.Queue.held panel.old.queue) commands.Show result phase (P.Queue.held panel.new.queue) }
    ensures limits { limits_at P.Queue.room P.Queue.slack panel.new.queue ≡ limits_at P.Queue.room P.Queue.slack panel.old.queue }
{
    let figure = panel.show()?;
    Ok(Printed::One(Line::Figure(figure)))
}

// One command to the panel. In a stage that has no use of its own for it, any other does not suit the
// stage.
#[inline(always)]
pub(crate) fn to_panel<P: Queue<Reading>>(panel: &mut Panel<P>, command: Command) -> Answer
    ensures did { (l : Limits) (phase : Phase) (s : State) → suits phase command ≡ suits (closed s) command → Did l (limits_at P.Queue.room P.Queue.slack panel.old.queue) phase (P.Queue.held panel.old.queue) command result phase (P.Queue.held panel.new.queue) }
    ensures limits { limits_at P.Queue.room P.Queue.slack panel.new.queue ≡ limits_at P.Queue.room P.Queue.slack panel.old.queue }
{
    // each command has operands of its own, which a match takes apart
    match command {
        Command::Reading {
            row,
            position,
            target,
        } => {
            let reading = Reading {
                row,
                position,
                target,
            };
            offer(panel, reading)
        }
        Command::Show => show_figure(panel),
        _ => Err(StreamFault::Stage),
    }
}
