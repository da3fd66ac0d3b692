// The commands of a show that is rigged.
ghost use Rattle.std.specs.Prelude.{◌≡◌, List, Some};
ghost use Rattle.records.specs.declared.reading.Reading.{Reading as AReading};
ghost use Rattle.shows.specs.Calls.{Limits};
ghost use Rattle.wire.specs.declared.commands.Command.TheVariants as commands;
ghost use Rattle.streams.specs.Stages.{limits_at, rigging_of, Did};

use crate::figures::to_panel;
use crate::printed::{Answer, Printed};
use crate::stage::Stage;
use cabinet::rigged::RiggedShow;
use panels::panel::Panel;
use queues::queue::Queue;
use records::reading::Reading;
use records::telegram::Telegram;
use runs::fault::StreamFault;
use shows::card::RowCard;
use shows::fault::ShowFault;
use wire::commands::Command;

// The last of the 64 rows.
const LAST: u8 = 63;

// Sets a row to a pace, in ticks a byte, and a burst, in ticks. The row is tested before the card.
fn set_row<Q: Queue<Telegram>>(show: &mut RiggedShow<Q>, row: u8, pace: u16, burst: u32) -> Answer
    ensures did { (l pl : Limits) (readings : List AReading) → Did l pl (rigging_of Q.Queue.held show.old) readings (commands.SetRow row pace burst) result (rigging_of Q.Queue.held show.new) readings }
    ensures queue { show.new.queue ≡ show.old.queue }
{
    if row > LAST {
        return Err(StreamFault::from(ShowFault::Row));
    }
    show.set(row, RowCard::new(pace, burst)?)?;
    Ok(Printed::Nothing)
}

// The start ends this stage.
impl<Q: Queue<Telegram>> Stage for RiggedShow<Q> {
    ghost phase = { λ show s. rigging_of Q.Queue.held show };

    ghost limits = { λ show. limits_at Q.Queue.room Q.Queue.slack show.queue };

    ghost ending = { Some commands.Start };

    fn handle<P: Queue<Reading>>(
        &mut self,
        panel: &mut Panel<P>,
        command: Command,
    ) -> Option<Answer> {
        // each command has operands of its own, which a match takes apart
        match command {
            Command::SetRow { row, pace, burst } => Some(set_row(self, row, pace, burst)),
            Command::Start => None,
            other => Some(to_panel(panel, other)),
        }
    }
}
