// A show that is closed.
ghost use Rattle.std.specs.Prelude.{None};
ghost use Rattle.streams.specs.Stages.{limits_at, closed_of};

use crate::figures::to_panel;
use crate::printed::Answer;
use crate::stage::Stage;
use panels::panel::Panel;
use queues::queue::Queue;
use records::reading::Reading;
use records::telegram::Telegram;
use wire::commands::Command;

// Its queue, with what it still holds.
pub(crate) struct ClosedShow<Q> {
    pub(crate) queue: Q,
}

// No command ends this stage.
impl<Q: Queue<Telegram>> Stage for ClosedShow<Q> {
    ghost phase = { closed_of Q.Queue.held };

    ghost limits = { λ show. limits_at Q.Queue.room Q.Queue.slack show.queue };

    ghost ending = { None };

    fn handle<P: Queue<Reading>>(
        &mut self,
        panel: &mut Panel<P>,
        command: Command,
    ) -> Option<Answer> {
        Some(to_panel(panel, command))
    }
}
