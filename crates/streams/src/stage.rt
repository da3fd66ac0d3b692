// What a stage of a show does by the commands of a stream.
ghost use Rattle.std.specs.Prelude.{◌≡◌, Option};
ghost use Rattle.shows.specs.Calls.{Limits, State};
ghost use Rattle.wire.specs.declared.commands.Command.{Command as ACommand};
ghost use Rattle.runs.specs.Runs.{Phase};
ghost use Rattle.streams.specs.Stages.{limits_at, Handles};

use crate::printed::Answer;
use panels::panel::Panel;
use queues::queue::Queue;
use records::reading::Reading;
use wire::commands::Command;

// A show in one of its stages.
pub(crate) trait Stage {
    // how far the show has come; what it no longer knows of its last state is given
    ghost phase: { Self → State → Phase };

    // what never changes of its queue
    ghost limits: { Self → Limits };

    // the command that ends the stage, where one does
    ghost ending: { Option ACommand };

    // One command, over the panel beside the show. The limits stay, which relates before and after, so that no fact of a
    // value can say it. None where it is the one that ends the stage: it is
    // left undone.
    fn handle<P: Queue<Reading>>(
        &mut self,
        panel: &mut Panel<P>,
        command: Command,
    ) -> Option<Answer>
        ensures handles { (s : State) → Handles ending (limits self.old) (limits_at P.Queue.room P.Queue.slack panel.old.queue) (phase self.old s) (P.Queue.held panel.old.queue) command result (phase self.new s) (P.Queue.held panel.new.queue) }
        ensures limits { limits self.new ≡ limits self.old }
        ensures panel { limits_at P.Queue.room P.Queue.slack panel.new.queue ≡ limits_at P.Queue.room P.Queue.slack panel.old.queue };
}
