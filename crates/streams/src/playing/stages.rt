ghost use Rattle.std.specs.Prelude.{◌≡◌};
ghost use Rattle.streams.specs.Playing.{PlayedOn, Halts};

use super::Playing;
use crate::stage::Stage;
use queues::queue::Queue;
use records::reading::Reading;
use wire::commands::Found;
use wire::faults::WireFault;

impl<'a, P: Queue<Reading>> Playing<'a, P> {
    // Plays the commands of a stage, up to the one that ends it. Where none leads on it answers why the
    // run is at its end: no byte is left (none), or bytes that are no command.
    pub(crate) fn stage<S: Stage>(&mut self, show: &mut S) -> Result<Found, Option<WireFault>>
        ensures on { PlayedOn P.Queue.held P.Queue.room P.Queue.slack (S.limits show.old) self.old (S.phase show.old) self.new (S.phase show.new) }
        ensures halts { Halts S.ending self.new.bytes.now self.new.place result }
        ensures limits { S.limits show.new ≡ S.limits show.old }
    {
        // a rule of the project: the loop has a label, and yields by `break` where and why the stage ended
        let ended = 'stage: loop {
            let found = match self.at() {
                Ok(Some(found)) => found,
                Ok(None) => break 'stage Err(None),
                Err(fault) => break 'stage Err(Some(fault)),
            };
            let Some(answer) = show.handle(&mut self.panel, found.command) else {
                break 'stage Ok(found);
            };
            self.go_on(found, answer);
        };
        ended
    }
}
