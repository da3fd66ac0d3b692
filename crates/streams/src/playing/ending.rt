ghost use Rattle.std.specs.Prelude.{◌≡◌, ◌++◌};
ghost use Rattle.streams.specs.Playing.{last_lines};

use super::Playing;
use crate::run::Listed;
use queues::queue::Queue;
use records::reading::Reading;
use runs::fault::{Placed, StreamFault};
use wire::faults::WireFault;

impl<'a, P: Queue<Reading>> Playing<'a, P> {
    // What the run leaves at its end, before bytes that are no command or where no byte is left. The bytes
    // are tested before the stage: a command that is cut off is so in every stage.
    pub(crate) fn finish<Q>(self, fault: Option<WireFault>, queue: Q) -> Listed<Q, P>
        ensures lines { result.lines.items ≡ self.entry.lines.items ++ last_lines self.entry.place fault }
        ensures queue { result.queue ≡ queue }
        ensures readings { result.readings ≡ self.entry.panel.queue }
    {
        let Playing {
            bytes: _bytes,
            place,
            panel,
            mut lines,
        } = self;
        // no place is past 65,536, so the cast loses nothing
        if let Some(fault) = fault {
            let placed = Placed {
                fault: StreamFault::from(fault),
                place: place as u32,
            };
            lines.push_reserved(placed.line());
        }
        let readings = panel.into_queue();
        Listed {
            lines,
            queue,
            readings,
        }
    }
}
