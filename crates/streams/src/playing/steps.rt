ghost use Rattle.std.specs.Prelude.{◌≡◌, ◌+◌, ◌++◌, Some, Ok};
ghost use Rattle.streams.specs.Places.{StandsAt};
ghost use Rattle.streams.specs.Printing.{lines_at};

use super::Playing;
use crate::printed::{Answer, Printed};
use commands::read;
use queues::queue::Queue;
use records::reading::Reading;
use runs::fault::Placed;
use wire::commands::Found;
use wire::faults::WireFault;

// Each stage has a loop of its own once it is compiled, and these are its steps: left as calls, they make a list of
// refusals take a quarter longer.
impl<'a, P: Queue<Reading>> Playing<'a, P> {
    // What stands where the stream is played to.
    #[inline(always)]
    pub(super) fn at(&self) -> Result<Option<Found>, WireFault>
        ensures { StandsAt self.now.bytes.now self.now.place result }
    {
        read(&self.bytes[self.place..])
    }

    // Lists what the command that stands here answers, and goes on past it. No place is past 65,536, so the cast
    // loses nothing.
    #[inline(always)]
    pub(crate) fn go_on(&mut self, found: Found, answer: Answer)
        requires stands { StandsAt self.old.bytes.now self.old.place (Ok (Some found)) }
        ensures bytes { self.new.bytes ≡ self.old.bytes }
        ensures place { self.new.place ≡ self.old.place + found.taken }
        ensures panel { self.new.panel ≡ self.old.panel }
        ensures lines { self.new.lines.items ≡ self.old.lines.items ++ lines_at self.old.place answer }
    {
        // four ways that share no step, so `map` and its like would say no less
        match answer {
            Ok(Printed::Nothing) => {}
            Ok(Printed::One(line)) => self.lines.push_reserved(line),
            Ok(Printed::Two(first, second)) => {
                self.lines.push_reserved(first);
                self.lines.push_reserved(second);
            }
            Err(fault) => {
                let placed = Placed {
                    fault,
                    place: self.place as u32,
                };
                self.lines.push_reserved(placed.line());
            }
        }
        self.place += found.taken;
    }
}
