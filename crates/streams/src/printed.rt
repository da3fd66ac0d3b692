// What a command answers, and the lines that it prints.
use runs::fault::StreamFault;
use wire::lines::Line;

// The lines of a command that is done. They are a value, and not pushed where they arise, so that no part
// of a run has to ask that the list has room.
#[derive(Clone, Copy)]
pub(crate) enum Printed {
    Nothing,
    One(Line),
    Two(Line, Line),
}

// What a command answers: its lines, or why it is refused.
pub(crate) type Answer = Result<Printed, StreamFault>;
