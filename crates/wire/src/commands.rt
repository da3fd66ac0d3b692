// The commands of a stream.
mod laws;

pub use laws::stream_laws;

// A command of a stream (docs/STREAM.md).
#[derive(Clone, Copy, PartialEq, Eq, Debug)]
pub enum Command {
    // sets a row to a pace, in ticks a byte, and a burst, in ticks; a tick is one microsecond
    SetRow {
        row: u8,
        pace: u16,
        burst: u32,
    },
    // starts the show
    Start,
    // admits a telegram of a length in bytes to a row, at a time in ticks; the handle is the caller's own
    Admit {
        at: u64,
        row: u8,
        length: u16,
        handle: u32,
    },
    // lets the first telegram out, at a time in ticks
    Release {
        at: u64,
    },
    // lets the first telegram out and admits another, at a time in ticks. It and `Admit` name their operands as
    // the format lists them: a struct of the four would put one more step into every match on a command.
    Exchange {
        at: u64,
        row: u8,
        length: u16,
        handle: u32,
    },
    // offers the panel a reading of a row: position and target in millimetres
    Reading {
        row: u8,
        position: i32,
        target: i32,
    },
    // shows the figure of the panel's first reading
    Show,
    // closes the show
    Close,
}

// A command at the front of bytes.
#[derive(Clone, Copy, PartialEq, Eq, Debug)]
pub struct Found {
    // what the bytes say
    pub command: Command,
    // how many bytes it takes, its command byte among them
    pub taken: usize,
}
