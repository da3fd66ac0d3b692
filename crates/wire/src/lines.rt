// The lines of a release list.
mod laws;

pub use buffers::layers::Layer;
pub use laws::line_laws;

// A line of a release list (docs/LIST.md).
#[derive(Clone, Copy, PartialEq, Eq, Debug)]
pub enum Line {
    // the first line of a list
    Heading,
    // a telegram to a row was accepted under a number, to be released at a time in ticks of one microsecond
    Accepted {
        number: u32,
        row: u8,
        release: u64,
    },
    // a telegram was displaced
    Displaced {
        number: u32,
        row: u8,
    },
    // a telegram departed at a time in ticks
    Departed {
        number: u32,
        row: u8,
        at: u64,
    },
    // the figure that the panel shows: a position in millimetres
    Figure(i32),
    // the counts at the end of a show
    Totals {
        accepted: u32,
        departed: u32,
        displaced: u32,
        held: u32,
    },
    // a command was refused: the number of the refusal, its layer, and the place of the command in the stream, in bytes from 0
    Refused {
        number: u8,
        layer: Layer,
        place: u32,
    },
}
