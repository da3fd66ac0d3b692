// A stream that is being played.
mod ending;
mod making;
mod stages;
mod steps;

ghost use Rattle.std.specs.Prelude.{◌+◌, ◌*◌, ◌≤◌, length, vec_len, vec_capacity};

use panels::panel::Panel;
use wire::lines::Line;

// A stream, how far it is played, and what it left so far of the panel and the list. The list has room
// for two lines for each byte that is left, and for two more.
pub(crate) struct Playing<'a, P> {
    // the whole stream
    bytes: &'a [u8],
    // where the next command stands, in bytes from 0: lines tell places, so the bytes are not cut
    place: usize,
    panel: Panel<P>,
    // the heading first
    lines: Vec<Line>,
    ghost short: { length bytes.now ≤ 65536 },
    ghost within: { place ≤ length bytes.now },
    ghost room: { vec_len lines + 2 * length bytes.now + 2 ≤ vec_capacity lines + 2 * place },
}
