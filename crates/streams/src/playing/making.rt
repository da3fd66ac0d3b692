ghost use Rattle.std.specs.Prelude.{◌≡◌, ◌≤◌, [], ◌∷◌, length, IfOk};
ghost use Rattle.wire.specs.declared.lines.Line.TheVariants.{Heading};

use super::Playing;
use panels::panel::Panel;
use queues::queue::Queue;
use records::reading::Reading;
use std::alloc::{AllocError, Global};
use wire::lines::Line;

impl<'a, P: Queue<Reading> + Drop> Playing<'a, P> {
    // A stream from its first byte on, with the memory for all lines of its list.
    pub(crate) fn new(
        heap: Global,
        bytes: &'a [u8],
        readings: P,
    ) -> Result<Playing<'a, P>, AllocError>
        requires short { length bytes.now ≤ 65536 }
        ensures { IfOk result (λ x. (x.bytes.now ≡ bytes.now) × (x.place ≡ 0) × (x.panel.queue ≡ readings) × (x.lines.items ≡ Heading ∷ [])) }
    {
        let mut lines = Vec::with_capacity(heap, 2 * bytes.len() + 3)?;
        lines.push_reserved(Line::Heading);
        let panel = Panel::new(readings);
        Ok(Playing {
            bytes,
            place: 0,
            panel,
            lines,
        })
    }
}
