// The queues of the cabinet, empty.
ghost use Rattle.std.specs.Prelude.{◌≡◌, ◌*◌, [], replicate, IfOk};
ghost use Rattle.standing.specs.Shapes.{Fits};
ghost use Rattle.grouped.specs.Queues.{cells_of};
ghost use Rattle.listing.specs.Cells.{EmptyTelegrams, EmptyReadings};

use grouped::Groups;
use reading_queues::ReadingGroups;
use records::record::Record;
use records::telegram::Telegram;
use shapes::GroupCells;
use sides::SideCell;
use std::alloc::{AllocError, Global};
use telegram_queues::TelegramGroups;

// A grouped queue of so many groups of so many cells each, which holds nothing.
fn free<R: Record + Drop>(heap: Global, groups: usize, size: usize) -> Result<Groups<R>, AllocError>
    requires { Fits groups size (groups * size) }
    ensures { IfOk result (λ q. (cells_of q ≡ replicate (groups * size) R.Record.last) × (q.over.shape.groups ≡ groups) × (q.over.shape.size ≡ size)) }
{
    let cells = vec![in heap; R::blank(); groups * size]?;
    // the shape fits, so there is no refusal to hand on
    let Ok(over) = GroupCells::new(cells, groups, size) else {
        unreachable()
    };
    Ok(Groups::new(over))
}

// The show's queue: a side cell over 8 groups of 4 telegrams.
pub(crate) fn telegrams(heap: Global) -> Result<SideCell<Telegram, TelegramGroups>, AllocError>
    ensures { IfOk result EmptyTelegrams }
{
    Ok(SideCell::new(free(heap, 8, 4)?))
}

// The panel's queue: 4 groups of 2 readings.
pub(crate) fn readings(heap: Global) -> Result<ReadingGroups, AllocError>
    ensures { IfOk result EmptyReadings }
{
    free(heap, 4, 2)
}
