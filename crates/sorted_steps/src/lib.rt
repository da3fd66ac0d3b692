// How a newcomer comes in among cells of which the first `held` hold a record. Of the free cells only
// the first is looked at, and only by a put, which fills it. Slices that are lent carry neither the count
// nor how they stand: the queue that lends them has both in its type.
#![tactic(auto)]

ghost use Rattle.std.specs.Prelude.{◌≡◌, ◌-◌, ◌<◌, length, slice_index_or};
ghost use Rattle.queues.specs.Cells.{Counted};
ghost use Rattle.standing.specs.Lines.{Ascends, put_cells, exchange_cells};

use cells::{replace_first, replace_last};
use records::record::Record;

// Drops the last cell, sets x among the others, and answers what was dropped.
pub fn set_for_last<R: Record>(cells: &mut [R], held: usize, x: R) -> R
    requires some { 0 < length cells.old }
    requires ascending { Ascends R.Record.order R.Record.last cells.old }
    requires counted { Counted R.Record.order R.Record.last cells.old held }
    ensures cells { cells.new ≡ put_cells R.Record.order x cells.old }
    ensures out { result ≡ slice_index_or cells.old (length cells.old - 1) R.Record.last }
{
    let end = held.saturating_add(1).min(cells.len());
    replace_last(&mut cells[..end], x)
}

// Drops the first record, sets x among the others, and answers what was dropped.
pub fn set_for_first<R: Record>(cells: &mut [R], held: usize, x: R) -> R
    requires some { 0 < held }
    requires ascending { Ascends R.Record.order R.Record.last cells.old }
    requires counted { Counted R.Record.order R.Record.last cells.old held }
    ensures cells { cells.new ≡ exchange_cells R.Record.order x cells.old }
    ensures out { result ≡ slice_index_or cells.old 0 R.Record.last }
{
    replace_first(&mut cells[..held], x)
}
