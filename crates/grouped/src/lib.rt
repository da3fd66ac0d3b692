// The grouped queue: groups of cells that all change together in a step (docs/QUEUES.md).
#![tactic(auto)]

mod calls;

ghost use Rattle.std.specs.Prelude.{◌≡◌, ◌*◌, replicate, vec_items};
ghost use Rattle.queues.specs.Cells.{Counted};
ghost use Rattle.standing.specs.Facts.{Ascends, Staggers, Packs};

use cells::blank_all;
use records::record::Record;
use shapes::GroupCells;

// A grouped queue of any kind of record. Each group ascends, all of a group but its last stand no
// later than the first of the next, and no blank stands before a record of a later group.
#[derive(Drop)]
pub struct Groups<R: Record> {
    over: GroupCells<R>,
    // how many records the cells hold: free cells may stand in any group, so no length tells
    held: usize,
    ghost ascends: { Ascends R.Record.order R.Record.last over.shape.groups over.shape.size (vec_items over.cells) },
    ghost staggers: { Staggers R.Record.order R.Record.last over.shape.groups over.shape.size (vec_items over.cells) },
    ghost packs: { Packs R.Record.order R.Record.last over.shape.groups over.shape.size (vec_items over.cells) },
    ghost counts: { Counted R.Record.order R.Record.last (vec_items over.cells) held },
}

impl<R: Record> Groups<R> {
    ghost use Rattle.grouped.specs.Queues.{cells_of};

    // Blanks the cells: nothing is held.
    pub fn new(mut over: GroupCells<R>) -> Groups<R>
        ensures cells { cells_of result ≡ replicate (over.shape.groups * over.shape.size) R.Record.last }
        ensures groups { result.over.shape.groups ≡ over.shape.groups }
        ensures size { result.over.shape.size ≡ over.shape.size }
    {
        blank_all(&mut over.cells);
        Groups { over, held: 0 }
    }

    // The cells as they stand, the first group's first.
    pub fn cells(&self) -> &[R]
        ensures { result.now ≡ cells_of self.now }
    {
        &self.over.cells
    }

    // Hands the cells back.
    pub fn into_cells(self) -> Vec<R>
        ensures { result ≡ self.over.cells }
    {
        self.over.cells
    }
}
