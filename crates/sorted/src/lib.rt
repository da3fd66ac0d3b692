// The sorted queue of any record kind: cells that stand ascending, the free ones last (docs/QUEUES.md).
#![tactic(auto)]

mod calls;

ghost use Rattle.std.specs.Prelude.{◌≡◌, replicate, vec_items, vec_len};
ghost use Rattle.queues.specs.Cells.{Counted};
ghost use Rattle.standing.specs.Lines.{Ascends};

use cells::blank_all;
use records::record::Record;
use shapes::SortedCells;

// A sorted queue: its cells ascend, the free ones last. A grouped queue has the same calls over other steps
// and other facts of how cells stand: a trait of steps with laws for both would be longer than the two.
#[derive(Drop)]
pub struct Sorted<R: Record> {
    over: SortedCells<R>,
    // how many hold a record: cells are handed in and had back and never grow, so the free ones stand
    // among them
    held: usize,
    ghost ascending: { Ascends R.Record.order R.Record.last (vec_items over.cells) },
    ghost counted: { Counted R.Record.order R.Record.last (vec_items over.cells) held },
}

impl<R: Record> Sorted<R> {
    // Nothing is held: every cell is blanked.
    pub fn new(mut over: SortedCells<R>) -> Sorted<R>
        ensures cells { vec_items result.over.cells ≡ replicate (vec_len over.cells) R.Record.last }
    {
        blank_all(&mut over.cells);
        Sorted { over, held: 0 }
    }

    // The cells as they stand, the free ones last.
    pub fn cells(&self) -> &[R]
        ensures { result.now ≡ vec_items self.now.over.cells }
    {
        &self.over.cells
    }

    // Hands the cells back.
    pub fn into_cells(self) -> Vec<R>
        ensures { result ≡ self.over.cells }
    {
        self.over.cells
    }
}
