ghost use Rattle.std.specs.Prelude.{◌≡◌, is_ok, if◌then◌else◌};
ghost use Rattle.queues.specs.Queues.{Puts, Takes, Exchanges};
ghost use Rattle.queues.specs.Cells.{put_answer, take_answer, exchange_answer};
ghost use Rattle.standing.specs.Lines.{put_cells, take_cells, exchange_cells};
ghost use Rattle.sorted.specs.Lines.{sorted_cells, first_cell, last_cell, sorted_held, sorted_room, sorted_slack};
ghost use Rattle.sorted.specs.LinesLemmas.{sorted_lawful};

use crate::Sorted;
use queues::fault::QueueFault;
use queues::queue::{Put, Queue};
use records::record::{Record, is_blank};
use sorted_steps::{set_for_first, set_for_last};

// The calls of a queue. The first `held` cells hold a record.
impl<R: Record> Queue<R> for Sorted<R> {
    ghost held = { sorted_held };

    ghost room = { sorted_room };

    ghost slack = { sorted_slack };

    ghost lawful = { sorted_lawful R.Record.linear };

    fn put(&mut self, x: R) -> Result<Put<R>, QueueFault>
        ensures puts { Puts R.Record.order R.Record.last sorted_held sorted_room sorted_slack self.old x result self.new }
        ensures answer { result ≡ put_answer R.Record.order R.Record.last x (last_cell self.old) }
        ensures cells { sorted_cells self.new ≡ (if is_ok result then put_cells R.Record.order x (sorted_cells self.old) else sorted_cells self.old) }
    {
        if is_blank(&x) {
            return Err(QueueFault::Blank);
        }
        let out = set_for_last(&mut self.over.cells, self.held, x);
        if is_blank(&out) {
            self.held += 1;
            return Ok(Put::Kept);
        }
        Ok(Put::Displaced(out))
    }

    fn take(&mut self) -> Result<R, QueueFault>
        ensures takes { Takes sorted_held sorted_room sorted_slack self.old result self.new }
        ensures answer { result ≡ take_answer R.Record.order R.Record.last (first_cell self.old) }
        ensures cells { sorted_cells self.new ≡ (if is_ok result then take_cells R.Record.last (sorted_cells self.old) else sorted_cells self.old) }
    {
        if self.held == 0 {
            return Err(QueueFault::Empty);
        }
        let out = set_for_first(&mut self.over.cells, self.held, R::blank());
        self.held -= 1;
        Ok(out)
    }

    fn exchange(&mut self, newcomer: R) -> Result<R, QueueFault>
        ensures exchanges { Exchanges R.Record.order R.Record.last sorted_held sorted_room sorted_slack self.old newcomer result self.new }
        ensures answer { result ≡ exchange_answer R.Record.order R.Record.last newcomer (first_cell self.old) }
        ensures cells { sorted_cells self.new ≡ (if is_ok result then exchange_cells R.Record.order newcomer (sorted_cells self.old) else sorted_cells self.old) }
    {
        if is_blank(&newcomer) {
            return Err(QueueFault::Blank);
        }
        if self.held == 0 {
            return Err(QueueFault::Empty);
        }
        Ok(set_for_first(&mut self.over.cells, self.held, newcomer))
    }

    fn first(&self) -> Option<R> {
        self.over.cells[..self.held].first().copied()
    }

    fn is_full(&self) -> bool {
        self.held == self.over.cells.len()
    }

    // There are at most 4,096 cells, so no cast loses anything: `try_from` would answer an error that cannot come.
    fn len(&self) -> u32 {
        self.held as u32
    }

    fn capacity(&self) -> u32 {
        self.over.cells.len() as u32
    }
}
