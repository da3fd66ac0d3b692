ghost use Rattle.std.specs.Prelude.{◌≡◌, vec_len, is_ok, if◌then◌else◌};
ghost use Rattle.queues.specs.Cells.{put_answer, take_answer, exchange_answer};
ghost use Rattle.queues.specs.Queues.{Puts, Takes, Exchanges};
ghost use Rattle.grouped.specs.Queues.{cells_of, first_cell, last_cell, after_put, after_take, after_exchange, groups_held, groups_room, groups_slack};
ghost use Rattle.grouped.specs.QueuesLemmas.{groups_lawful};

use crate::Groups;
use group_steps::{exchange_step, put_step, take_step};
use queues::fault::QueueFault;
use queues::queue::{Put, Queue};
use records::record::{Record, is_blank};

// The calls of a queue over groups of cells.
impl<R: Record> Queue<R> for Groups<R> {
    ghost held = { groups_held };

    ghost room = { groups_room };

    ghost slack = { groups_slack };

    ghost lawful = { λ q. groups_lawful R.Record.order R.Record.linear R.Record.last q.over.shape.groups q.over.shape.size (vec_len q.over.cells) (cells_of q) q.over.whole q.over.cells.ok.0 q.over.shape.some q.over.shape.two };

    // Where every cell holds a record, the last cell's leaves.
    fn put(&mut self, x: R) -> Result<Put<R>, QueueFault>
        ensures puts { Puts R.Record.order R.Record.last groups_held groups_room groups_slack self.old x result self.new }
        ensures answer { result ≡ put_answer R.Record.order R.Record.last x (last_cell self.old) }
        ensures cells { cells_of self.new ≡ (if is_ok result then after_put x self.old else cells_of self.old) }
    {
        if is_blank(&x) {
            return Err(QueueFault::Blank);
        }
        let out = put_step(&mut self.over.cells, self.over.shape, x);
        if is_blank(&out) {
            self.held += 1;
            return Ok(Put::Kept);
        }
        Ok(Put::Displaced(out))
    }

    fn take(&mut self) -> Result<R, QueueFault>
        ensures takes { Takes groups_held groups_room groups_slack self.old result self.new }
        ensures answer { result ≡ take_answer R.Record.order R.Record.last (first_cell self.old) }
        ensures cells { cells_of self.new ≡ (if is_ok result then after_take self.old else cells_of self.old) }
    {
        if is_blank(&self.over.cells[0]) {
            return Err(QueueFault::Empty);
        }
        let first = take_step(&mut self.over.cells, self.over.shape);
        self.held -= 1;
        Ok(first)
    }

    fn exchange(&mut self, newcomer: R) -> Result<R, QueueFault>
        ensures exchanges { Exchanges R.Record.order R.Record.last groups_held groups_room groups_slack self.old newcomer result self.new }
        ensures answer { result ≡ exchange_answer R.Record.order R.Record.last newcomer (first_cell self.old) }
        ensures cells { cells_of self.new ≡ (if is_ok result then after_exchange newcomer self.old else cells_of self.old) }
    {
        if is_blank(&newcomer) {
            return Err(QueueFault::Blank);
        }
        if is_blank(&self.over.cells[0]) {
            return Err(QueueFault::Empty);
        }
        Ok(exchange_step(&mut self.over.cells, self.over.shape, newcomer))
    }

    // There is always a first cell, so `filter` on it would be no plainer than the two cases.
    fn first(&self) -> Option<R> {
        let first = self.over.cells[0];
        if is_blank(&first) { None } else { Some(first) }
    }

    fn is_full(&self) -> bool {
        self.held == self.over.shape.cells()
    }

    // There are at most 4,096 cells, so no cast loses anything: `try_from` would answer an error that cannot come.
    fn len(&self) -> u32 {
        self.held as u32
    }

    fn capacity(&self) -> u32 {
        self.over.shape.cells() as u32
    }
}
