ghost use Rattle.std.specs.Prelude.{◌≡◌, None, IfSome};
ghost use Rattle.records.specs.Sorting.{Filled};
ghost use Rattle.queues.specs.Queues.{Puts, Takes, Exchanges};
ghost use Rattle.sides.specs.Sides.{side_held, side_room, side_slack, leader as leader_of, SidePuts, SideTakes, SideExchanges};
ghost use Rattle.sides.specs.SidesLemmas.{cell_lawful};

use crate::SideCell;
use queues::fault::QueueFault;
use queues::queue::{Put, Queue};
use records::record::{Record, is_blank};

impl<R: Record, Q: Queue<R>> SideCell<R, Q> {
    // A free cell beside a queue.
    pub fn new(below: Q) -> SideCell<R, Q>
        ensures cell { result.cell ≡ None }
        ensures below { result.below ≡ below }
    {
        SideCell { cell: None, below }
    }

    // The record in the cell, and the queue that it stands beside.
    pub fn into_parts(self) -> (Option<R>, Q)
        ensures cell { result.0 ≡ self.cell }
        ensures filled { IfSome result.0 (Filled R.Record.order R.Record.last) }
        ensures below { result.1 ≡ self.below }
    {
        let SideCell { cell, below } = self;
        (cell, below)
    }

    // The record of the cell, where it is the first of all: the cell's on a tie.
    fn leader(&self) -> Option<R>
        ensures { result ≡ leader_of R.Record.order self.now.cell (Q.Queue.held self.now.below) }
    {
        self.cell
            .filter(|c| self.below.first().is_none_or(|f| c.no_later(&f)))
    }
}

// A cell and a queue together are a queue.
impl<R: Record, Q: Queue<R>> Queue<R> for SideCell<R, Q> {
    ghost held = { side_held R.Record.order Q.Queue.held };

    ghost room = { side_room Q.Queue.room };

    ghost slack = { side_slack Q.Queue.slack };

    ghost lawful = { λ s. cell_lawful R.Record.order R.Record.last R.Record.linear s.cell s.filled (Q.Queue.held s.below) (Q.Queue.room s.below) (Q.Queue.slack s.below) (Q.Queue.lawful s.below) };

    #[tactic(auto, using(crate::specs::SidesLemmas::side_puts))]
    fn put(&mut self, x: R) -> Result<Put<R>, QueueFault>
        ensures puts { Puts R.Record.order R.Record.last (side_held R.Record.order Q.Queue.held) (side_room Q.Queue.room) (side_slack Q.Queue.slack) self.old x result self.new }
        ensures cell { SidePuts R.Record.order R.Record.last Q.Queue.held Q.Queue.room Q.Queue.slack self.old x result self.new }
    {
        if is_blank(&x) {
            return Err(QueueFault::Blank);
        }
        let Some(c) = self.cell else {
            self.cell = Some(x);
            return Ok(Put::Kept);
        };
        if c.no_later(&x) {
            self.below.put(x)
        } else {
            self.cell = Some(x);
            self.below.put(c)
        }
    }

    #[tactic(auto, using(crate::specs::SidesLemmas::side_takes))]
    fn take(&mut self) -> Result<R, QueueFault>
        ensures takes { Takes (side_held R.Record.order Q.Queue.held) (side_room Q.Queue.room) (side_slack Q.Queue.slack) self.old result self.new }
        ensures cell { SideTakes R.Record.order Q.Queue.held Q.Queue.room Q.Queue.slack self.old result self.new }
    {
        if let Some(first) = self.leader() {
            self.cell = None;
            return Ok(first);
        }
        self.below.take()
    }

    #[tactic(auto, using(crate::specs::SidesLemmas::side_exchanges))]
    fn exchange(&mut self, x: R) -> Result<R, QueueFault>
        ensures exchanges { Exchanges R.Record.order R.Record.last (side_held R.Record.order Q.Queue.held) (side_room Q.Queue.room) (side_slack Q.Queue.slack) self.old x result self.new }
        ensures cell { SideExchanges R.Record.order R.Record.last Q.Queue.held Q.Queue.room Q.Queue.slack self.old x result self.new }
    {
        if is_blank(&x) {
            return Err(QueueFault::Blank);
        }
        if let Some(first) = self.leader() {
            self.cell = Some(x);
            return Ok(first);
        }
        self.below.exchange(x)
    }

    fn first(&self) -> Option<R> {
        self.leader().or_else(|| self.below.first())
    }

    #[tactic(auto, using(crate::specs::SidesLemmas::length_with_cell))]
    fn is_full(&self) -> bool {
        self.cell.is_some() && self.below.is_full()
    }

    #[tactic(auto, using(crate::specs::SidesLemmas::length_with_cell))]
    fn len(&self) -> u32 {
        (self.below.len() + u32::from(self.cell.is_some())).min(1_000_000)
    }

    fn capacity(&self) -> u32 {
        (self.below.capacity() + 1).min(1_000_000)
    }
}
