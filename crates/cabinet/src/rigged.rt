ghost use Rattle.std.specs.Prelude.{◌≡◌, List, [], ◌∷◌, ◌++◌};
ghost use Rattle.shows.specs.Histories.{Setting, with_setting, with_settings, unset_rows, History};
ghost use Rattle.cabinet.specs.Rigging.{Sets};
ghost use Rattle.cabinet.specs.States.{state_of, limits_of, begun};

use crate::running::RunningShow;
use queues::queue::Queue;
use records::telegram::Telegram;
use shows::card::RowCard;
use shows::fault::ShowFault;
use shows::row::Row;

// A show that is being made: its rows are set one by one, and then it is started. It cannot be let go.
pub struct RiggedShow<Q> {
    // the 64 seat rows by their numbers, in fixed memory
    rows: [Row; 64],
    queue: Q,
}

impl<Q: Queue<Telegram>> RiggedShow<Q> {
    // A show over a queue, with 64 rows of which none is set.
    pub fn new(queue: Q) -> RiggedShow<Q>
        ensures rows { result.rows ≡ unset_rows }
        ensures queue { result.queue ≡ queue }
    {
        let unset = Row {
            card: None,
            time: 0,
        };
        RiggedShow {
            rows: [unset; 64],
            queue,
        }
    }

    // Sets a row to a card, in place of any that it had. Refuses a row above 63 (2).
    pub fn set(&mut self, row: u8, card: RowCard) -> Result<(), ShowFault>
        ensures answer { Sets row result }
        ensures rows { self.new.rows ≡ with_setting self.old.rows (record { row = row; card = card }) }
        ensures queue { self.new.queue ≡ self.old.queue }
        ensures rigging { (settings : List Setting) → self.old.rows ≡ with_settings unset_rows settings → self.new.rows ≡ with_settings unset_rows (settings ++ record { row = row; card = card } ∷ []) }
    {
        // no `get_mut` with `?`: the check learns nothing of an array that was lent and left at a `?`
        if row >= 64 {
            return Err(ShowFault::Row);
        }
        self.rows[usize::from(row)] = Row {
            card: Some(card),
            time: 0,
        };
        Ok(())
    }

    // The show runs: its clock stands at tick 0 and its counts at 0.
    pub fn start(self) -> RunningShow<Q>
        ensures shows { result ≡ begun self.rows self.queue }
        ensures history { (settings : List Setting) → self.rows ≡ with_settings unset_rows settings → Q.Queue.held self.queue ≡ [] → History (limits_of Q.Queue.room Q.Queue.slack result) settings [] (state_of Q.Queue.held result) }
    {
        let RiggedShow { rows, queue } = self;
        RunningShow::begin(rows, queue)
    }
}
