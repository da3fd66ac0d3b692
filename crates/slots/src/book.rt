// The book of a show, and what it says of a telegram that is to enter.
ghost use Rattle.std.specs.Prelude.{◌≡◌};
ghost use Rattle.shows.specs.Calls.{time_is_bad};
ghost use Rattle.slots.specs.Entering.{seen, Finds, Passes};

use crate::slot::{LAST_TICK, Slot, bad_length};
use crate::zoned::judge;
use shows::fault::ShowFault;
use shows::request::Request;
use shows::row::Row;
use shows::zone::Zone;

// Where a count stops.
pub const COUNT_LIMIT: u32 = 1_000_000;

// What a show keeps of the telegrams that it accepted.
#[derive(Drop)]
pub struct Book {
    // the tick of the last accepted call
    pub clock: u64,
    // the telegrams accepted so far, which is also the next telegram's number
    pub accepted: u32,
    // the 64 seat rows by their numbers, in fixed memory
    pub rows: [Row; 64],
}

impl Book {
    // Whether a tick is below the clock or past the last tick.
    pub fn bad_time(&self, at: u64) -> bool
        ensures { result ≡ time_is_bad (seen self.now.clock self.now.accepted self.now.rows) at }
    {
        !(self.clock..=LAST_TICK).contains(&at)
    }

    // A row that is set.
    pub fn find_row(&self, row: u8) -> Option<Row>
        ensures { Finds self.now.rows row result }
    {
        let found = self.rows.get(usize::from(row)).copied();
        found.filter(|row| row.card.is_some())
    }

    // The slot for a telegram that may enter, or the first test that refuses it.
    pub fn slot_for(&self, zone: Zone, at: u64, request: Request) -> Result<Slot, ShowFault>
        ensures { Passes zone self.now.clock self.now.accepted self.now.rows at request.row request.length result }
    {
        if self.bad_time(at) {
            return Err(ShowFault::Time);
        }
        let found = self.find_row(request.row).ok_or(ShowFault::Row)?;
        if bad_length(request.length) {
            return Err(ShowFault::Length);
        }
        if self.accepted >= COUNT_LIMIT {
            return Err(ShowFault::Count);
        }
        let slot = Slot::of(&found, at, request.length).ok_or(ShowFault::Overrun)?;
        judge(zone, &found, at)?;
        Ok(slot)
    }
}
