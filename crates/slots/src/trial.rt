// A row lent for a forecast.
ghost use Rattle.std.specs.Prelude.{◌≡◌, ◌≤◌, length};
ghost use Rattle.slots.specs.Telling.{Tells, Told};

use crate::slot::{Slot, bad_length};
use shows::fault::{ForecastFault, ShowFault};
use shows::row::Row;

// Whatever way a forecast ends, the row is put back as it was.
struct Trial<'a> {
    row: &'a mut Row,
    was: Row,
}

impl Drop for Trial<'_> {
    fn drop(self)
        ensures { self.exit.0.now ≡ self.entry.was }
    {
        *self.row = self.was;
        let Trial { row: _, was: _ } = self;
    }
}

impl Trial<'_> {
    // The release of one more length, which moves the row on, or why it is refused at its place, which each test
    // puts beside its fault so that `?` hands it on.
    fn step(&mut self, at: u64, bytes: u16, place: usize) -> Result<u64, ForecastFault>
        ensures tells { Tells self.old.row.now at bytes place result self.new.row.now }
        ensures was { self.new.was ≡ self.old.was }
        ensures lender { self.new.row.ghost_name ≡ self.old.row.ghost_name }
    {
        if bad_length(bytes) {
            return Err(ForecastFault::At {
                place,
                fault: ShowFault::Length,
            });
        }
        let slot = Slot::of(self.row, at, bytes).ok_or(ForecastFault::At {
            place,
            fault: ShowFault::Overrun,
        })?;
        *self.row = slot.after;
        Ok(slot.release)
    }
}

// Writes the releases that a row would give lengths one after another. The row stays.
pub fn tell(
    row: &mut Row,
    at: u64,
    lengths: &[u16],
    times: &mut [u64],
) -> Result<usize, ForecastFault>
    requires room { length lengths.now ≤ length times.old }
    ensures row { row.new ≡ row.old }
    ensures told { Told row.old at lengths.now times.old result times.new }
{
    let was = *row;
    let mut trial = Trial { row, was };
    // no `zip` with `times`: a refusal needs the place anyhow, and a nested pattern is no plainer
    for (i, bytes) in lengths.iter().enumerate() {
        times[i] = trial.step(at, *bytes, i)?;
    }
    Ok(lengths.len())
}
