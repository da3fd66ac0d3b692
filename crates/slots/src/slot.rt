// The slot that a row gives a telegram: when it is released, and the row after it.
ghost use Rattle.std.specs.Prelude.{◌≡◌};
ghost use Rattle.shows.specs.Timing.{length_is_bad};
ghost use Rattle.slots.specs.Slots.{Gives};

use shows::row::Row;

// The last tick: no now lies past it, and no row is busy past it.
pub(crate) const LAST_TICK: u64 = 281_474_976_710_655;

// What a row gives a telegram.
#[derive(Clone, Copy)]
pub struct Slot {
    // the tick from which the telegram may leave
    pub release: u64,
    // the row, busy with this telegram
    pub after: Row,
}

// Whether a telegram of so many bytes is too short or too long.
pub(crate) fn bad_length(bytes: u16) -> bool
    ensures { result ≡ length_is_bad bytes }
{
    !(64..=1518).contains(&bytes)
}

impl Slot {
    // The slot for so many bytes from a tick on; none where the row would be busy past the last tick.
    pub(crate) fn of(row: &Row, at: u64, bytes: u16) -> Option<Slot>
        ensures { Gives row.now at bytes result }
    {
        let cost = u64::from(bytes) * u64::from(row.pace());
        let release = row.time.max(at);
        let free = release.checked_add(cost);
        let time = free.filter(|tick| *tick <= LAST_TICK)?;
        Some(Slot {
            release,
            after: Row {
                card: row.card,
                time,
            },
        })
    }
}
