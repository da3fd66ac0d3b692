// A row in a zone of the queue.
ghost use Rattle.slots.specs.Zoned.{Judges};

use shows::fault::ShowFault;
use shows::row::Row;
use shows::zone::Zone;

// Whether a zone lets a row in that is ahead: yellow by no more than its burst (6), red not at all (7).
pub(crate) fn judge(zone: Zone, row: &Row, at: u64) -> Result<(), ShowFault>
    ensures { Judges zone row.now at result }
{
    let ahead = row.time.saturating_sub(at);
    match zone {
        Zone::Yellow if ahead > u64::from(row.burst()) => Err(ShowFault::Yellow),
        Zone::Red if ahead > 0 => Err(ShowFault::Red),
        _ => Ok(()),
    }
}
