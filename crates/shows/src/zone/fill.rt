ghost use Rattle.std.specs.Prelude.{◌≡◌};
ghost use Rattle.shows.specs.Zones.{zone};

use super::Zone;

// The zone of a queue that holds so many of so many: green below a third, red from two thirds on.
pub fn zone_of(held: u32, capacity: u32) -> Zone
    ensures { result ≡ zone held capacity }
{
    let thirds = 3 * u64::from(held);
    if thirds < u64::from(capacity) {
        Zone::Green
    } else if thirds >= 2 * u64::from(capacity) {
        Zone::Red
    } else {
        Zone::Yellow
    }
}
