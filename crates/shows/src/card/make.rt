ghost use Rattle.std.specs.Prelude.{◌≡◌};
ghost use Rattle.shows.specs.Cards.{Makes};

use super::RowCard;
use crate::fault::ShowFault;

impl RowCard {
    // A card with this pace (ticks a byte) and burst (ticks). Refuses what is out of bounds (10).
    pub fn new(pace: u16, burst: u32) -> Result<RowCard, ShowFault>
        ensures { Makes pace burst result }
    {
        if !(1..=1000).contains(&pace) || burst > 1_000_000 {
            return Err(ShowFault::Card);
        }
        Ok(RowCard { pace, burst })
    }

    // Ticks a byte.
    pub fn pace(&self) -> u16
        ensures { result ≡ self.now.pace }
    {
        self.pace
    }

    // Ticks by which the row may be ahead.
    pub fn burst(&self) -> u32
        ensures { result ≡ self.now.burst }
    {
        self.burst
    }
}
