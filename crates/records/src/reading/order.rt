ghost use Rattle.std.specs.Prelude.{◌≡◌};
ghost use Rattle.records.specs.Readings.{distance, key as key_of, stands, blank};
ghost use Rattle.records.specs.ReadingsLemmas as Readings;

use super::Reading;
use crate::record::Record;
use std::cmp::Reverse;

impl Reading {
    // How far the position is from the target, in millimetres.
    #[tactic(auto, unfolding(crate::specs::Readings::distance))]
    pub fn off_by(&self) -> u32
        ensures { result ≡ distance self.now }
    {
        self.position.abs_diff(self.target)
    }

    // What readings are compared by: the larger distance first, then the smaller row, position and target.
    fn key(&self) -> (Reverse<u32>, u8, i32, i32)
        ensures { (result.0.0, (result.1, (result.2, result.3))) ≡ key_of self.now }
    {
        (Reverse(self.off_by()), self.row, self.position, self.target)
    }
}

// The largest distance first, then the smallest row, position and target.
impl Record for Reading {
    ghost order = { stands };

    ghost last = { blank };

    ghost linear = { Readings.linear };

    ghost ends = { Readings.ends };

    fn no_later(&self, other: &Reading) -> bool {
        self.key() <= other.key()
    }

    fn blank() -> Reading {
        Reading {
            row: u8::MAX,
            position: i32::MAX,
            target: i32::MAX,
        }
    }
}
