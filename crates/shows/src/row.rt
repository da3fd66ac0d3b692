ghost use Rattle.std.specs.Prelude.{◌≡◌};
ghost use Rattle.shows.specs.Timing.{card_pace, card_burst};

use crate::card::RowCard;

// A row of the cabinet.
#[derive(Clone, Copy, PartialEq, Eq, Debug)]
pub struct Row {
    // its card, if it is set
    pub card: Option<RowCard>,
    // the tick at which it is free
    pub time: u64,
}

impl Row {
    // Ticks a byte; 0 where the row is not set. It and `burst` each read a field of the card: one function for both
    // would take the field as a parameter, which is no plainer.
    pub fn pace(&self) -> u16
        ensures { result ≡ card_pace self.now }
    {
        self.card.map_or(0, |card| card.pace())
    }

    // Ticks by which the row may be ahead while the queue is yellow; 0 where the row is not set.
    pub fn burst(&self) -> u32
        ensures { result ≡ card_burst self.now }
    {
        self.card.map_or(0, |card| card.burst())
    }
}
