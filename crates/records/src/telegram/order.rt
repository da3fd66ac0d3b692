ghost use Rattle.records.specs.Telegrams.{stands, blank};
ghost use Rattle.records.specs.TelegramsLemmas as Telegrams;

use super::Telegram;
use crate::record::Record;

// The smallest release first, then number, row, length and handle.
impl Record for Telegram {
    ghost order = { stands };

    ghost last = { blank };

    ghost linear = { Telegrams.linear };

    ghost ends = { Telegrams.ends };

    fn no_later(&self, other: &Telegram) -> bool {
        self <= other
    }

    fn blank() -> Telegram {
        Telegram {
            release: u64::MAX,
            number: u32::MAX,
            row: u8::MAX,
            length: u16::MAX,
            handle: u32::MAX,
        }
    }
}
