mod order;

ghost use Rattle.std.specs.Prelude.{◌^◌, ◌<◌};

// A telegram to a seat row. Telegrams stand in the order of their fields, each unsigned, smaller first.
#[derive(Clone, Copy, PartialEq, Eq, PartialOrd, Ord, Debug)]
pub struct Telegram {
    // the tick (one microsecond) from which it may leave
    pub release: u64,
    // the place at which it was accepted, from 0
    pub number: u32,
    // the seat row that it goes to
    pub row: u8,
    // its length in bytes
    pub length: u16,
    // a mark of the caller's own
    pub handle: u32,
    ghost fits: { (release < 2 ^ 64) × (number < 2 ^ 32) × (row < 2 ^ 8) × (length < 2 ^ 16) × (handle < 2 ^ 32) },
}
