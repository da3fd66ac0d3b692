// A telegram that is asked for: what the caller says of it.
#[derive(Clone, Copy, PartialEq, Eq, Debug)]
pub struct Request {
    // the seat row that it goes to
    pub row: u8,
    // its length in bytes
    pub length: u16,
    // a mark of the caller's own
    pub handle: u32,
}
