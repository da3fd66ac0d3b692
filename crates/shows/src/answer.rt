use records::telegram::Telegram;

// The answer to an accepted admit.
#[derive(Clone, Copy, PartialEq, Eq, Debug)]
pub struct Admission {
    // stamped with its number and its release
    pub telegram: Telegram,
    // what a full queue let go for it
    pub displaced: Option<Telegram>,
}

// The answer to an accepted exchange.
#[derive(Clone, Copy, PartialEq, Eq, Debug)]
pub struct Exchange {
    // stamped with its number and its release
    pub telegram: Telegram,
    // the first that was held before the call
    pub departed: Telegram,
}

// What a show reports when it is closed. Each number stops at 1,000,000.
#[derive(Clone, Copy, PartialEq, Eq, Debug)]
pub struct Report {
    // telegrams taken in by admits and exchanges
    pub accepted: u32,
    // telegrams let out by releases and exchanges
    pub departed: u32,
    // telegrams pushed out of a full queue
    pub displaced: u32,
    // telegrams still in the queue
    pub held: u32,
}
