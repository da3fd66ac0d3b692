ghost use Rattle.std.specs.Prelude.{◌≡◌, ℕ, List, length, ◌==◌};
ghost use Rattle.queues.specs.Queues.{Lawful, Puts, Takes, Exchanges, first_of, put_of, told};

use crate::fault::QueueFault;
use records::record::Record;

// What became of a record that was put: it is kept, and where the queue was full another left for it.
// The two cases are an enum over the record's type, and no `Option`, by a rule of the project: a put's
// answer names what became of the record.
#[derive(Clone, Copy, PartialEq, Eq, Debug)]
pub enum Put<R> {
    Kept,
    Displaced(R),
}

impl<R: Record> Put<R> {
    // The record that left for the one that was put, where one did.
    pub fn displaced(self) -> Option<R>
        ensures { put_of result ≡ self }
    {
        match self {
            Put::Kept => None,
            Put::Displaced(out) => Some(out),
        }
    }
}

// A queue of records. It means the collection that it holds (`held`, as one ascending list in which
// equal records repeat), a capacity (`room`) and a `slack`: so many records at most, the leaving one
// counted in, stand at the end of the line from which a full queue may displace. No call asks for
// anything, and a refused one leaves the whole value as it was. The three are members of their own: a
// clause then cites the definition of each that an impl gives.
pub trait Queue<R: Record> {
    ghost held: { Self → List R };

    ghost room: { Self → ℕ };

    ghost slack: { Self → ℕ };

    // Takes a record in. Refuses the blank (11). A full queue displaces one of its old records.
    fn put(&mut self, x: R) -> Result<Put<R>, QueueFault>
        ensures puts { Puts R.Record.order R.Record.last held room slack self.old x result self.new };

    // Lets the first record go. Refuses where nothing is held (8).
    fn take(&mut self) -> Result<R, QueueFault>
        ensures takes { Takes held room slack self.old result self.new };

    // Lets the first record go and takes another in. Refuses the blank (11), then where nothing is held (8).
    fn exchange(&mut self, x: R) -> Result<R, QueueFault>
        ensures exchanges { Exchanges R.Record.order R.Record.last held room slack self.old x result self.new };

    // The first record, where there is one.
    fn first(&self) -> Option<R>
        ensures { result ≡ first_of (held self.now) };

    // Whether as many records are held as the queue has room for.
    fn is_full(&self) -> bool
        ensures { result ≡ (length (held self.now) == room self.now) };

    // How many records are held; 1,000,000 where there are more.
    fn len(&self) -> u32
        ensures { result ≡ told (length (held self.now)) };

    // How many records the queue has room for; 1,000,000 where there is room for more.
    fn capacity(&self) -> u32
        ensures { result ≡ told (room self.now) };

    ghost lawful: { (q : Self) → Lawful R.Record.order R.Record.last (held q) (room q) (slack q) };
}
