// The calls of a queue, made and told, and its cells as they are printed.
use queues::fault::QueueFault;
use queues::queue::Queue;
use records::record::is_blank;
use records::telegram::Telegram;
use std::alloc::{AllocError, Global};
use std::fmt;

// A call of a queue; the numbers are releases.
#[derive(Clone, Copy)]
pub(crate) enum Call {
    Put(u64),
    Take,
    Exchange(u64),
}

impl fmt::Display for Call {
    fn fmt<W: fmt::Write>(&self, f: &mut fmt::Formatter<W>) -> fmt::Result {
        match self {
            Call::Put(release) => write!(f, "put {release}"),
            Call::Take => f.write_str("take"),
            Call::Exchange(release) => write!(f, "exchange {release}"),
        }
    }
}

fn telegram(release: u64) -> Telegram {
    Telegram {
        release,
        number: 0,
        row: 0,
        length: 64,
        handle: 0,
    }
}

// Makes a call, and answers the telegram that left for it. Each call has a number of its own or none, which a match
// takes apart.
fn make<Q: Queue<Telegram>>(queue: &mut Q, call: Call) -> Result<Option<Telegram>, QueueFault> {
    match call {
        Call::Put(release) => Ok(queue.put(telegram(release))?.displaced()),
        Call::Take => Ok(Some(queue.take()?)),
        Call::Exchange(release) => Ok(Some(queue.exchange(telegram(release))?)),
    }
}

// Makes a call, and says what was answered: four ways to say it, so `map` and its like would be no plainer.
pub(crate) fn made<Q: Queue<Telegram>>(
    heap: Global,
    queue: &mut Q,
    call: Call,
) -> Result<String, AllocError> {
    match (make(queue, call), call) {
        (Ok(None), _) => format!(in heap; "{call}"),
        (Ok(Some(out)), Call::Put(_)) => format!(in heap; "{call} displaces {}", out.release),
        (Ok(Some(out)), _) => format!(in heap; "{call} answers {}", out.release),
        (Err(fault), _) => format!(in heap; "refused by {}", fault.number()),
    }
}

// Cells in groups of three, by their releases; a free cell is an underscore.
#[derive(Drop)]
pub(crate) struct Threes<'a>(pub(crate) &'a [Telegram]);

impl fmt::Display for Threes<'_> {
    fn fmt<W: fmt::Write>(&self, f: &mut fmt::Formatter<W>) -> fmt::Result {
        for group in self.0.chunks(3) {
            let mut before = "[";
            for cell in group {
                f.write_str(before)?;
                if is_blank(cell) {
                    f.write_str("_")?;
                } else {
                    write!(f, "{}", cell.release)?;
                }
                before = " ";
            }
            f.write_str("]")?;
        }
        Ok(())
    }
}
