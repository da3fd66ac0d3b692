// A stream as it comes in, and the text of its list.
ghost use Rattle.std.specs.Prelude.{IfOk};
ghost use Rattle.listing.specs.Lists.{TellsSome};

use crate::text::list_of;
use std::alloc::Global;
use std::io::Read;

// One byte more than the longest stream: it is enough to see that a stream is too long.
const MOST: u64 = 65_537;

// The text of the release list of what a source gives until its end. It fails where the source does,
// and for want of memory.
pub fn list_from<S: Read + Drop>(heap: Global, source: S) -> anyhow::Result<Vec<u8>>
    ensures { IfOk result (λ v. TellsSome v.items) }
{
    let mut bytes = Vec::new(heap);
    let mut stream = source.take(MOST);
    let _ = stream.read_to_end(&mut bytes)?;
    let text = list_of(heap, &bytes)?;
    Ok(text)
}
