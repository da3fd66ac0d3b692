// A stream of bytes, and the text of its list.
ghost use Rattle.std.specs.Prelude.{IfOk};
ghost use Rattle.listing.specs.Lists.{Tells};

use crate::empty::{readings, telegrams};
use lines::list_text;
use std::alloc::{AllocError, Global};
use streams::run::run;

// The text of the release list of a command stream. It fails only for want of memory.
pub fn list_of(heap: Global, bytes: &[u8]) -> Result<Vec<u8>, AllocError>
    ensures { IfOk result (λ v. Tells bytes.now v.items) }
{
    let queue = telegrams(heap)?;
    let panel = readings(heap)?;
    let listed = run(heap, bytes, queue, panel)?;
    list_text(heap, &listed.lines)
}
