// Lines written as text.
ghost use Rattle.std.specs.Prelude.{◌≡◌, ◌≤◌, MatchResult};
ghost use Rattle.buffers.specs.declared.faults.WireFault.TheVariants.{Buffer};
ghost use Rattle.buffers.specs.Buffers.{count_in, after};
ghost use Rattle.wire.specs.Lines.{text_of};

use crate::text::Text;
use buffers::bytes::put;
use buffers::faults::WireFault;
use wire::lines::Line;

// Writes the text of a line at the front of a buffer, its line feed at its end, and answers how many bytes it is; the
// bytes past it stay. Refuses a buffer of under 96 bytes, and leaves it. The test stands here and in the writer of
// commands, since `put`, in which both end, refuses nothing.
pub fn write_line(line: &Line, out: &mut [u8]) -> Result<usize, WireFault>
    ensures count { result ≡ count_in out.old (text_of line.now) }
    ensures buffer { out.new ≡ after out.old (text_of line.now) }
    ensures within { MatchResult result (λ n. n ≤ 96) (λ e. e ≡ Buffer) }
{
    if out.len() < 96 {
        return Err(WireFault::Buffer);
    }
    let mut text = Text::new();
    text.set(line);
    Ok(put(out, text.as_bytes()))
}
