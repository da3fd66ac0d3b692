// A whole list as text.
ghost use Rattle.std.specs.Prelude.{◌≡◌, IfOk};
ghost use Rattle.std.specs.List.{flat_map};
ghost use Rattle.wire.specs.Lines.{text_of};

use crate::text::Text;
use std::alloc::{AllocError, Global};
use wire::lines::Line;

// The texts of lines, one after another. It fails only for want of memory.
pub fn list_text(heap: Global, lines: &[Line]) -> Result<Vec<u8>, AllocError>
    ensures { IfOk result (λ v. v.items ≡ flat_map text_of lines.now) }
{
    // 16 bytes a line are reserved at once; a longer text grows
    let mut text = Vec::with_capacity(heap, lines.len().saturating_mul(16))?;
    let mut line_text = Text::new();
    for line in lines {
        line_text.set(line);
        text.extend_from_slice(line_text.as_bytes())?;
    }
    Ok(text)
}
