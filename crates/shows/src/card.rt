mod make;

ghost use Rattle.std.specs.Prelude.{◌≤◌};

// The card of a row. None exists outside its bounds.
#[derive(Clone, Copy, PartialEq, Eq, Debug)]
pub struct RowCard {
    // ticks that the row needs for a byte, 1 to 1,000
    pace: u16,
    // ticks by which the row may be ahead while the queue is yellow, at most 1,000,000
    burst: u32,
    ghost bounds: { (1 ≤ pace) × (pace ≤ 1000) × (burst ≤ 1000000) },
}
