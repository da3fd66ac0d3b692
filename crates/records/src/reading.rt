mod order;

ghost use Rattle.std.specs.Prelude.{◌^◌, ◌<◌, pos, negsuc, ◌≤ℤ◌};

// Where a seat row stands. The reading that is farthest from its target stands first.
#[derive(Clone, Copy, PartialEq, Eq, Debug)]
pub struct Reading {
    // the seat row that was read
    pub row: u8,
    // where the row stands, in millimetres
    pub position: i32,
    // where the row is to stand, in millimetres
    pub target: i32,
    ghost fits: { (row < 2 ^ 8) × (negsuc 2147483647 ≤ℤ position) × (position ≤ℤ pos 2147483647) × (negsuc 2147483647 ≤ℤ target) × (target ≤ℤ pos 2147483647) },
}
