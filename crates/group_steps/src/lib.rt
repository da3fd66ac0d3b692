// The steps of a grouped queue over lent cells of any record kind: so many groups of so many cells,
// the first group's first (docs/QUEUES.md). Slices that are lent carry neither their shape nor how they
// stand: the queue that lends them has both in its type, and keeps what is asked of them here. A
// group is taken by its places and not from `chunks_exact_mut`: of what is written through the parts
// which that lends, a proof knows the number of cells and no cell.
#![tactic(auto)]

ghost use Rattle.std.specs.Prelude.{◌≡◌, ◌+◌, ◌-◌, ◌*◌, ◌<◌, ◌≤◌, length, drop, slice_index_or};
ghost use Rattle.records.specs.Sorting.{insert, Ascending, earlier, later};
ghost use Rattle.standing.specs.Facts.{Ascends};
ghost use Rattle.standing.specs.Steps.{groups_of, next_a, s_of, put_cells, take_cells, exchange_cells};

use cells::{replace_first, replace_last};
use records::record::Record;
use shapes::Shape;

// Takes x in: each group hands its last record on to the next group. Answers what the last group
// hands out.
pub fn put_step<R: Record>(cells: &mut [R], shape: Shape, x: R) -> R
    requires whole { length cells.old ≡ shape.groups * shape.size }
    requires ascends { Ascends R.Record.order R.Record.last shape.groups shape.size cells.old }
    ensures cells { cells.new ≡ put_cells R.Record.order R.Record.last shape.groups shape.size x cells.old }
    ensures out { result ≡ slice_index_or cells.old (shape.groups * shape.size - 1) R.Record.last }
{
    let mut z = x;
    for i in 0..shape.groups {
        z = replace_last(&mut cells[i * shape.size..(i + 1) * shape.size], z);
    }
    z
}

// Lets the first record go: each group takes the first record of the next group in. It goes from the
// last group to the first, so what a group let go is what the group before it takes in.
pub fn take_step<R: Record>(cells: &mut [R], shape: Shape) -> R
    requires whole { length cells.old ≡ shape.groups * shape.size }
    requires ascends { Ascends R.Record.order R.Record.last shape.groups shape.size cells.old }
    ensures cells { cells.new ≡ take_cells R.Record.order R.Record.last shape.groups shape.size cells.old }
    ensures out { result ≡ slice_index_or cells.old 0 R.Record.last }
{
    let mut next = R::blank();
    for i in (0..shape.groups).rev() {
        next = replace_first(&mut cells[i * shape.size..(i + 1) * shape.size], next);
    }
    next
}

// Two records, the one that stands first before the other.
fn by_order<R: Record>(a: R, b: R) -> (R, R)
    ensures low { result.0 ≡ earlier R.Record.order a b }
    ensures high { result.1 ≡ later R.Record.order a b }
{
    if a.no_later(&b) { (a, b) } else { (b, a) }
}

// Sets a and z among the cells of a group in place of its first and last.
fn refit<R: Record>(group: &mut [R], a: R, z: R)
    requires two { 2 ≤ length group.old }
    requires ascending { Ascending R.Record.order group.old }
    ensures { group.new ≡ insert R.Record.order a (insert R.Record.order z (s_of (length group.old) group.old)) }
{
    let _ = replace_last(&mut group[1..], z);
    let _ = replace_first(group, a);
}

// Lets the first record go and takes x in: of a group's last record and the next group's first, the
// earlier stays and the later goes on.
pub fn exchange_step<R: Record>(cells: &mut [R], shape: Shape, x: R) -> R
    requires whole { length cells.old ≡ shape.groups * shape.size }
    requires ascends { Ascends R.Record.order R.Record.last shape.groups shape.size cells.old }
    ensures cells { cells.new ≡ exchange_cells R.Record.order R.Record.last shape.groups shape.size x cells.old }
    ensures out { result ≡ slice_index_or cells.old 0 R.Record.last }
{
    let first = cells[0];
    let mut a = x;
    for i in 0..shape.groups {
        let next = cells
            .get((i + 1) * shape.size)
            .copied()
            .unwrap_or(R::blank());
        let group = &mut cells[i * shape.size..(i + 1) * shape.size];
        let (low, high) = by_order(group[shape.size - 1], next);
        refit(group, a, low);
        a = high;
    }
    first
}
