// Cells of records: how one of ascending cells makes way for a newcomer, and how all are blanked. What
// these functions ask of their cells the queues above them keep; no other crate calls them.
#![tactic(auto)]

ghost use Rattle.std.specs.Prelude.{◌≡◌, ◌-◌, ◌<◌, length, take, drop, replicate, slice_index_or};
ghost use Rattle.records.specs.Sorting.{insert, Ascending};

use records::record::Record;

// Drops the last cell, sets x among the others by the order, and answers what was dropped. It goes
// from the end, so a newcomer that stands late costs little. A step is to take no more than 1.1 times as long as
// plain Rust (docs/SPEED.md), which this form meets: a `for` over the places makes a put alone 1.17 times as slow (sorted, 256 and 1,024 cells); to find the place first, by `rposition` or
// `partition_point`, and move by `copy_within` then, 1.1 to 2.6 times (measured as plain Rust).
pub fn replace_last<R: Record>(cells: &mut [R], x: R) -> R
    requires some { 0 < length cells.old }
    requires ascending { Ascending R.Record.order (take (length cells.old - 1) cells.old) }
    ensures cells { cells.new ≡ insert R.Record.order x (take (length cells.old - 1) cells.old) }
    ensures out { (d : R) → result ≡ slice_index_or cells.old (length cells.old - 1) d }
{
    let n = cells.len();
    let last = cells[n - 1];
    let mut k = n - 1;
    while k > 0 && !cells[k - 1].no_later(&x) {
        cells[k] = cells[k - 1];
        k -= 1;
    }
    cells[k] = x;
    last
}

// Drops the first cell, sets x among the others by the order, and answers what was dropped: the other way round
// than above, where the same loop backward is the slower form. The place
// is found and the cells moved in one pass: by `position` and `copy_within` a take and a put are 1.2 to
// 1.4 times as slow (measured as plain Rust).
pub fn replace_first<R: Record>(cells: &mut [R], x: R) -> R
    requires some { 0 < length cells.old }
    ensures cells { cells.new ≡ insert R.Record.order x (drop 1 cells.old) }
    ensures out { (d : R) → result ≡ slice_index_or cells.old 0 d }
{
    let first = cells[0];
    let n = cells.len();
    for k in 0..n - 1 {
        if x.no_later(&cells[k + 1]) {
            cells[k] = x;
            return first;
        }
        cells[k] = cells[k + 1];
    }
    cells[n - 1] = x;
    first
}

// Sets each cell blank. `fill` would ask that a clone cannot fail, which no kind of record promises,
// and no proof covers `fill_with` of a kind's `blank`.
pub fn blank_all<R: Record>(cells: &mut [R])
    ensures { cells.new ≡ replicate (length cells.old) R.Record.last }
{
    for cell in cells.iter_mut() {
        *cell = R::blank();
    }
}
