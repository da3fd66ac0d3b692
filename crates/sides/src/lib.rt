// A cell beside any queue; the two together are again a queue (docs/QUEUES.md).
#![tactic(auto)]

mod calls;

ghost use Rattle.std.specs.Prelude.{IfSome};
ghost use Rattle.std.proofs.Props.{props};
ghost use Rattle.records.specs.Sorting.{Filled};

use records::record::Record;

// One record or none beside any queue; the two together are again a queue. A record is never the blank.
#[derive(Drop)]
pub struct SideCell<R: Record, Q> {
    cell: Option<R>,
    below: Q,
    ghost filled: { IfSome cell (Filled R.Record.order R.Record.last) } by { Prim.hlevel props },
}
