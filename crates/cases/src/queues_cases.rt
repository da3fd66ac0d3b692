ghost use Rattle.std.specs.Prelude.{◌≡◌, true, false};
ghost use Rattle.records.specs.Readings.{stands};
ghost use Rattle.cases.specs.Cells.{Follows, free, table};
ghost use Rattle.cases.specs.Panels.{far, near};

// Two groups of two telegrams move as docs/QUEUES.md shows, and of two readings the one that is
// farther from its target stands first.
pub fn queue_cases_stand() -> bool
    ensures cells { Follows free table }
    ensures first { stands far near ≡ true }
    ensures second { stands near far ≡ false }
    ensures answer { result ≡ true }
{
    true
}
