// The queues of readings (docs/QUEUES.md), named for their kind. Names alone, which each kind has of its own.
#![tactic(auto)]

use grouped::Groups;
use records::reading::Reading;
use sorted::Sorted;

// A grouped queue of readings.
pub type ReadingGroups = Groups<Reading>;

// A sorted queue of readings.
pub type ReadingSorted = Sorted<Reading>;
