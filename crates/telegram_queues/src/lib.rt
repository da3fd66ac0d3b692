// The queues of telegrams (docs/QUEUES.md), named for their kind. Names alone, which each kind has of its own.
#![tactic(auto)]

use grouped::Groups;
use records::telegram::Telegram;
use sorted::Sorted;

// A grouped queue of telegrams.
pub type TelegramGroups = Groups<Telegram>;

// A sorted queue of telegrams.
pub type TelegramSorted = Sorted<Telegram>;
