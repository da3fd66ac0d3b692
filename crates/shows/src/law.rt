mod example;

ghost use Rattle.std.specs.Prelude.{◌≡◌, true};
ghost use Rattle.shows.specs.Accounts.{AccountsHold};

pub use example::worked_history;

// The law of shows: whatever the limits of the queue, the settings and the calls, the history of a show
// accounts for every telegram. Each accepted one has departed, or was displaced, or is held, exactly once;
// each row keeps its pace; and a telegram that is due, with slack held ones after it, is served in its turn.
pub fn law_holds() -> bool
    ensures answer { result ≡ true }
    ensures law { AccountsHold }
{
    true
}
