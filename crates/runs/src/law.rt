ghost use Rattle.std.specs.Prelude.{◌≡◌, true};
ghost use Rattle.runs.specs.Lists.{RunsAccount};

// The law of runs: over an empty queue, wherever a run stops, its history accounts for every telegram, and a
// reader can rely on the lines of its list.
pub fn runs_account() -> bool
    ensures answer { result ≡ true }
    ensures law { RunsAccount }
{
    true
}
