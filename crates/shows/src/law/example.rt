ghost use Rattle.std.specs.Prelude.{◌≡◌, true};
ghost use Rattle.shows.specs.Worked.{Worked};

// A history worked out, with accepted and refused calls of each kind, and what the law says of it.
pub fn worked_history() -> bool
    ensures answer { result ≡ true }
    ensures happens { Worked }
{
    true
}
