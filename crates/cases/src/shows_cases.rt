ghost use Rattle.std.specs.Prelude.{◌≡◌, true};
ghost use Rattle.cases.specs.Shows.{ZonesStand, TimesStand, BurstStands};

// Zones and timing come out as docs/SHOW.md shows.
pub fn show_cases_stand() -> bool
    ensures zones { ZonesStand }
    ensures times { TimesStand }
    ensures burst { BurstStands }
    ensures answer { result ≡ true }
{
    true
}
