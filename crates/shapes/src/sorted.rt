ghost use Rattle.std.specs.Prelude.{◌≡◌, ◌≤◌, vec_len, MatchResult};
ghost use Rattle.queues.specs.declared.fault.QueueFault.TheVariants.{Shape};
ghost use Rattle.standing.specs.Shapes.{Shaped};

use queues::fault::QueueFault;

// The cells of a sorted queue: 1 to 4,096 of them.
#[derive(Drop)]
pub struct SortedCells<R> {
    // what they hold is of no account yet
    pub cells: Vec<R>,
    ghost some: { 1 ≤ vec_len cells },
    ghost few: { vec_len cells ≤ 4096 },
}

impl<R: Drop> SortedCells<R> {
    // Takes the cells as they are. Refuses fewer than 1 and more than 4,096 (12).
    pub fn new(cells: Vec<R>) -> Result<SortedCells<R>, QueueFault>
        ensures { MatchResult result (λ s. Shaped (vec_len cells) × (s.cells ≡ cells)) (λ e. (Shaped (vec_len cells) → ⊥) × (e ≡ Shape)) }
    {
        if !(1..=4096).contains(&cells.len()) {
            return Err(QueueFault::Shape);
        }
        Ok(SortedCells { cells })
    }
}
