ghost use Rattle.std.specs.Prelude.{◌≡◌, ◌*◌, ◌≤◌, MatchResult};
ghost use Rattle.queues.specs.declared.fault.QueueFault.TheVariants.{Shape as ShapeFault};

use queues::fault::QueueFault;

// How the cells of a grouped queue lie: so many groups of so many cells each.
#[derive(Clone, Copy, PartialEq, Eq, Debug)]
pub struct Shape {
    // how many groups, 1 to 64
    pub groups: usize,
    // how many cells to a group, 2 to 64
    pub size: usize,
    ghost some: { 1 ≤ groups },
    ghost few: { groups ≤ 64 },
    ghost two: { 2 ≤ size },
    ghost small: { size ≤ 64 },
}

impl Shape {
    // Refuses (12) a number of groups that is not 1 to 64, and a size that is not 2 to 64.
    pub fn new(groups: usize, size: usize) -> Result<Shape, QueueFault>
        ensures { MatchResult result (λ s. (s.groups ≡ groups) × (s.size ≡ size)) (λ e. (e ≡ ShapeFault) × (1 ≤ groups → groups ≤ 64 → 2 ≤ size → size ≤ 64 → ⊥)) }
    {
        if (1..=64).contains(&groups) && (2..=64).contains(&size) {
            Ok(Shape { groups, size })
        } else {
            Err(QueueFault::Shape)
        }
    }

    // How many cells there are in all.
    pub fn cells(self) -> usize
        ensures { result ≡ self.groups * self.size }
    {
        self.groups * self.size
    }
}
