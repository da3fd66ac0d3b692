ghost use Rattle.std.specs.Prelude.{◌≡◌, ◌*◌, vec_len, MatchResult};
ghost use Rattle.queues.specs.declared.fault.QueueFault.TheVariants.{Shape as ShapeFault};
ghost use Rattle.standing.specs.Shapes.{Fits};

use crate::shape::Shape;
use queues::fault::QueueFault;

// Cells of the right number for so many groups of so many cells each, in one piece, the first
// group's cells first.
#[derive(Drop)]
pub struct GroupCells<R> {
    // what they hold is of no account yet
    pub cells: Vec<R>,
    // the groups they stand in
    pub shape: Shape,
    ghost whole: { vec_len cells ≡ shape.groups * shape.size },
}

impl<R: Drop> GroupCells<R> {
    // Takes the cells as they are. Refuses (12) a number of groups that is not 1 to 64, a size that
    // is not 2 to 64, and cells that are not groups × size.
    pub fn new(cells: Vec<R>, groups: usize, size: usize) -> Result<GroupCells<R>, QueueFault>
        ensures { MatchResult result (λ g. Fits groups size (vec_len cells) × (g.cells ≡ cells) × (g.shape.groups ≡ groups) × (g.shape.size ≡ size)) (λ e. (e ≡ ShapeFault) × (Fits groups size (vec_len cells) → ⊥)) }
    {
        let shape = Shape::new(groups, size)?;
        if cells.len() != shape.cells() {
            return Err(QueueFault::Shape);
        }
        Ok(GroupCells { cells, shape })
    }
}
