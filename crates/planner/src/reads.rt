// The read list of our plan for one lost disk. Nothing here knows of bytes in stripes.
ghost use Rattle.refusals.specs.Refused.{answer_of};
ghost use Rattle.planner.specs.ReadListSays.{ListSays};

use super::steps;
use refusals::{Array, Refusal};

// Our plan's read list, a byte for each cell: 1 where the plan reads it. Refusals: 1, 13, 3, 5.
pub fn read_list(width: usize, disks: usize, lost: usize, list: &mut [u8]) -> Result<(), Refusal>
    ensures { ListSays width disks lost list.old list.new (answer_of result) }
{
    let array = Array::with_disk(width, disks, lost)?;
    refusals::check_length(list.len(), array.cells())?;
    list.fill(0);
    super::mark_steps(array, lost, steps::plan_steps(array, lost).steps, list);
    Ok(())
}
