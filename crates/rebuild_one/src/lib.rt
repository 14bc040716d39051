// The rebuild of one lost disk from a lent stripe into a lent column: our plan is made and
// followed.
#![tactic(auto)]

mod balanced;
mod in_place;
mod into_column;
mod lost_disk;
mod one_cell;

ghost use Rattle.std.specs.Prelude.{◌≡◌};
ghost use Rattle.refusals.specs.Refused.{answer_of};
ghost use Rattle.rebuild_one.specs.RebuildOneSays.{OneSays};

pub use balanced::rebuild_balanced;
pub use lost_disk::LostDisk;
use refusals::{Refusal, Shape};

// Rebuilds one lost disk into the column. Refusals: 1, 13, 2, 3, 5; a refused call leaves the
// column unchanged.
pub fn rebuild_one(
    shape: Shape,
    lost: usize,
    stripe: &[u8],
    column: &mut [u8],
) -> Result<(), Refusal>
    ensures { OneSays shape.width shape.disks shape.cell_size lost stripe.now column.old column.new (answer_of result) }
{
    let disk = LostDisk::of_call(shape, lost, stripe.len(), column.len())?;
    disk.rebuild_column(stripe, column);
    Ok(())
}
