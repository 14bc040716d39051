// The rebuild of one lost disk by the balanced plan, from a lent stripe into a lent column.
ghost use Rattle.std.specs.Prelude.{◌≡◌, ◌*◌, length};
ghost use Rattle.liberation.specs.BalancedPlan.Balanced.{balanced_plan};
ghost use Rattle.liberation.specs.Stripes.Stripes.{rebuilt_by};
ghost use Rattle.refusals.specs.Refused.{answer_of};
ghost use Rattle.refusals.specs.StripeOf.{IsStripeOf};
ghost use Rattle.rebuild_one.specs.RebuildBalancedSays.{BalancedOneSays};

use super::lost_disk::LostDisk;
use refusals::{Refusal, Shape};

impl LostDisk {
    // Makes the balanced plan and follows it.
    pub fn balanced_column(self, stripe: &[u8], column: &mut [u8])
        requires { IsStripeOf self.geometry stripe.now × (length column.old ≡ self.geometry.array.width * self.geometry.cell_size) }
        ensures { column.new ≡ rebuilt_by self.geometry.array.width self.geometry.array.disks self.geometry.cell_size self.disk (balanced_plan self.geometry.array.width self.geometry.array.disks self.disk) stripe.now }
    {
        let array = self.geometry.array;
        let plan = planner::balanced_steps(array, self.disk);
        self.follow(plan.steps, stripe, column);
    }
}

// Rebuilds one lost disk into the column by the balanced plan. Refusals: 1, 13, 2, 3, 5; a refused
// call leaves the column unchanged.
pub fn rebuild_balanced(
    shape: Shape,
    lost: usize,
    stripe: &[u8],
    column: &mut [u8],
) -> Result<(), Refusal>
    ensures { BalancedOneSays shape.width shape.disks shape.cell_size lost stripe.now column.old column.new (answer_of result) }
{
    let disk = LostDisk::of_call(shape, lost, stripe.len(), column.len())?;
    disk.balanced_column(stripe, column);
    Ok(())
}
