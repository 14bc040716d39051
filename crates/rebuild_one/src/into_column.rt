// The steps of an accepted plan, or of ours, one after another, from a lent stripe into a lent column.
// Each cell goes to its own stretch of the column.
ghost use Rattle.std.specs.Prelude.{◌≡◌, true, ◌*◌, length};
ghost use Rattle.liberation.specs.Judging.{accepted};
ghost use Rattle.liberation.specs.Stripes.Stripes.{rebuilt, rebuilt_by};
ghost use Rattle.planner.specs.StepRecords.{held};
ghost use Rattle.refusals.specs.StripeOf.{IsStripeOf};

use super::lost_disk::LostDisk;
use parity_sets::ParitySet;
use planner::Steps;
use stripe_cells::Offsets;

impl LostDisk {
    // The steps of an accepted plan, in order.
    pub fn follow(self, steps: Steps, stripe: &[u8], column: &mut [u8])
        requires long { IsStripeOf self.geometry stripe.now × (length column.old ≡ self.geometry.array.width * self.geometry.cell_size) }
        requires plan { accepted self.geometry.array.width self.geometry.array.disks self.disk (held self.geometry.array.width steps) ≡ true }
        ensures { column.new ≡ rebuilt_by self.geometry.array.width self.geometry.array.disks self.geometry.cell_size self.disk (held self.geometry.array.width steps) stripe.now }
    {
        let mut list = Offsets::new();
        for i in 0..self.geometry.array.width {
            let row = usize::from(steps.rows[i]);
            let set = ParitySet::of_step(steps.kinds[i], steps.numbers[i]);
            self.rebuild_cell(row, set, stripe, column, &mut list);
        }
    }
    // Makes our plan and follows it.
    pub fn rebuild_column(self, stripe: &[u8], column: &mut [u8])
        requires { IsStripeOf self.geometry stripe.now × (length column.old ≡ self.geometry.array.width * self.geometry.cell_size) }
        ensures { column.new ≡ rebuilt self.geometry.array.width self.geometry.array.disks self.geometry.cell_size self.disk stripe.now }
    {
        let array = self.geometry.array;
        let plan = planner::plan_steps(array, self.disk);
        self.follow(plan.steps, stripe, column);
    }
}
