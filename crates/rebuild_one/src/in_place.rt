// The rebuild of one lost disk in place: our plan's steps, one after another, each done within the
// stripe.
ghost use Rattle.std.specs.Prelude.{◌≡◌, length};
ghost use Rattle.liberation.specs.Plans.{plan_of};
ghost use Rattle.liberation.specs.Stripes.Stripes.{followed};
ghost use Rattle.planner.specs.StepRecords.{Holds};
ghost use Rattle.refusals.specs.StripeOf.{IsStripeOf};

use super::lost_disk::LostDisk;
use parity_sets::ParitySet;
use planner::Steps;
use stripe_cells::Offsets;

impl LostDisk {
    // The steps of our plan, in order: each solves the lost disk's ordinary cell of its set.
    fn follow_within(self, steps: Steps, stripe: &mut [u8])
        requires { IsStripeOf self.geometry stripe.old × Holds (plan_of self.geometry.array.width self.geometry.array.disks self.disk) steps }
        ensures { stripe.new ≡ followed self.geometry.array.width self.geometry.array.disks self.geometry.cell_size self.disk (plan_of self.geometry.array.width self.geometry.array.disks self.disk) stripe.old }
    {
        let mut list = Offsets::new();
        for i in 0..self.geometry.array.width {
            let row = usize::from(steps.rows[i]);
            let set = ParitySet::of_step(steps.kinds[i], steps.numbers[i]);
            stripe_cells::solve(self.geometry, set, self.disk, row, stripe, &mut list);
        }
    }

    // Makes our plan and follows it in the stripe.
    pub fn rebuild_within(self, stripe: &mut [u8])
        requires { IsStripeOf self.geometry stripe.old }
        ensures { stripe.new ≡ followed self.geometry.array.width self.geometry.array.disks self.geometry.cell_size self.disk (plan_of self.geometry.array.width self.geometry.array.disks self.disk) stripe.old }
    {
        let array = self.geometry.array;
        let plan = planner::plan_steps(array, self.disk);
        self.follow_within(plan.steps, stripe);
    }
}
