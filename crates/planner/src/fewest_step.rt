// The step of the progression plan that leaves most cells unread. Disk follows disk by an addition,
// with the width subtracted where it is reached.
ghost use Rattle.std.specs.Prelude.{◌≡◌, ◌≤◌, ◌<◌, ltb};
ghost use Rattle.mathematics.specs.Choice.{when};
ghost use Rattle.liberation.specs.ReliefPlan.Relief.{distance};
ghost use Rattle.liberation.specs.FewestPlan.Fewest.{relieved_by, fewest_step};

use refusals::Array;

// How many cells a disk so many steps from the lost one is relieved of; none if it is absent.
fn spared(array: Array, disk: usize, steps: usize) -> usize
    requires { steps ≤ array.width }
    ensures { result ≡ when (ltb disk array.disks) (distance array.width steps) }
{
    if disk < array.disks {
        steps.min(array.width - steps)
    } else {
        0
    }
}

// How many cells all data disks are relieved of by a step.
fn relieved_by(array: Array, lost: usize, step: usize) -> usize
    requires { (lost < array.width) × (step < array.width) }
    ensures { result ≡ relieved_by array.width array.disks lost step }
{
    let mut sum = 0;
    let mut disk = lost;
    for steps in 0..array.width {
        sum += spared(array, disk, steps);
        disk = parity_sets::row_on(array, disk, step);
    }
    sum
}

// The first of the steps up to half the width that relieves them most.
pub fn fewest_step(array: Array, lost: usize) -> usize
    requires { lost < array.width }
    ensures { result ≡ fewest_step array.width array.disks lost }
{
    // `max_by_key` gives the last of the best, and would want them downward
    let mut best = 1;
    let mut most = relieved_by(array, lost, 1);
    for step in 2..(array.width + 1) / 2 {
        let sum = relieved_by(array, lost, step);
        if most < sum {
            best = step;
            most = sum;
        }
    }
    best
}
