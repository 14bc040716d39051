// The steps of a plan in the form that the judge takes, three bytes a step, put into a record.
ghost use Rattle.std.specs.Prelude.{◌≡◌, ◌*◌, length};
ghost use Rattle.liberation.specs.Judging.{steps_in};
ghost use Rattle.planner.specs.StepRecords.{held};

use judge::STEP_BYTES;
use planner::Steps;
use refusals::Array;

// The steps that the bytes name: row, kind, number.
pub fn steps_in(array: Array, plan: &[u8]) -> Steps
    requires { length plan.now ≡ 3 * array.width }
    ensures { held array.width result ≡ steps_in array.width plan.now }
{
    let mut steps = Steps::none();
    for (place, bytes) in plan.chunks_exact(STEP_BYTES).enumerate() {
        steps.rows[place] = bytes[0];
        steps.kinds[place] = bytes[1];
        steps.numbers[place] = bytes[2];
    }
    steps
}
