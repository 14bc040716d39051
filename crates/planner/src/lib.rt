// Plans for one lost disk: ours, with its read list, the balanced, the relief and the fewest plan.
// Each has a rule for the rows of a lost data disk that take a diagonal (`our_routes`,
// `balanced_routes`, `relief_routes`, `fewest_step`). All else is done once: `steps::by_routes`
// makes the steps, `finished` counts the reads.
// Nothing here knows of bytes in stripes.
#![tactic(auto)]

mod balanced;
mod balanced_routes;
mod fewest;
mod fewest_step;
mod our_routes;
mod reads;
mod records;
mod relief;
mod relief_routes;
mod routes;
mod step_list;
mod steps;
mod walk;

ghost use Rattle.std.specs.Prelude.{◌≡◌, true, [], ◌+◌, ◌*◌, ◌≤◌, IfOk};
ghost use Rattle.liberation.specs.Sets.{plan_refusal};
ghost use Rattle.liberation.specs.Plans.{read_count, list_of, marks_from};
ghost use Rattle.liberation.specs.Judging.{accepted};
ghost use Rattle.refusals.specs.Refused.{refused};
ghost use Rattle.planner.specs.StepRecords.{held};
ghost use Rattle.planner.specs.PlanSays.{Finished, PlanSays};
ghost use Rattle.planner.specs.PlanResults.{plan_in};

pub use balanced::{balanced_plan, balanced_steps};
pub use fewest::fewest_plan;
pub use reads::read_list;
pub use records::Steps;
use refusals::{Answer, Array, Refusal};
pub use relief::relief_plan;
pub use steps::{Planned, plan_steps};

// A plan: the answer, the steps, a bit for each row that takes a diagonal, the read count.
#[repr(C)]
#[derive(Clone, Copy)]
pub struct Plan {
    pub answer: Answer,
    pub steps: Steps,
    pub routes: u32,
    pub reads: u32,
}

// On a refusal every other field is zero.
impl From<Result<Plan, Refusal>> for Plan {
    ghost from_gives = { λ r p. p ≡ plan_in r };

    fn from(planned: Result<Plan, Refusal>) -> Plan {
        match planned {
            Ok(plan) => plan,
            Err(refusal) => Plan {
                answer: Answer::from(refusal),
                steps: Steps::none(),
                routes: 0,
                reads: 0,
            },
        }
    }
}

// Marks the cells that an accepted plan reads in a list of zeros, and counts them.
pub fn mark_steps(array: Array, lost: usize, steps: Steps, marks: &mut [u8]) -> u32
    requires { (lost ≤ array.disks + 1) × (accepted array.width array.disks lost (held array.width steps) ≡ true) × (marks.old ≡ marks_from (array.width * (array.disks + 2)) 0 []) }
    ensures { (result ≡ read_count array.width array.disks lost (held array.width steps)) × (marks.new ≡ list_of array.width array.disks lost (held array.width steps)) }
{
    let mut reads: u32 = 0;
    for place in 0..array.width {
        reads += parity_sets::mark_set(array, lost, steps.set(place), marks);
    }
    reads
}

// The plan record of an accepted plan: its reads are counted.
fn finished(array: Array, lost: usize, planned: Planned) -> Plan
    requires { (lost ≤ array.disks + 1) × (accepted array.width array.disks lost (held array.width planned.steps) ≡ true) }
    ensures { Finished array.width array.disks lost planned result }
{
    let mut marks = parity_sets::no_marks();
    let reads = mark_steps(array, lost, planned.steps, &mut marks[..array.cells()]);
    Plan {
        answer: Answer::accepted(),
        steps: planned.steps,
        routes: planned.routes,
        reads,
    }
}

// Our plan for a lost disk. Refusals: 1, 13, 3.
fn try_plan(width: usize, disks: usize, lost: usize) -> Result<Plan, Refusal>
    ensures { PlanSays width disks lost (plan_in result) }
{
    let array = Array::with_disk(width, disks, lost)?;
    Ok(finished(array, lost, steps::plan_steps(array, lost)))
}

// The same, as C gets it.
pub fn plan_disk(width: usize, disks: usize, lost: usize) -> Plan
    ensures { PlanSays width disks lost result }
{
    Plan::from(try_plan(width, disks, lost))
}
