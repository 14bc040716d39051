// How far a rebuild run is (document 01, "Run and space"): whether it is over, and the cells read
// so far.
ghost use Rattle.std.specs.Prelude.{◌≡◌, IfOk};
ghost use Rattle.refusals.specs.Refused.{number_of, refused};
ghost use Rattle.rebuild_runs.specs.Runs.{read_refusal};
ghost use Rattle.rebuild_runs.specs.ProgressSays.{ProgressRefused, ProgressSays};

use super::Run;
use refusals::{Answer, Refusal};

// How far a run is: the answer, whether it is over, and the cells read so far.
#[repr(C)]
#[derive(Clone, Copy)]
pub struct Progress {
    pub answer: Answer,
    pub over: bool,
    pub cells: u64,
}

// A refusal of a record: the run is not over, and no cells are read.
impl From<Refusal> for Progress {
    ghost from_gives = { λ r p. ProgressRefused (number_of r) p };

    fn from(refusal: Refusal) -> Progress {
        Progress {
            answer: refusal.into(),
            over: false,
            cells: 0,
        }
    }
}

// How far a run is, or why its record may not be read.
pub fn try_progress(run: Run) -> Result<Progress, Refusal>
    ensures refusal { refused result ≡ read_refusal run }
    ensures progress { IfOk result (λ p. ProgressSays run p) }
{
    run.check()?;
    let plan = planner::plan_disk(run.shape.width, run.shape.disks, run.lost);
    let rebuilt = run.next - run.skipped;
    Ok(Progress {
        answer: Answer::accepted(),
        over: run.next == run.stripes,
        cells: rebuilt as u64 * plan.reads as u64,
    })
}

// How far a run is: only stripes that were not skipped were read. Refusals: 1, 13, 2, 3, 10.
pub fn run_progress(run: Run) -> Progress
    ensures { ProgressSays run result }
{
    try_progress(run).unwrap_or_else(Progress::from)
}
