// The calls for C and Rust on a rebuild run.
// Each hands its arguments on to the proved call and promises what that call promises.
#![tactic(auto)]

ghost use Rattle.std.specs.Prelude.{◌≡◌};
ghost use Rattle.rebuild_runs.specs.Runs.{run_after, run_answer, SkipSays};
ghost use Rattle.rebuild_runs.specs.Starts.{OpenSays, resumed, resumed_disks};
ghost use Rattle.rebuild_runs.specs.StepSays.{StepSays};
ghost use Rattle.rebuild_runs.specs.ProgressSays.{ProgressSays};

use rebuild_runs::{DisksRun, FullRun, Progress, Run, RunAnswer};
use refusals::{Answer, Refusal, Shape};

// Opens a rebuild run over `stripes` stripes.
#[unsafe(no_mangle)]
pub extern "C" fn cuzhaveli_open_run(shape: Shape, lost: usize, stripes: u32) -> RunAnswer
    ensures { OpenSays shape.width shape.disks shape.cell_size lost stripes result }
{
    rebuild_runs::open_run(shape, lost, stripes)
}

// A run that was open when its record had no number of data disks goes on with as many as its
// width.
#[unsafe(no_mangle)]
pub extern "C" fn cuzhaveli_resume_full_run(old: FullRun) -> Run
    ensures { result ≡ resumed old }
{
    Run::from(old)
}

// A run that was open when no stripe could be skipped goes on with none skipped.
#[unsafe(no_mangle)]
pub extern "C" fn cuzhaveli_resume_disks_run(old: DisksRun) -> Run
    ensures { result ≡ resumed_disks old }
{
    old.into()
}

// Stores the record that a call gives, and answers. A refusal stores nothing, so the record may then
// be in memory that is only read.
fn store(run: &mut Run, moved: Result<Run, Refusal>) -> Answer
    ensures record { run.new ≡ run_after run.old moved }
    ensures answer { result ≡ run_answer moved }
{
    match moved {
        Ok(after) => {
            *run = after;
            Answer::accepted()
        }
        Err(refusal) => refusal.into(),
    }
}

// A step of a run over the caller's record: rebuilds stripe `which` into the column and moves the
// record on by one. A refusal stores nothing.
#[unsafe(no_mangle)]
pub extern "C" fn cuzhaveli_step_run(
    run: &mut Run,
    which: u64,
    stripe: &[u8],
    column: &mut [u8],
) -> Answer
    ensures { StepSays run.old run.new which stripe.now column.old column.new result }
{
    let stepped = rebuild_runs::step_run(*run, which, stripe, column);
    store(run, stepped)
}

// A skip of stripe `which` over the caller's record of a run: moves it on by one stripe that is not
// rebuilt. A refusal stores nothing.
#[unsafe(no_mangle)]
pub extern "C" fn cuzhaveli_skip_stripe(run: &mut Run, which: u64) -> Answer
    ensures { SkipSays run.old run.new which result }
{
    let skipped = rebuild_runs::skip_stripe(*run, which);
    store(run, skipped)
}

// How far a run is: its record is only read.
#[unsafe(no_mangle)]
pub extern "C" fn cuzhaveli_run_progress(run: &Run) -> Progress
    ensures { ProgressSays run.now result }
{
    rebuild_runs::run_progress(*run)
}
