// A step of a rebuild run (document 01, "Run and space"): the next stripe is rebuilt, and the
// record moves on.
ghost use Rattle.std.specs.Prelude.{◌≡◌, IfOk};
ghost use Rattle.refusals.specs.Refused.{refused};
ghost use Rattle.rebuild_runs.specs.Runs.{run_after, run_answer};
ghost use Rattle.rebuild_runs.specs.StepSays.{step_lengths_refusal, StepSays};

use super::Run;
use rebuild_one::LostDisk;
use refusals::Refusal;

// The lost disk of a step that may rebuild stripe `which`, from a stripe into a column of these many
// bytes. Refusals: 1, 13, 2, 3, 5, 10.
fn check_step(run: Run, which: u64, stripe: usize, column: usize) -> Result<LostDisk, Refusal>
    ensures refusal { refused result ≡ step_lengths_refusal run which stripe column }
    ensures numbers { IfOk result (λ l. (l.geometry.array.width ≡ run.shape.width) × (l.geometry.array.disks ≡ run.shape.disks) × (l.geometry.cell_size ≡ run.shape.cell_size) × (l.disk ≡ run.lost)) }
{
    let disk = LostDisk::of_call(run.shape, run.lost, stripe, column)?;
    run.check_skipped()?;
    run.check_next(which)?;
    Ok(disk)
}

// A step by value: rebuilds stripe `which` into the column and gives the record moved on by one.
// Refusals: 1, 13, 2, 3, 5, 10; they leave the column as it was.
pub fn step_run(run: Run, which: u64, stripe: &[u8], column: &mut [u8]) -> Result<Run, Refusal>
    ensures { StepSays run (run_after run result) which stripe.now column.old column.new (run_answer result) }
{
    let disk = check_step(run, which, stripe.len(), column.len())?;
    disk.rebuild_column(stripe, column);
    Ok(run.moved_on(0))
}
