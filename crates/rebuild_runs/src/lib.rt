// Rebuild runs over many stripes (document 01, "Run and space"): the record by value, its refusals,
// how it moves on, and a skip (document 02, ask 8). Numbers that another program put into a record
// are tested like any others. No bytes of a stripe are touched here: `starts` opens a run, `steps`
// rebuilds, `progress` says how far a run is.
#![tactic(auto)]

mod progress;
mod starts;
mod steps;

ghost use Rattle.std.specs.Prelude.{◌≡◌};
ghost use Rattle.refusals.specs.Refused.{refused};
ghost use Rattle.rebuild_runs.specs.Runs.{skipped_refusal, read_refusal, next_refusal, CanMove, moved_by, run_after, run_answer, SkipSays};

pub use progress::{Progress, run_progress, try_progress};
use refusals::{Answer, Geometry, Refusal, Shape};
pub use starts::{DisksRun, FullRun, open_run};
pub use steps::step_run;

// A run: the shape of the array, the lost disk, how many stripes there are, which of them is next,
// and how many before it were skipped.
#[repr(C)]
#[derive(Clone, Copy)]
pub struct Run {
    pub shape: Shape,
    pub lost: usize,
    pub stripes: u32,
    pub next: u32,
    pub skipped: u32,
}

// A refusal or none, and the record as it is then.
#[repr(C)]
#[derive(Clone, Copy)]
pub struct RunAnswer {
    pub answer: Answer,
    pub run: Run,
}

impl Run {
    // Are no more stripes skipped than are past? Refusal: 10.
    fn check_skipped(self) -> Result<(), Refusal>
        ensures { refused result ≡ skipped_refusal self }
    {
        if self.skipped <= self.next {
            return Ok(());
        }
        Err(Refusal::NotNext)
    }

    // Is this a record that may be read? Refusals: 1, 13, 2, 3, 10.
    fn check(self) -> Result<(), Refusal>
        ensures { refused result ≡ read_refusal self }
    {
        let geometry = Geometry::new(self.shape)?;
        geometry.array.check_disk(self.lost)?;
        self.check_skipped()
    }

    // Is there a next stripe, and is it this one? Refusal: 10.
    fn check_next(self, which: u64) -> Result<(), Refusal>
        ensures { refused result ≡ next_refusal self which }
    {
        if self.next < self.stripes && which == self.next as u64 {
            return Ok(());
        }
        Err(Refusal::NotNext)
    }

    // The record moved on by one stripe, with `skips` more of them skipped.
    fn moved_on(self, skips: u32) -> Run
        requires { CanMove self skips }
        ensures { result ≡ moved_by self skips }
    {
        Run {
            next: self.next + 1,
            skipped: self.skipped + skips,
            ..self
        }
    }
}

// A skip by value: gives the record moved on by one stripe that is not rebuilt. Refusals: 1, 13, 2,
// 3, 10.
pub fn skip_stripe(run: Run, which: u64) -> Result<Run, Refusal>
    ensures { SkipSays run (run_after run result) which (run_answer result) }
{
    run.check()?;
    run.check_next(which)?;
    Ok(run.moved_on(1))
}
