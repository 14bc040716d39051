// Any plan that the judge accepts, carried out: its read list, and the rebuild of one disk by it.
#![tactic(auto)]

mod bytes;
mod reads;
mod rebuild;

ghost use Rattle.std.specs.Prelude.{◌≡◌};
ghost use Rattle.judge.specs.Verdicts.{plan_answer};

use judge::PlanRefusal;
pub use reads::plan_list;
pub use rebuild::rebuild_by_plan;
use refusals::Answer;

// What a call gives, as C gets it.
fn answered(done: Result<(), PlanRefusal>) -> Answer
    ensures { result ≡ plan_answer done }
{
    match done {
        Ok(()) => Answer::accepted(),
        Err(refused) => Answer::from(refused),
    }
}
