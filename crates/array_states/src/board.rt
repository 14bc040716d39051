// A report on an array of a list: the list is tested, one record of it is changed, and the arrays are
// counted anew.
ghost use Rattle.std.specs.Prelude.{◌≡◌, length};
ghost use Rattle.refusals.specs.Refused.{refused};
ghost use Rattle.array_states.specs.OnePass.{one_pass};
ghost use Rattle.array_states.specs.Reports.{number_refusal, list_refusal, board_of, ReportSays};

use super::{ArrayState, Totals, report_state};
use refusals::{Answer, Refusal};

// The most arrays of a list.
const MAX_ARRAYS: usize = 64;

// What a report on an array of a list answers.
#[repr(C)]
#[derive(Clone, Copy)]
pub struct Board {
    pub answer: Answer,
    pub totals: Totals,
}

// The totals after a report, or a refusal with none.
impl From<Result<Totals, Refusal>> for Board {
    ghost from_gives = { λ r b. b ≡ board_of r };

    fn from(counted: Result<Totals, Refusal>) -> Board {
        match counted {
            Ok(totals) => Board {
                answer: Answer::accepted(),
                totals,
            },
            Err(refusal) => Board {
                answer: refusal.into(),
                totals: Totals::default(),
            },
        }
    }
}

// Is there an array of this number in a list of so many, and is the list short enough? Refusal: 20.
fn check_number(count: usize, which: usize) -> Result<(), Refusal>
    ensures { refused result ≡ number_refusal count which }
{
    if which < count && count <= MAX_ARRAYS {
        return Ok(());
    }
    Err(Refusal::NoSuchArray)
}

// Is every record within its limits? The first that is not decides. Refusals: 1, 13, 3.
#[tactic(auto, using(crate::proofs::RestLaws::refusal_next, crate::proofs::RestLaws::refusal_none))]
fn check_states(list: &[ArrayState]) -> Result<(), Refusal>
    ensures { refused result ≡ list_refusal list.now }
{
    for state in list {
        state.check()?;
    }
    Ok(())
}

// The totals after a report, or why it is refused.
fn try_report(
    list: &mut [ArrayState],
    which: usize,
    disk: usize,
    back: bool,
) -> Result<Totals, Refusal>
    ensures { ReportSays list.old which disk back list.new (board_of result) }
{
    check_number(list.len(), which)?;
    check_states(list)?;
    let after = report_state(list[which], disk, back)?;
    list[which] = after;
    Ok(Totals::of(list))
}

// A report on array `which` of a list: its disk `disk` was lost, or is back. Every record is read,
// and one is written or none. Refusals: 20, 1, 13, 3, 21.
pub fn report_disk(list: &mut [ArrayState], which: usize, disk: usize, back: bool) -> Board
    ensures says { ReportSays list.old which disk back list.new result }
    ensures pass { result ≡ one_pass list.old which disk back }
{
    try_report(list, which, disk, back).into()
}
