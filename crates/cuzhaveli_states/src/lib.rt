// The call for C and Rust on a list of the states of arrays.
// It hands its arguments on to the proved call and promises what that call promises.
#![tactic(auto)]

ghost use Rattle.array_states.specs.Reports.{ReportSays};

use array_states::{ArrayState, Board};

// A report on array `which` of the caller's list: its disk `disk` was lost, or is back. Every record
// is read, and one is written or none.
#[unsafe(no_mangle)]
pub extern "C" fn cuzhaveli_report_disk(
    list: &mut [ArrayState],
    which: usize,
    disk: usize,
    back: bool,
) -> Board
    ensures { ReportSays list.old which disk back list.new result }
{
    array_states::report_disk(list, which, disk, back)
}
