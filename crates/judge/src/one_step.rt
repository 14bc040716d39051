// The judge of one step of a plan: its refusal by 6 to 9.
ghost use Rattle.std.specs.Prelude.{◌≡◌, true, List, ℕ, ◌+◌, ◌≤◌, IfOk, MatchResult, length};
ghost use Rattle.mathematics.specs.Lists.{is_in};
ghost use Rattle.liberation.specs.Sets.{lost_in};
ghost use Rattle.liberation.specs.Judging.{others_there, step_refusal};
ghost use Rattle.parity_sets.specs.ParitySets.{cells_of};
ghost use Rattle.refusals.specs.Refused.{refused};
ghost use Rattle.refusals.specs.declared.refusal.Refusal.TheVariants.{StepRange};
ghost use Rattle.judge.specs.Steps.{AreRebuilt, IsWithin, is_there, is_out_of_range, bytes_step, step_of};

use parity_sets::{DIAGONAL_SET, MAX_WIDTH, ParitySet};
use refusals::{Array, Refusal};

// A step: the row that it rebuilds, and the set that it does so by.
#[derive(Clone, Copy)]
pub struct Step {
    pub row: usize,
    pub set: ParitySet,
}

impl Step {
    // The step of three bytes of a plan: row, kind, number. Refusal: 6.
    fn of_bytes(array: Array, bytes: &[u8]) -> Result<Step, Refusal>
        requires { length bytes.now ≡ 3 }
        ensures { MatchResult result (λ s. (step_of s ≡ bytes_step bytes.now) × IsWithin array.width s) (λ e. (e ≡ StepRange) × (is_out_of_range array.width (bytes_step bytes.now) ≡ true)) }
    {
        let row = usize::from(bytes[0]);
        let kind = bytes[1];
        let number = bytes[2];
        if array.width <= row
            || array.width <= usize::from(number)
            || DIAGONAL_SET < usize::from(kind)
        {
            return Err(Refusal::StepRange);
        }
        Ok(Step {
            row,
            set: ParitySet::of_step(kind, number),
        })
    }
}

// Is a cell on another disk than the lost one, in this row, or rebuilt?
fn is_there(array: Array, lost: usize, row: usize, cell: usize, rebuilt: [bool; MAX_WIDTH]) -> bool
    requires { lost ≤ array.disks + 1 }
    ensures { result ≡ is_there array.width lost row rebuilt cell }
{
    if !parity_sets::is_on_disk(array, lost, cell) {
        return true;
    }
    let other = cell - lost * array.width;
    other == row || rebuilt[other]
}

// Does the set of a step hold the cell of its row on the lost disk?
fn holds_row(array: Array, lost: usize, step: Step) -> bool
    requires { (lost ≤ array.disks + 1) × IsWithin array.width step }
    ensures { result ≡ is_in step.row (lost_in array.width lost (cells_of array.width array.disks step.set)) }
{
    let wanted = lost * array.width + step.row;
    step.set.cells(array).any(|cell| cell == wanted)
}

// Are the lost cells of a step's set all rebuilt, that of its row apart?
fn others_there(array: Array, lost: usize, step: Step, rebuilt: [bool; MAX_WIDTH]) -> bool
    requires { (lost ≤ array.disks + 1) × IsWithin array.width step }
    ensures { (ds : List ℕ) → AreRebuilt rebuilt ds → result ≡ others_there step.row (lost_in array.width lost (cells_of array.width array.disks step.set)) ds }
{
    step.set
        .cells(array)
        .all(|cell| is_there(array, lost, step.row, cell, rebuilt))
}

// May this step come next, after those of the rows that are rebuilt? Refusals: 7 to 9.
fn check_step(
    array: Array,
    lost: usize,
    step: Step,
    rebuilt: [bool; MAX_WIDTH],
) -> Result<(), Refusal>
    requires { (lost ≤ array.disks + 1) × IsWithin array.width step }
    ensures { (ds : List ℕ) → AreRebuilt rebuilt ds → refused result ≡ step_refusal array.width array.disks lost ds (step_of step) }
{
    if !holds_row(array, lost, step) {
        return Err(Refusal::StepSet);
    }
    if rebuilt[step.row] {
        return Err(Refusal::StepRepeated);
    }
    if !others_there(array, lost, step, rebuilt) {
        return Err(Refusal::StepEarly);
    }
    Ok(())
}

// The next step of a plan by its bytes, after those of the rows that are rebuilt. Refusals: 6 to 9.
pub fn next_step(
    array: Array,
    lost: usize,
    bytes: &[u8],
    rebuilt: [bool; MAX_WIDTH],
) -> Result<Step, Refusal>
    requires { (lost ≤ array.disks + 1) × (length bytes.now ≡ 3) }
    ensures refusal { (ds : List ℕ) → AreRebuilt rebuilt ds → refused result ≡ step_refusal array.width array.disks lost ds (bytes_step bytes.now) }
    ensures step { IfOk result (λ s. (step_of s ≡ bytes_step bytes.now) × IsWithin array.width s) }
{
    let step = Step::of_bytes(array, bytes)?;
    check_step(array, lost, step, rebuilt)?;
    Ok(step)
}
