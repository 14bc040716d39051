// The steps of a plan as they are made.
ghost use Rattle.std.specs.Prelude.{◌≡◌, [], ◌∷◌, ◌++◌, ◌≤◌, ◌<◌, length};
ghost use Rattle.liberation.specs.Plans.{step};
ghost use Rattle.liberation.specs.Records.{recorded};
ghost use Rattle.parity_sets.specs.ParitySets.{kind_of, number_of};
ghost use Rattle.planner.specs.StepRecords.{Holds};

use super::records::Steps;
use parity_sets::{DIAGONAL_SET, ParitySet, ROW_SET};

// A record that steps are put into one after another.
#[derive(Drop)]
pub struct StepList {
    pub steps: Steps,
    count: usize,
    ghost within: { count ≤ 31 },
    ghost holds: { Holds (recorded count 0 steps.rows steps.kinds steps.numbers) steps },
}

impl StepList {
    ghost use Rattle.planner.specs.StepLists.{steps_put};

    // None so far.
    pub fn new() -> StepList
        ensures { steps_put result ≡ [] }
    {
        StepList {
            steps: Steps::none(),
            count: 0,
        }
    }

    // One step more: the row, by the set.
    pub fn push(&mut self, row: usize, set: ParitySet)
        requires { (length (steps_put self.old) < 31) × (row < 31) × (number_of set < 31) }
        ensures { steps_put self.new ≡ steps_put self.old ++ (step row (kind_of set) (number_of set) ∷ []) }
    {
        let (kind, number) = match set {
            ParitySet::Row(number) => (ROW_SET, number),
            ParitySet::Diagonal(number) => (DIAGONAL_SET, number),
        };
        self.steps.rows[self.count] = row as u8;
        self.steps.kinds[self.count] = kind as u8;
        self.steps.numbers[self.count] = number as u8;
        self.count += 1;
    }
}
