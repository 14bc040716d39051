// The states of up to 64 arrays (document 02, ask 12): which disks are lost, reports that a disk was
// lost or is back, and how many arrays can bear two more losses, one, none, or are past saving.
#![tactic(auto)]

mod bits;
mod board;
mod totals;

ghost use Rattle.std.specs.Prelude.{◌≡◌, IfOk};
ghost use Rattle.refusals.specs.Refused.{refused};
ghost use Rattle.array_states.specs.States.{state_refusal, state_answer, StateSays};

pub use board::{Board, report_disk};
use refusals::{Array, Refusal};
pub use totals::Totals;

// An array of a list: its width p, its data disks k, and a word with bit d set for each lost disk
// d.
#[repr(C)]
#[derive(Clone, Copy)]
pub struct ArrayState {
    pub width: usize,
    pub disks: usize,
    pub lost: u64,
}

impl ArrayState {
    // Is the array within the limits, and is every lost disk one of it? Refusals: 1, 13, 3.
    fn check(self) -> Result<Array, Refusal>
        ensures refusal { refused result ≡ state_refusal self }
        ensures disks { IfOk result (λ a. a.disks ≡ self.disks) }
    {
        let array = Array::new(self.width, self.disks)?;
        bits::check_lost(array, self.lost)?;
        Ok(array)
    }
}

// A report on one array: a disk was lost, or is back. Refusals: 1, 13, 3, 21.
pub fn report_state(state: ArrayState, disk: usize, back: bool) -> Result<ArrayState, Refusal>
    ensures { StateSays state disk back (state_answer state result) }
{
    let array = state.check()?;
    array.check_disk(disk)?;
    if bits::is_lost(state.lost, disk) != back {
        return Err(Refusal::DiskUnchanged);
    }
    Ok(ArrayState {
        lost: bits::lost_after(state.lost, disk, back),
        ..state
    })
}
